// A reader: a lent trace, and the position of what is not yet read. The work is done by functions on a slice and a number.
ghost use Rattle.std.specs.Prelude.{◌≡◌, ◌*◌, ⊤, min, length, drop};
ghost use Rattle.std.specs.Iterator.{YieldsFirst, MakesProgress, item_count as count_of};
ghost use Rattle.reader.specs.Reader.{next_at, after_next, after_many, left_of, ran_at, handed_back};
ghost use Rattle.trace.specs.Run.{run as run_of};

use access::Item;
use file::File;
use trace::{Ran, item_of, run};

// What is left of a trace from a position on.
pub fn left_at(trace: &[u8], at: usize) -> &[u8]
    ensures { result.now ≡ drop at trace.now }
{
    &trace[at.min(trace.len())..]
}

// What stands at a position: a record or the last fragment; nothing at the trace's end.
pub fn next_at(trace: &[u8], at: usize) -> Option<Item>
    ensures { result ≡ next_at trace.now at }
{
    if at < trace.len() {
        Some(item_of(&trace[at..]))
    } else {
        None
    }
}

// The position after what stands there.
pub fn after_at(trace: &[u8], at: usize) -> usize
    ensures { result ≡ after_next trace.now at }
{
    at + left_at(trace, at).len().min(8)
}

// How far a trace is read after so many records.
pub fn place_after(trace: &[u8], count: usize) -> usize
    ensures { result ≡ min (8 * count) (length trace.now) }
{
    count.saturating_mul(8).min(trace.len())
}

// The position after so many records, or a last fragment among them.
pub fn after_many(trace: &[u8], at: usize, count: usize) -> usize
    ensures { result ≡ after_many count trace.now at }
{
    let left = left_at(trace, at);
    at + place_after(left, count)
}

// What a run from a position on hands back, and the position after it.
#[derive(Clone, Copy)]
pub struct RanAt {
    pub ran: Ran,
    pub at: usize,
}

// A run over what is left of a trace from a position on.
pub fn run_at(trace: &[u8], at: usize, whole: File, replies: &mut [u8]) -> RanAt
    ensures { (result ≡ ran_at whole trace.now at replies.old) × (replies.new ≡ (run_of whole (drop at trace.now) replies.old).buffer) }
{
    let left = left_at(trace, at);
    let ran = run(whole, left, replies);
    RanAt {
        ran,
        at: after_many(trace, at, ran.count),
    }
}

// A lent trace, and the position of what is not yet read.
#[derive(Clone, Copy)]
pub struct Reader<'a> {
    pub trace: &'a [u8],
    pub at: usize,
}

// What a reader's run hands back: what the run gives, and the reader of the part not yet read.
#[derive(Clone, Copy)]
pub struct HandedBack<'a> {
    pub ran: Ran,
    pub reader: Reader<'a>,
}

impl<'a> Reader<'a> {
    // A reader of a whole trace.
    pub fn new(trace: &'a [u8]) -> Reader<'a>
        ensures { (result.trace ≡ trace.entry) × (result.at ≡ 0) }
    {
        Reader { trace, at: 0 }
    }

    // What stands next, a record or the last fragment, and nothing at the trace's end. The reader stays where it is: a loop that goes on goes by the
    // iterator below.
    pub fn next(self) -> Option<Item>
        ensures { result ≡ next_at self.entry.trace.now self.entry.at }
    {
        next_at(self.trace, self.at)
    }

    // The reader past what stands next.
    pub fn advanced(self) -> Reader<'a>
        ensures { (result.trace ≡ self.entry.trace) × (result.at ≡ after_next self.entry.trace.now self.entry.at) }
    {
        Reader {
            trace: self.trace,
            at: after_at(self.trace, self.at),
        }
    }

    // A run over what is left into a reply buffer; the reader comes back past what was read.
    pub fn run(self, whole: File, replies: &mut [u8]) -> HandedBack<'a>
        ensures { (result ≡ handed_back whole self.entry replies.old) × (replies.new ≡ (run_of whole (drop self.entry.at self.entry.trace.now) replies.old).buffer) }
    {
        let after = run_at(self.trace, self.at, whole, replies);
        HandedBack {
            ran: after.ran,
            reader: Reader {
                trace: self.trace,
                at: after.at,
            },
        }
    }

    // The part of the trace not yet read.
    pub fn rest(self) -> &'a [u8]
        ensures { result.now ≡ drop self.entry.at self.entry.trace.now }
    {
        left_at(self.trace, self.at)
    }
}

// The items that are left, each with the reader past it.
impl<'a> Iterator for Reader<'a> {
    type Item = Item;

    ghost next_gives = { YieldsFirst left_of };

    ghost remaining = { count_of left_of };

    // What stands next; nothing at the end.
    fn next(&mut self) -> Option<Item>
        ensures steps { YieldsFirst left_of self.old result self.new }
        ensures goes { MakesProgress (λ _. ⊤) (count_of left_of) self.old result self.new }
        ensures stands { result ≡ next_at self.old.trace.now self.old.at }
        ensures past { (self.new.trace ≡ self.old.trace) × (self.new.at ≡ after_next self.old.trace.now self.old.at) }
    {
        let next = next_at(self.trace, self.at);
        self.at = after_at(self.trace, self.at);
        next
    }
}

// The part of a trace not yet read after so many records.
pub fn unread<'a>(trace: &'a [u8], count: usize) -> &'a [u8]
    ensures { result.now ≡ drop (8 * count) trace.now }
{
    let at = place_after(trace, count);
    Reader { trace, at }.rest()
}

// What stands at a position of a trace, and the position past it.
#[derive(Clone, Copy)]
pub struct NextAt {
    pub next: Option<Item>,
    pub at: usize,
}

// A reader's step, from a position to the next.
pub fn next_from<'a>(trace: &'a [u8], at: usize) -> NextAt
    ensures { (result.next ≡ next_at trace.now at) × (result.at ≡ after_next trace.now at) }
{
    let reader = Reader { trace, at };
    NextAt {
        next: reader.next(),
        at: reader.advanced().at,
    }
}

// A reader's run, from a position to the one after it.
pub fn run_from<'a>(trace: &'a [u8], at: usize, whole: File, replies: &mut [u8]) -> RanAt
    ensures { (result ≡ ran_at whole trace.now at replies.old) × (replies.new ≡ (run_of whole (drop at trace.now) replies.old).buffer) }
{
    let back = Reader { trace, at }.run(whole, replies);
    RanAt {
        ran: back.ran,
        at: back.reader.at,
    }
}
