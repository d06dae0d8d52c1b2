// What is kept of a trace, record by record.
ghost use Rattle.std.specs.Prelude.{◌≡◌};
ghost use Rattle.summing.specs.Summed.{begun, coded as codedBy, ended as ended_by, more as moreOf, moved_bits, reached as reachedBy, taken_in};
ghost use Rattle.summing.specs.Told.{record_summed};

use access::Item;
use explaining::{NUMBERS, numbers_in, reach_in, register_of};
use file::{File, REGISTERS};

// The codes from 0 to 20.
pub const CODES: usize = 21;

// Of each register how many writes, the union of reaches and the bits that ever moved; how often each code came; the timing numbers at the start and
// at the end. Three tables of registers and not one of structs, since each has a law of its own: how many, a union, what differs.
#[derive(Clone, Copy)]
pub struct Summary {
    pub writes: [u64; REGISTERS],
    pub reaches: [u16; REGISTERS],
    pub moved: [u16; REGISTERS],
    pub codes: [u64; CODES],
    pub first: [u32; NUMBERS],
    pub last: [u32; NUMBERS],
}

// Before the first record.
pub fn begin(file: File) -> Summary
    ensures { result ≡ begun file }
{
    let numbers = numbers_in(file);
    Summary {
        writes: [0; REGISTERS],
        reaches: [0; REGISTERS],
        moved: [0; REGISTERS],
        codes: [0; CODES],
        first: numbers,
        last: numbers,
    }
}

// One more; the largest count stays.
fn more(n: u64) -> u64
    ensures { result ≡ moreOf n }
{
    n.saturating_add(1)
}

// A register is reached in some bits, of which some moved; one that is reached in none is not.
fn reached(summary: Summary, number: usize, bits: u16, moved: u16) -> Summary
    ensures { result ≡ reachedBy summary number bits moved }
{
    let mut after = summary;
    if bits == 0 {
        return after;
    }
    if number >= REGISTERS {
        return after;
    }
    after.writes[number] = more(summary.writes[number]);
    after.reaches[number] = summary.reaches[number] | bits;
    after.moved[number] = summary.moved[number] | moved;
    after
}

// A code came.
fn coded(summary: Summary, code: u8) -> Summary
    ensures { result ≡ codedBy summary code }
{
    let mut after = summary;
    let code = code as usize;
    if code >= CODES {
        return after;
    }
    after.codes[code] = more(summary.codes[code]);
    after
}

// The numbers are these.
fn ended(summary: Summary, numbers: [u32; NUMBERS]) -> Summary
    ensures { result ≡ ended_by summary numbers }
{
    let mut after = summary;
    after.last = numbers;
    after
}

// The bits of a register that read otherwise after than before.
fn moved_bits(before: File, after: File, number: usize) -> u16
    ensures { result ≡ moved_bits before after number }
{
    register_of(before, number) ^ register_of(after, number)
}

// What stands next in a trace is taken in, by the file before it.
pub fn take_in(summary: Summary, file: File, item: Item) -> Summary
    ensures { result ≡ taken_in summary file item }
{
    let accessed = item.access(file);
    let after = accessed.file;
    let answer = accessed.answer;
    let reach = reach_in(file, item);
    let number = reach.register;
    let moved = moved_bits(file, after, number);
    let summary = reached(summary, number, reach.bits, moved);
    let summary = coded(summary, answer.code());
    ended(summary, numbers_in(after))
}

// The same where a summary is kept.
pub fn record_summed(sums: bool, summary: Summary, file: File, item: Item) -> Summary
    ensures { result ≡ record_summed sums summary file item }
{
    if sums {
        return take_in(summary, file, item);
    }
    summary
}
