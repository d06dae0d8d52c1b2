// Counting answers by their codes.
ghost use Rattle.std.specs.Prelude.{◌≡◌};
ghost use Rattle.refusals.specs.Counted.{counted_at, counting_of, none_counted, replies_counted};

// The codes from 0 to 22.
pub const CODES: usize = 23;

// How many answers had each code.
#[derive(Clone, Copy)]
pub struct Refusals {
    pub counts: [u64; CODES],
}

// Counts nothing yet.
pub fn none() -> Refusals
    ensures { result ≡ none_counted }
{
    Refusals { counts: [0; CODES] }
}

// Counts `code` once in `counts`, up to the largest count; a code above 22 counts nothing.
fn count_one(counts: &mut [u64; CODES], code: u8)
    ensures { counts.new ≡ counted_at counts.old code }
{
    let place = usize::from(code);
    if place < CODES {
        counts[place] = counts[place].saturating_add(1);
    }
}

// Counts `code` once after the counts `before`; a code above 22 counts nothing.
pub fn counting(before: Refusals, code: u8) -> Refusals
    ensures { result ≡ counting_of before code }
{
    let mut counts = before.counts;
    count_one(&mut counts, code);
    Refusals { counts }
}

// Counts the codes of the whole 8-byte replies in `replies` after the counts `before`: byte 0 of each. Two in a turn, which takes fewer tests.
pub fn counting_replies(before: Refusals, replies: &[u8]) -> Refusals
    ensures { result ≡ replies_counted before replies.now }
{
    let mut counts = before.counts;
    let count = replies.len() / 8;
    for n in 0..count / 2 {
        count_one(&mut counts, replies[16 * n]);
        count_one(&mut counts, replies[16 * n + 8]);
    }
    if count % 2 == 1 {
        count_one(&mut counts, replies[8 * (count - 1)]);
    }
    Refusals { counts }
}
