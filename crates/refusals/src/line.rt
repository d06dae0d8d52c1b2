// The line that is said of the records that were refused.
ghost use Rattle.std.specs.Prelude.{◌≡◌, ◌≤◌, length};
ghost use Rattle.text.specs.Lent.{Wrote};
ghost use Rattle.refusals.specs.Said.{RefusedLined, refused_sum as refusedSumOf, refused_text};

use crate::codes::{CODES, Refusals};
use crate::put::{put_codes, put_head};
use text::{Placed, plain_text, put};

// The most bytes that the line has.
pub const REFUSED_MOST: usize = 830;

// Counts the refused records: those with a code from 2 up; a sum beyond 64 bits is the largest count.
fn refused_sum(counts: &[u64; CODES]) -> u64
    ensures { result ≡ refusedSumOf counts.now }
{
    let mut sum: u64 = 0;
    for count in &counts[2..] {
        sum = sum.saturating_add(*count);
    }
    sum
}

// Stores the line of `number` records and their `counts` from the start of a buffer that has room for it on; nothing where none was refused.
fn put_line(number: u64, counts: &[u64; CODES], buffer: &mut [u8]) -> usize
    requires { length (refused_text number counts.now) ≤ length buffer.old }
    ensures { Wrote buffer.old 0 (refused_text number counts.now) buffer.new result }
{
    let sum = refused_sum(counts);
    if sum == 0 {
        return 0;
    }
    let at = put_head(sum, number, buffer, 0);
    let at = put_codes(counts, buffer, at);
    put(b"\n", buffer, at)
}

// Puts the line of counts of 23 codes, made in a buffer of its own first.
fn counts_line(buffer: &mut [u8], at: usize, number: u64, counts: &[u64; CODES]) -> Placed
    ensures { RefusedLined at number counts.now buffer.old buffer.new result }
{
    let mut line = [0u8; REFUSED_MOST];
    let end = put_line(number, counts, &mut line);
    plain_text(buffer, at, &line[..end])
}

// Puts what is said of `number` records that answered as `refusals` counts them, from the place `at` of `buffer` on: nothing where no code
// from 2 up has a count; code 11 where the line has no room.
pub fn refused_line(buffer: &mut [u8], at: usize, number: u64, refusals: Refusals) -> Placed
    ensures { RefusedLined at number refusals.counts buffer.old buffer.new result }
{
    let counts = refusals.counts;
    counts_line(buffer, at, number, &counts)
}
