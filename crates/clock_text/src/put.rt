// Texts stored into a lent buffer that has room for them.
ghost use Rattle.std.specs.Prelude.{◌++◌, ◌+◌, ◌≤◌, length};
ghost use Rattle.text.specs.Lent.{Wrote};
ghost use Rattle.text.specs.Text.{newline};
ghost use Rattle.clock_text.specs.Report.{clock_line, clock_text, counts_line, rate_text, summary, terms_text};

use crate::tally::Tally;
use clock::Terms;
use file::Answer;
use text::{put_behind, put_number};

// Stores `text` from the place `at` of `buffer` on, which has room for it; the place behind it comes back. `text::put` would ask for that room
// again, twice for each set.
fn put(text: &[u8], buffer: &mut [u8], at: usize) -> usize
    requires { at + length text.now ≤ length buffer.old }
    ensures { Wrote buffer.old at text.now buffer.new result }
{
    let end = at + text.len();
    buffer[at..end].copy_from_slice(text);
    end
}

// p/q.
fn put_terms(terms: Terms, buffer: &mut [u8], at: usize) -> usize
    requires { at + length (terms_text terms) ≤ length buffer.old }
    ensures { Wrote buffer.old at (terms_text terms) buffer.new result }
{
    let at = put_number(u64::from(terms.p), buffer, at);
    let at = put(b"/", buffer, at);
    put_number(u64::from(terms.q), buffer, at)
}

// Stores `rate`, or that there is none. The body stands in place of each call, since a call takes longer than it takes to store that there is none.
#[inline(always)]
fn put_rate(rate: Option<Terms>, buffer: &mut [u8], at: usize) -> usize
    requires { at + length (rate_text rate) ≤ length buffer.old }
    ensures { Wrote buffer.old at (rate_text rate) buffer.new result }
{
    match rate {
        Some(terms) => put_terms(terms, buffer, at),
        None => put(b"none", buffer, at),
    }
}

// Stores what a set says, without its newline: its rate, that it has none, or the code that it is refused with. `set_clock` refuses with 2 alone,
// and that is put as it stands, since `put_number` asks for room again.
fn put_clock(clock: Result<Option<Terms>, Answer>, buffer: &mut [u8], at: usize) -> usize
    requires { at + length (clock_text clock) ≤ length buffer.old }
    ensures { Wrote buffer.old at (clock_text clock) buffer.new result }
{
    match clock {
        Ok(rate) => put_rate(rate, buffer, at),
        Err(Answer::Malformed) => put(b"2", buffer, at),
        Err(answer) => put_number(u64::from(answer.code()), buffer, at),
    }
}

// The line of a set.
pub fn put_line(clock: Result<Option<Terms>, Answer>, buffer: &mut [u8], at: usize) -> usize
    requires { at + length (clock_line clock) ≤ length buffer.old }
    ensures { Wrote buffer.old at (clock_line clock) buffer.new result }
{
    let at = put_clock(clock, buffer, at);
    put(b"\n", buffer, at)
}

// The counts of rates, nones and refused sets.
fn put_counts(tally: Tally, buffer: &mut [u8], at: usize) -> usize
    requires { at + length (counts_line tally) ≤ length buffer.old }
    ensures { Wrote buffer.old at (counts_line tally) buffer.new result }
{
    let at = put_behind(b"counts ", tally.rates, buffer, at);
    let at = put_behind(b" ", tally.nones, buffer, at);
    let at = put_behind(b" ", tally.refused, buffer, at);
    put(b"\n", buffer, at)
}

// A word and a rate behind it.
fn put_rate_line(word: &[u8], rate: Option<Terms>, buffer: &mut [u8], at: usize) -> usize
    requires { at + length (word.now ++ rate_text rate ++ newline) ≤ length buffer.old }
    ensures { Wrote buffer.old at (word.now ++ rate_text rate ++ newline) buffer.new result }
{
    let at = put(word, buffer, at);
    let at = put_rate(rate, buffer, at);
    put(b"\n", buffer, at)
}

// The three lines of the summary.
pub fn put_summary(tally: Tally, buffer: &mut [u8], at: usize) -> usize
    requires { at + length (summary tally) ≤ length buffer.old }
    ensures { Wrote buffer.old at (summary tally) buffer.new result }
{
    let at = put_counts(tally, buffer, at);
    let at = put_rate_line(b"largest ", tally.largest, buffer, at);
    put_rate_line(b"smallest ", tally.smallest, buffer, at)
}
