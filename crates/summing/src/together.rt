// The records in which a number moved together with another one.
ghost use Rattle.std.specs.Prelude.{◌≡◌, ◌+◌, ◌≤◌, ◌<◌, ◌==◌, count_by, length, not, zip};
ghost use Rattle.text.specs.Lent.{Lined, Wrote};
ghost use Rattle.explaining.specs.Lines.{lines_of};
ghost use Rattle.explaining.specs.Moves.{number_count};
ghost use Rattle.summing.specs.Together.{moved_line, moved_together, together, together_answer, together_count, together_line, together_most, together_text};

use access::Item;
use explaining::{Case, Line, NUMBERS, case_of, choose, first_line, number_line, put_lines};
use file::File;
use text::{Placed, has_room};

// The most bytes that the lines of such a record have.
const MOST: usize = 2560;

// How many numbers moved.
fn moved_count(old: [u32; NUMBERS], new: [u32; NUMBERS]) -> usize
    ensures { result ≡ count_by (λ x. not (x.0 == x.1)) (zip old new) }
{
    old.iter()
        .zip(new.iter())
        .filter(|(before, after)| before != after)
        .count()
}

fn is_together(case: Case) -> bool
    ensures { result ≡ together case }
{
    let old = case.old;
    let new = case.new;
    moved_count(old, new) > 1
}

// The line of a number that moved.
fn moved_line(case: Case, k: usize) -> Line
    requires { k < number_count }
    ensures { result ≡ moved_line case k }
{
    let moved = case.old[k] != case.new[k];
    choose(moved, number_line(case, k), Line::blank())
}

// The record's first line, and those, into a lent buffer that has room for as many as there may be.
fn put_together(case: Case, buffer: &mut [u8], at: usize) -> usize
    requires { at + together_most ≤ length buffer.old }
    ensures wrote { Wrote buffer.old at (lines_of (together_line case) 0 together_count) buffer.new result }
    ensures upper_bound { result ≤ at + together_most }
{
    let at = put_lines(1, |_| first_line(case), buffer, at);
    put_lines(NUMBERS, |k| moved_line(case, k), buffer, at)
}

// None where fewer than two moved.
fn put_moved(case: Case, buffer: &mut [u8], at: usize) -> usize
    requires { at + together_most ≤ length buffer.old }
    ensures wrote { Wrote buffer.old at (together_text case) buffer.new result }
    ensures upper_bound { result ≤ at + together_most }
{
    if is_together(case) {
        return put_together(case, buffer, at);
    }
    at
}

// What moved together in what stands next in a trace, from a place of a buffer on: its number, and the file before it; code 11 where there are fewer
// bytes than such lines may have.
pub fn together_lines(buffer: &mut [u8], at: usize, number: u64, file: File, item: Item) -> Placed
    ensures { Lined (together_answer buffer.old at) at (moved_together number file item) buffer.old buffer.new result }
{
    if has_room(buffer.len(), at, MOST) {
        let case = case_of(number, file, item);
        return Placed::stored(put_moved(case, buffer, at));
    }
    Placed::no_room(at)
}
