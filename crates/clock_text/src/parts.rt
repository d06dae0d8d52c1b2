// The report of a part of the input, its summary, and the report of the whole.
ghost use Rattle.std.specs.Prelude.{◌≡◌, ◌+◌, ◌*◌, ◌≤◌, length};
ghost use Rattle.text.specs.Lent.{Lined, Wrote};
ghost use Rattle.clock_text.specs.Parts.{Countable, LinesPut, PartReported, counts_fit, report_answer, sets_fit, summary_answer, summary_most};
ghost use Rattle.clock_text.specs.Report.{clock_line, report as reportOf, summary};
ghost use Rattle.clock_text.specs.Sets.{counting, set_count, set_of};

use crate::put::{put_line, put_summary};
use crate::sets::set_clock;
use crate::tally::Tally;
use file::Answer;
use text::Placed;

// The most bytes that a set's line has, and the summary.
const LINE_MOST: usize = 15;

const SUMMARY_MOST: usize = 131;

// What a part of the input leaves: what is counted behind it, and where its lines end.
#[derive(Clone, Copy)]
pub struct SetsPart {
    pub tally: Tally,
    pub end: usize,
}

// How many sets there are, a fragment among them.
#[tactic(auto, unfolding(crate::specs::Sets::set_count))]
fn set_count(input: &[u8]) -> usize
    ensures { result ≡ set_count input.now }
{
    input.len().div_ceil(3)
}

// So many lines have room, with so many bytes behind them.
#[tactic(auto, unfolding(crate::specs::Parts::sets_fit))]
fn sets_fit(count: usize, last: usize, lines: usize) -> bool
    ensures { result ≡ sets_fit count last lines }
{
    last <= lines && count <= (lines - last) / LINE_MOST
}

// Each count has room for so many more.
#[tactic(auto, unfolding(crate::specs::Parts::counts_fit))]
fn counts_fit(tally: Tally, count: usize) -> bool
    ensures { result ≡ counts_fit tally count }
{
    let most = u64::MAX - count as u64;
    if tally.rates > most {
        return false;
    }
    tally.nones <= most && tally.refused <= most
}

// Counts one set or fragment more behind `part`, and stores its line.
fn put_set(part: SetsPart, set: &[u8], lines: &mut [u8]) -> SetsPart
    requires { Countable part.tally 1 × (part.end + length (clock_line (set_of set.now)) ≤ length lines.old) }
    ensures tally { result.tally ≡ counting part.tally (set_of set.now) }
    ensures wrote { Wrote lines.old part.end (clock_line (set_of set.now)) lines.new result.end }
{
    let clock = set_clock(set);
    SetsPart {
        tally: part.tally.counting(clock),
        end: put_line(clock, lines, part.end),
    }
}

// The sets counted and their lines stored, from the start of a buffer on that has room for them.
fn put_sets(before: Tally, input: &[u8], lines: &mut [u8]) -> SetsPart
    requires input_in_bounds { 15 * set_count input.now ≤ length lines.old }
    requires countable { Countable before (set_count input.now) }
    ensures { LinesPut before input.now lines.old lines.new result }
{
    let sets = input.chunks_exact(3);
    let fragment = sets.remainder();
    let mut part = SetsPart {
        tally: before,
        end: 0,
    };
    for set in sets {
        part = put_set(part, set, lines);
    }
    if fragment.is_empty() {
        return part;
    }
    put_set(part, fragment, lines)
}

// A part of the input, counted behind what was before, with a line for each set from the start of a buffer on; code 11 where the lines have
// no room, code 10 where a count has none, and then the buffer stays as it was.
pub fn report_part(before: Tally, input: &[u8], lines: &mut [u8]) -> Result<SetsPart, Answer>
    ensures { PartReported before input.now lines.old lines.new result }
{
    let count = set_count(input);
    if !sets_fit(count, 0, lines.len()) {
        return Err(Answer::ShortBuffer);
    }
    if !counts_fit(before, count) {
        return Err(Answer::OutOfRange);
    }
    Ok(put_sets(before, input, lines))
}

// The three lines of the summary, from a place of the buffer on; code 11 where there are fewer bytes than a summary may have.
pub fn summary_lines(lines: &mut [u8], at: usize, tally: Tally) -> Placed
    ensures lined { Lined (summary_answer lines.old at) at (summary tally) lines.old lines.new result }
    ensures most { length (summary tally) ≤ summary_most }
{
    if lines.len() < at || lines.len() - at < SUMMARY_MOST {
        return Placed {
            answer: Answer::ShortBuffer,
            end: at,
        };
    }
    Placed {
        answer: Answer::Done(0),
        end: put_summary(tally, lines, at),
    }
}

// What the program prints of an input, from the start of a buffer on; code 11 where the buffer is short.
pub fn report(input: &[u8], lines: &mut [u8]) -> Placed
    ensures { Lined (report_answer input.now lines.old) 0 (reportOf input.now) lines.old lines.new result }
{
    if !sets_fit(set_count(input), SUMMARY_MOST, lines.len()) {
        return Placed {
            answer: Answer::ShortBuffer,
            end: 0,
        };
    }
    match report_part(Tally::none(), input, lines) {
        Ok(part) => summary_lines(lines, part.end, part.tally),
        Err(answer) => Placed { answer, end: 0 },
    }
}
