// Register sets on standard input, counted and told in fixed memory.
ghost use Rattle.std.specs.Prelude.{◌++◌, ◌≡◌, ◌≤◌, length, drop};
ghost use Rattle.io.specs.Counts.{IsPrefixLen};
ghost use Rattle.shell.specs.Parts.{counted};
ghost use Rattle.clock_text.specs.Parts.{Countable, summary_most};
ghost use Rattle.clock_text.specs.Report.{summary};
ghost use Rattle.clocks.specs.Turns.{Came, Turned, beginning, failed_after, going_behind, has_failed, has_more, over_after};

use clock_text::{Tally, report_part, summary_lines};
use shell::{Filled, Handed, fill, nothing_handed, nothing_read, tell, write_out};
use std::io::Read;

// So many buffers of 2,048 sets a count of 64 bits has numbers for.
const TURNS: u64 = u64::MAX / 2048;

// How a course goes on: there is more to read, the input has ended, or something failed.
#[derive(Clone, Copy)]
pub enum Going {
    More,
    Ended,
    Failed,
}

// How far a run has come: what was counted, how it goes on, what was read and what was handed to be written. No `Result`: of a course that
// failed too `turns-counted` promises what was read and handed on.
#[derive(Clone, Copy)]
pub struct Course {
    pub tally: Tally,
    pub going: Going,
    pub read: Filled,
    pub handed: Handed,
}

impl Course {
    // Whether there is more to read.
    #[tactic(auto, unfolding(crate::specs::Turns::has_more))]
    fn has_more(self) -> bool
        ensures { result ≡ has_more self.going }
    {
        matches!(self.going, Going::More)
    }

    // Whether something failed.
    #[tactic(auto, unfolding(crate::specs::Turns::has_failed))]
    fn has_failed(self) -> bool
        ensures { result ≡ has_failed self.going }
    {
        matches!(self.going, Going::Failed)
    }
}

// One turn: where its lines end, and the course after it.
#[derive(Clone, Copy)]
struct Turn {
    end: usize,
    course: Course,
}

// The course before anything is read.
fn begin() -> Course
    ensures { result ≡ beginning }
{
    Course {
        tally: Tally::none(),
        going: Going::More,
        read: nothing_read(),
        handed: nothing_handed(),
    }
}

// What fails ends the course.
fn failed(before: Course) -> Course
    ensures { result ≡ failed_after before }
{
    Course {
        going: Going::Failed,
        ..before
    }
}

// Where no turn is left and there is more to read, there are more sets than numbers.
fn over(err: &impl Print, before: Course) -> Course
    ensures { result ≡ over_after before }
{
    if before.has_more() {
        tell(err, b"clocks", b": more sets than there are numbers");
        return failed(before);
    }
    before
}

// The next buffer of the input: whole sets, but for the last. What goes wrong is told.
fn read_some<I: Read>(
    from: &mut I,
    err: &impl Print,
    before: Filled,
    input: &mut [u8; 6144],
) -> Filled
    ensures prefix_len { IsPrefixLen result.count input.new }
    ensures count_bound { result.count ≤ 6144 }
    ensures all_value { result.all ≡ counted before.all result.count }
{
    fill(from, err, b"clocks", before, input)
}

// How a course goes on behind so many bytes: fewer than a buffer has are the last.
#[tactic(auto, unfolding(crate::specs::Turns::going_behind))]
fn going_behind(size: usize) -> Going
    ensures { result ≡ going_behind size }
{
    if size == 6144 {
        Going::More
    } else {
        Going::Ended
    }
}

// One turn, a function of the bytes that were read: their sets are counted, and their lines stand from the start of a buffer on.
fn count_some(before: Course, input: &[u8], lines: &mut [u8; 30720]) -> Turn
    requires input_len_bound { length input.now ≤ 6144 }
    requires countable { Countable before.tally 2048 }
    ensures { Turned before input.now lines.old lines.new result }
{
    let Ok(part) = report_part(before.tally, input, lines) else {
        unreachable!()
    };
    Turn {
        end: part.end,
        course: Course {
            tally: part.tally,
            going: going_behind(input.len()),
            ..before
        },
    }
}

// The whole of the input. A proved loop has to end, so this one has as many turns as there are numbers.
fn count_input(rt: &(impl Input + Print), err: &impl Print) -> Course
    ensures { Came result }
{
    let mut from = rt.reader();
    let mut input = [0u8; 6144];
    let mut lines = [0u8; 30720];
    let mut course = begin();
    for _ in 0..TURNS {
        if !course.has_more() {
            break;
        }
        course.read = read_some(&mut from, err, course.read, &mut input);
        if course.read.has_failed() {
            return failed(course);
        }
        let turn = count_some(course, &input[..course.read.count], &mut lines);
        course = turn.course;
        course.handed = write_out(rt, err, b"clocks", course.handed, &lines[..turn.end]);
        if course.handed.has_failed() {
            return failed(course);
        }
    }
    over(err, course)
}

// The summary of what was counted, from the start of a buffer on, and where it ends.
fn summary_end(tally: Tally, lines: &mut [u8]) -> usize
    requires { summary_most ≤ length lines.old }
    ensures prefix_len { IsPrefixLen result lines.new }
    ensures value { result ≡ length (summary tally) }
    ensures lines_after { lines.new ≡ summary tally ++ drop result lines.old }
{
    summary_lines(lines, 0, tally).end
}

// Counts the sets on standard input, prints a line for each on standard output, and then the summary.
pub fn count_clocks(rt: &(impl Input + Print), err: &impl Print) {
    let course = count_input(rt, err);
    if course.has_failed() {
        return;
    }
    let mut lines = [0u8; 131];
    let end = summary_end(course.tally, &mut lines);
    write_out(rt, err, b"clocks", course.handed, &lines[..end]);
}
