// A trace on standard input, told record by record from power-on, or summed, in fixed memory.
ghost use Rattle.std.specs.Prelude.{◌++◌, ◌≡◌, ◌+◌, ◌^◌, ◌≤◌, ◌<◌, length, drop};
ghost use Rattle.io.specs.Counts.{IsPrefixLen};
ghost use Rattle.shell.specs.Parts.{counted};
ghost use Rattle.explaining.specs.Explained.{record_most};
ghost use Rattle.summing.specs.Closing.{summary_most, summary_text};
ghost use Rattle.summing.specs.Told.{record_told};
ghost use Rattle.explain.specs.Turns.{Came, Closed, Finished, Turned, beginning, failed_after, going_behind, has_failed, has_more, over_after};

use access::Item;
use explaining::record_lines;
use file::{Chip, File};
use shell::{Filled, Handed, fill, nothing_handed, nothing_read, tell, write_out};
use std::io::Read;
use summing::{Summary, record_summed, summary_lines, together_lines};
use trace::item_of;

// How a course goes on: there is more to read, the trace has ended, or something failed.
#[derive(Clone, Copy)]
pub enum Going {
    More,
    Ended,
    Failed,
}

// How far a run has come: how many records there were, how it goes on, what was read and what was handed to be written, the file after the
// records, and their summary, where they are summed. No `Option<Summary>` in place of `sums`: each step would ask it as it asks the bool.
#[derive(Clone, Copy)]
pub struct Course {
    pub number: u64,
    pub going: Going,
    pub read: Filled,
    pub handed: Handed,
    pub file: File,
    pub summary: Summary,
}

impl Course {
    // Whether there is more to read.
    #[tactic(auto, unfolding(crate::specs::Turns::has_more))]
    fn has_more(self) -> bool
        ensures { result ≡ has_more self.going }
    {
        matches!(self.going, Going::More)
    }

    // Whether something failed.
    #[tactic(auto, unfolding(crate::specs::Turns::has_failed))]
    pub fn has_failed(self) -> bool
        ensures { result ≡ has_failed self.going }
    {
        matches!(self.going, Going::Failed)
    }
}

// One turn: where its lines end, and the course after it.
#[derive(Clone, Copy)]
struct Turn {
    end: usize,
    course: Course,
}

// The course from a chip's power-on, before anything is read.
fn begin(chip: Chip) -> Course
    ensures { result ≡ beginning chip }
{
    let file = File::power_on(chip);
    Course {
        number: 0,
        going: Going::More,
        read: nothing_read(),
        handed: nothing_handed(),
        file,
        summary: summing::begin(file),
    }
}

// What fails ends the course.
fn failed(before: Course) -> Course
    ensures { result ≡ failed_after before }
{
    let mut course = before;
    course.going = Going::Failed;
    course
}

// Where no turn is left and there is more to read, there are more records than numbers.
fn over(err: &impl Print, before: Course) -> Course
    ensures { result ≡ over_after before }
{
    if before.has_more() {
        tell(err, b"explain", b": more records than there are numbers");
        return failed(before);
    }
    before
}

// The bytes of the next record; fewer where the trace ends. What goes wrong is told.
fn read_record<I: Read>(
    input: &mut I,
    err: &impl Print,
    before: Filled,
    bytes: &mut [u8; 8],
) -> Filled
    ensures prefix_len { IsPrefixLen result.count bytes.new }
    ensures count_bound { result.count ≤ 8 }
    ensures all_value { result.all ≡ counted before.all result.count }
{
    fill(input, err, b"explain", before, bytes)
}

// What is told of a record, from the start of a buffer on, and where it ends; `job_explain::put_told` stores behind what stands in a buffer already.
fn told_end(sums: bool, number: u64, file: File, item: Item, lines: &mut [u8]) -> usize
    requires { record_most ≤ length lines.old }
    ensures prefix_len { IsPrefixLen result lines.new }
    ensures value { result ≡ length (record_told sums number file item) }
    ensures lines_after { lines.new ≡ record_told sums number file item ++ drop result lines.old }
{
    if sums {
        return together_lines(lines, 0, number, file, item).end;
    }
    record_lines(lines, 0, number, file, item).end
}

// How a course goes on behind so many bytes: fewer than a record has are the last.
#[tactic(auto, unfolding(crate::specs::Turns::going_behind))]
fn going_behind(size: usize) -> Going
    ensures { result ≡ going_behind size }
{
    if size == 8 { Going::More } else { Going::Ended }
}

// One turn, a function of the bytes that were read: a record, its fragment, or none.
fn tell_some(sums: bool, before: Course, bytes: &[u8], lines: &mut [u8; 3360]) -> Turn
    requires bytes_len_bound { length bytes.now ≤ 8 }
    requires number_bound { before.number + 1 < 2 ^ 64 }
    ensures { Turned sums before bytes.now lines.old lines.new result }
{
    let mut course = before;
    course.going = going_behind(bytes.len());
    if bytes.len() == 0 {
        return Turn { end: 0, course };
    }
    let item = item_of(bytes);
    let end = told_end(sums, before.number, before.file, item, lines);
    let summary = record_summed(sums, before.summary, before.file, item);
    let accessed = item.access(before.file);
    let file = accessed.file;
    course.number = before.number + 1;
    course.file = file;
    course.summary = summary;
    Turn { end, course }
}

// The whole of a trace, on a chip. A proved loop has to end, so this one has as many turns as there are numbers.
fn tell_input(rt: &(impl Input + Print), err: &impl Print, chip: Chip, sums: bool) -> Course
    ensures { Came chip sums result }
{
    let mut input = rt.reader();
    let mut bytes = [0u8; 8];
    let mut lines = [0u8; 3360];
    let mut course = begin(chip);
    for _ in 0..u64::MAX {
        if !course.has_more() {
            return course;
        }
        let read = read_record(&mut input, err, course.read, &mut bytes);
        course.read = read;
        if read.has_failed() {
            return failed(course);
        }
        let size = read.count;
        let turn = tell_some(sums, course, &bytes[..size], &mut lines);
        let end = turn.end;
        course = turn.course;
        let handed = write_out(rt, err, b"explain", course.handed, &lines[..end]);
        course.handed = handed;
        if handed.has_failed() {
            return failed(course);
        }
    }
    over(err, course)
}

// The summary, from the start of a buffer on, and where it ends.
fn summary_end(summary: Summary, lines: &mut [u8]) -> usize
    requires { summary_most ≤ length lines.old }
    ensures prefix_len { IsPrefixLen result lines.new }
    ensures value { result ≡ length (summary_text summary) }
    ensures lines_after { lines.new ≡ summary_text summary ++ drop result lines.old }
{
    summary_lines(lines, 0, summary).end
}

// The end of a course: where records are summed and nothing failed, the summary is written.
fn close(rt: &impl Print, err: &impl Print, sums: bool, before: Course) -> Course
    ensures { Closed sums before result }
{
    if before.has_failed() {
        return before;
    }
    if !sums {
        return before;
    }
    let mut lines = [0u8; 23040];
    let end = summary_end(before.summary, &mut lines);
    let handed = write_out(rt, err, b"explain", before.handed, &lines[..end]);
    let mut course = before;
    course.handed = handed;
    if handed.has_failed() {
        return failed(course);
    }
    course
}

// Explains the trace on standard input, or sums it, from a chip's power-on on standard output.
pub fn explain(rt: &(impl Input + Print), err: &impl Print, chip: Chip, sums: bool) -> Course
    ensures { Finished chip sums result }
{
    close(rt, err, sums, tell_input(rt, err, chip, sums))
}
