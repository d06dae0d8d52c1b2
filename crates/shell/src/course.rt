// A trace on standard input, run from power-on, in fixed memory.
ghost use Rattle.std.specs.Prelude.{◌≡◌, ◌+◌, ◌*◌, ◌^◌, ◌<◌, ◌≤◌, true, T, length};
ghost use Rattle.std.specs.Option.{IfSome};
ghost use Rattle.file.specs.Sound.{sound};
ghost use Rattle.shell.specs.Parts.{Came, Finished, Turned, beginning, failed_after, has_failed};

use crate::reading::{Filled, nothing_read, read_some};
use crate::telling::{Handed, choose_course, nothing_handed, write_out};
use choosing::Chosen;
use engines::Engine;
use file::{Chip, File};
use replaying::run_part;
use std::rt::Env;

// How far a run has come: how many records there were, whether there is more to read, what was read and what was handed to be written, and the file after
// the records. `more` stays beside them, since the course that a trace leads to, `course_of`, has it.
#[derive(Clone, Copy)]
pub struct Course {
    pub number: u64,
    pub more: bool,
    pub read: Filled,
    pub handed: Handed,
    pub file: File,
}

// One turn: where its lines end, and the course after it.
#[derive(Clone, Copy)]
struct Turn {
    end: usize,
    course: Course,
}

impl Course {
    // Whether the last read or the last write failed.
    #[tactic(auto, unfolding(crate::specs::Parts::has_failed))]
    pub fn has_failed(self) -> bool
        ensures { result ≡ has_failed self }
    {
        self.read.has_failed() || self.handed.has_failed()
    }
}

// The course from a chip's power-on, before anything is read.
fn begin(chip: Chip) -> Course
    ensures { result ≡ beginning chip }
{
    Course {
        number: 0,
        more: true,
        read: nothing_read(),
        handed: nothing_handed(),
        file: File::power_on(chip),
    }
}

// What fails ends the course.
fn failed(before: Course) -> Course
    ensures { result ≡ failed_after before }
{
    let mut course = before;
    course.more = false;
    course
}

// One turn, a function of the bytes that were read: they are run, and their lines, if they are asked for, stand from the start of a
// buffer on.
fn run_some(
    engine: Engine,
    prints: bool,
    before: Course,
    trace: &[u8],
    replies: &mut [u8; 8192],
    lines: &mut [u8; 32768],
) -> Turn
    requires t { T (sound before.file) }
    requires trace_len_bound { length trace.now ≤ 8192 }
    requires number_bound { before.number + 1024 < 2 ^ 64 }
    ensures { Turned before prints trace.now replies.old replies.new lines.old lines.new result }
{
    let number = before.number;
    let part = run_part(engine, prints, before.file, number, trace, replies, lines);
    let number = number + part.count as u64;
    let read = before.read;
    let handed = before.handed;
    let file = part.file;
    Turn {
        end: part.end,
        course: Course {
            number,
            more: trace.len() == 8192,
            read,
            handed,
            file,
        },
    }
}

// The whole of a trace, on a chip, by either engine. A proved loop has to end, so this one counts its turns, up to a number that no run comes to.
pub fn run_input(
    rt: &(impl Input + Print),
    err: &impl Print,
    program: &[u8],
    chosen: Chosen,
    prints: bool,
) -> Course
    ensures { Came chosen.chip prints result }
{
    let mut input = rt.reader();
    let mut trace = [0u8; 8192];
    let mut replies = [0u8; 8192];
    let mut lines = [0u8; 32768];
    let mut course = begin(chosen.chip);
    for _turn in 0..u64::MAX {
        if !course.more {
            return course;
        }
        course.read = read_some(
            &mut input,
            err,
            program,
            course.number,
            course.read,
            &mut trace,
        );
        if course.read.has_failed() {
            return failed(course);
        }
        let size = course.read.count;
        let turn = run_some(
            chosen.engine,
            prints,
            course,
            &trace[..size],
            &mut replies,
            &mut lines,
        );
        let end = turn.end;
        course = turn.course;
        course.handed = write_out(rt, err, program, course.handed, &lines[..end]);
        if course.handed.has_failed() {
            return failed(course);
        }
    }
    course
}

// The whole of a trace on the chip and by the engine that the program's words choose, without so many behind its own name; nothing where they choose none or
// where something failed, which is told.
pub fn run_chosen(
    rt: &(impl Env + Input + Print),
    err: &impl Print,
    program: &[u8],
    skipped: usize,
    prints: bool,
) -> Option<Course>
    ensures { IfSome result (λ course. Finished prints course) }
{
    let chosen = choose_course(rt, err, program, skipped)?;
    let course = run_input(rt, err, program, chosen, prints);
    if course.has_failed() {
        return None;
    }
    Some(course)
}
