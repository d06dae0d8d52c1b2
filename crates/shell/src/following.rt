// Since: goes on with a second trace from the file that a first one ends in, and writes the short plan back to that file.
ghost use Rattle.std.specs.Prelude.{◌≡◌, ◌≤◌, false, T, length};
ghost use Rattle.file.specs.Sound.{sound};
ghost use Rattle.touched.specs.Things.{nothing};
ghost use Rattle.shell.specs.SecondTrace.{Ended, Gone};

use crate::course::run_chosen;
use crate::reading::{Filled, nothing_read, read_second};
use crate::saving::tell_refusal;
use crate::telling::{Handed, tell_failure, write_out};
use choosing::read_arg;
use file::File;
use noting::run_noting;
use plan::short_plan;
use std::io::{ErrorKind, Read};
use std::rt::{Env, Files};
use std::{fs, io, str};
use touched::Touched;

// How far the second trace has come: whether there is more to read, what was read, the file after the records, and the set of what they touched. The rest
// counts whether or not there is more, so this is no Option.
#[derive(Clone, Copy)]
pub struct Onward {
    pub more: bool,
    pub read: Filled,
    pub file: File,
    pub touched: Touched,
}

impl Onward {
    // Whether the last read failed.
    fn has_failed(self) -> bool
        ensures { result ≡ self.read.failed }
    {
        self.read.has_failed()
    }
}

// Right behind the first trace: its file is saved, and the set is empty.
fn set_out(saved: File) -> Onward
    ensures { (result.file ≡ saved) × (result.touched ≡ nothing) × (result.read ≡ record { count = 0; failed = false; all = 0 }) }
{
    Onward {
        more: true,
        read: nothing_read(),
        file: saved,
        touched: Touched::nothing(),
    }
}

// A read that failed ends it.
fn stopped(before: Onward, read: Filled) -> Onward
    ensures { (result.more ≡ false) × (result.read ≡ read) }
{
    let mut onward = before;
    onward.more = false;
    onward.read = read;
    onward
}

// One turn, a function of the bytes that were read: they are run, and the set gets what they touch.
fn go_on(before: Onward, read: Filled, part: &[u8], replies: &mut [u8; 8192]) -> Onward
    requires t { T (sound before.file) }
    requires part_len_bound { length part.now ≤ 8192 }
    ensures { Gone before read part.now result }
{
    let ran = run_noting(before.file, before.touched, part, replies);
    let done = ran.done;
    let file = done.file;
    let touched = ran.touched;
    Onward {
        more: part.len() == 8192,
        read,
        file,
        touched,
    }
}

// The whole of it. A proved loop has to end, so this one counts its turns, up to a number that no run comes to.
fn follow<I: Read>(from: &mut I, err: &impl Print, saved: File) -> Onward
    requires { T (sound saved) }
    ensures { Ended saved result }
{
    let mut part = [0u8; 8192];
    let mut replies = [0u8; 8192];
    let mut onward = set_out(saved);
    for _turn in 0..u64::MAX {
        if !onward.more {
            return onward;
        }
        let read = read_second(from, err, onward.read, &mut part);
        if read.has_failed() {
            return stopped(onward, read);
        }
        let size = read.count;
        onward = go_on(onward, read, &part[..size], &mut replies);
    }
    onward
}

// Writes the short plan from the file that the second trace ends in back to the saved one, as bytes, on standard output.
fn write_back(rt: &impl Print, err: &impl Print, saved: File, onward: Onward, handed: Handed) {
    let mut buffer = [0u8; 8192];
    match short_plan(onward.file, saved, onward.touched, &mut buffer) {
        Ok(count) => {
            write_out(rt, err, b"snapshot", handed, &buffer[..8 * count]);
        }
        Err(answer) => tell_refusal(err, answer.code()),
    }
}

// The second trace, a file by its name: the word behind the program's own.
fn open_second<R: Env + Files>(rt: &R) -> io::Result<R::File> {
    let mut name = [0u8; 4096];
    let size = read_arg(rt, 1, &mut name);
    match str::from_utf8(&name[..size]) {
        Ok(path) => fs::open(rt, path),
        Err(_) => Err(io::Error::from(ErrorKind::InvalidFilename)),
    }
}

// Runs the trace on standard input from a chip's power-on, on the chip and by the engine that the program's words choose, saves the file that it ends in, goes on
// with the second trace, of which the set is kept and which the quick engine runs, and writes the short plan back.
pub fn since(rt: &(impl Env + Files + Input + Print), err: &impl Print) {
    let Some(course) = run_chosen(rt, err, b"snapshot", 1, false) else {
        return;
    };
    let mut from = match open_second(rt) {
        Ok(from) => from,
        Err(why) => {
            tell_failure(err, b"snapshot", b": the second trace", why);
            return;
        }
    };
    let onward = follow(&mut from, err, course.file);
    if onward.has_failed() {
        return;
    }
    write_back(rt, err, course.file, onward, course.handed);
}
