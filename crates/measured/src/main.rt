// For bench/run: runs the trace on standard input from power-on and prints nothing of it; then does one thing some hundred times with
// the file that it ends in. Words: `run`, or `flat`, the run by the plain engine; or `read`, `write` (the timing), `plan` or `restore` (from
// power-on) and a digit for the hundreds. The number that it prints hangs on all that it did.
#![tactic(auto)]

use engines::{Engine, run_by};
use file::{Chip, File};
use program_input::read_full;
use std::io;
use std::io::Read;
use std::rt::Env;
use timing::{Timing, read_timing, write_timing};

// A sum that hangs on the order.
fn mix(sum: u64, more: u64) -> u64 {
    (sum % 0x1_0000_0000) * 31 + more % 0x1_0000_0000
}

// How far a run has come: the file, the sum of a reply byte of each buffer, and whether there is more to read. File and sum count either way, so this is no
// Option.
#[derive(Clone, Copy)]
struct Course {
    file: File,
    sum: u64,
    more: bool,
}

fn run_some<I: Read>(
    from: &mut I,
    engine: Engine,
    before: Course,
    trace: &mut [u8; 8192],
    replies: &mut [u8; 8192],
) -> io::Result<Course> {
    let size = read_full(from, trace)?;
    let trace: &[u8] = trace;
    let ran = run_by(engine, before.file, &trace[..size], replies);
    let at = (before.sum % 8192) as usize;
    let file = ran.file;
    Ok(Course {
        file,
        sum: mix(before.sum, u64::from(replies[at])),
        more: size == 8192,
    })
}

// A proved loop has to end, so this one has as many turns as no run uses up.
fn run_input(rt: &impl Input, engine: Engine) -> io::Result<Course> {
    let mut from = rt.reader();
    let mut trace = [0u8; 8192];
    let mut replies = [0u8; 8192];
    let mut course = Course {
        file: File::power_on(Chip::Gd5464),
        sum: 0,
        more: true,
    };
    for _ in 0..u64::MAX {
        course = run_some(&mut from, engine, course, &mut trace, &mut replies)?;
        if !course.more {
            break;
        }
    }
    Ok(course)
}

// What the first word asks for.
#[derive(Clone, Copy)]
enum Act {
    Read,
    Flat,
    Write,
    Plan,
    Restore,
}

// The timing read, a plan made, or the file restored.
fn look(act: Act, file: File, buffer: &mut [u8; 8192]) -> u64 {
    match act {
        Act::Plan => plan::plan(file, buffer).map_or(0, |count| count as u64),
        Act::Restore => {
            let restored = restoring::restore(File::power_on(Chip::Gd5464), file, buffer);
            restored.count.map_or(0, |count| count as u64)
        }
        _ => u64::from(read_timing(file).timing.screen_start),
    }
}

fn look_many(act: Act, file: File, times: u64) -> u64 {
    let mut buffer = [0u8; 8192];
    let mut sum = 0;
    for _ in 0..times {
        sum = mix(sum, look(act, file, &mut buffer));
    }
    let at = (sum % 8192) as usize;
    mix(sum, u64::from(buffer[at]))
}

fn write_many(file: File, timing: Timing, times: u64) -> u64 {
    let mut current = file;
    let mut sum = 0;
    for _ in 0..times {
        let written = write_timing(current, timing);
        current = written.file;
        sum = mix(sum, u64::from(written.answer.code()));
    }
    sum
}

// The first byte of a word that the program was started with; the third of `restore`, which begins as `read` does.
fn letter(rt: &impl Env, place: usize) -> u8 {
    let mut word = [0u8; 16];
    let _ = rt.arg(place, &mut word);
    if word[2] == b's' { word[2] } else { word[0] }
}

// What the letter of a word stands for; `run` reads too.
fn act_of(letter: u8) -> Act {
    match letter {
        b'f' => Act::Flat,
        b'w' => Act::Write,
        b'p' => Act::Plan,
        b's' => Act::Restore,
        _ => Act::Read,
    }
}

fn engine_for(act: Act) -> Engine {
    match act {
        Act::Flat => Engine::Plain,
        _ => Engine::Quick,
    }
}

fn main(rt: HostRuntime) -> io::Result<()> {
    let act = act_of(letter(&rt, 1));
    let course = run_input(&rt, engine_for(act))?;
    let file = course.file;
    let times = u64::from(letter(&rt, 2)) % 16 * 100;
    let done = match act {
        Act::Write => write_many(file, read_timing(file).timing, times),
        _ => look_many(act, file, times),
    };
    rt.println(mix(course.sum, done))
}
