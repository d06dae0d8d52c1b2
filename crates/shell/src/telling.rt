// Standard output, and what goes wrong on standard error: a program has no exit status.
ghost use Rattle.std.specs.Prelude.{◌≡◌, false, length};
ghost use Rattle.shell.specs.Parts.{counted};

use choosing::{Choice, Chosen, choose};
use std::io;
use std::num::wrapping_add_u64;
use std::rt::Env;

// A failed call: the program's name, what failed, and why. What standard error doesn't take is lost.
pub fn tell_failure(err: &impl Print, program: &[u8], what: &[u8], why: io::Error) {
    let _ = err.write_all(program);
    let _ = err.write_all(what);
    let _ = err.write_all(b": ");
    let _ = err.println(why);
}

// Anything else, as a line.
pub fn tell(err: &impl Print, program: &[u8], what: &[u8]) {
    let _ = err.write_all(program);
    let _ = err.write_all(what);
    let _ = err.write_all(b"\n");
}

// How many bytes were handed to be written in all, as far as 64 bits count, and whether writing the last of them failed: the count is true of a write
// that failed too, so it is no Result. It is made here alone: no other module can say that bytes were handed on or that a write failed.
#[derive(Clone, Copy)]
pub struct Handed {
    all: u64,
    failed: bool,
}

// Nothing yet.
pub fn nothing_handed() -> Handed
    ensures { result ≡ record { all = 0; failed = false } }
{
    Handed {
        all: 0,
        failed: false,
    }
}

// Writes bytes behind those before, and tells it if that fails.
pub fn write_out(
    rt: &impl Print,
    err: &impl Print,
    program: &[u8],
    before: Handed,
    bytes: &[u8],
) -> Handed
    ensures { result.all ≡ counted before.all (length bytes.now) }
{
    let all = wrapping_add_u64(before.all, bytes.len() as u64);
    match rt.write_all(bytes) {
        Ok(()) => Handed { all, failed: false },
        Err(why) => {
            tell_failure(err, program, b": standard output", why);
            Handed { all, failed: true }
        }
    }
}

impl Handed {
    // Whether the last write failed.
    pub fn has_failed(self) -> bool
        ensures { result ≡ self.failed }
    {
        self.failed
    }
}

// What was chosen; where the words name none, that is told.
pub fn tell_choice(err: &impl Print, program: &[u8], choice: Choice) -> Option<Chosen>
    ensures { result ≡ choice.chosen }
{
    let chosen = choice.chosen;
    if chosen.is_none() {
        tell(
            err,
            program,
            b": unknown option or name: --chip is 5462 or 5464, --engine is quick or plain",
        );
    }
    chosen
}

// The chip and the engine that a program is started for, by its words without so many behind its own name.
pub fn choose_course(
    rt: &impl Env,
    err: &impl Print,
    program: &[u8],
    skipped: usize,
) -> Option<Chosen> {
    tell_choice(err, program, choose(rt, skipped))
}
