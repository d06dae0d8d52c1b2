// Notebook: the timing of the portable sibling, of CR00h to CR1Bh on standard input. Without a word it prints the code and the fourteen numbers; behind a
// list of fourteen numbers it writes the bytes with these in them, or tells the code.
#![tactic(auto)]

ghost use Rattle.std.specs.Prelude.{◌++◌, ◌≡◌, ◌≤◌, length, drop};
ghost use Rattle.io.specs.Counts.{IsPrefixLen};
ghost use Rattle.portable_text.specs.Line.{line_most, line_of};

use file::Answer;
use portable_text::{LINE_MOST, NotWritten, timing_line, write_list};
use program_input::{read_arg, read_full};
use std::env::FillError;
use std::io;
use std::rt::Env;

// What goes wrong, as a line: a program has no exit status. Crate shell has `tell`, `tell_failure` and `write_out` too, for programs that run a trace and take
// the program's name: this one runs none and doesn't stand on it.
fn tell(err: &impl Print, what: &[u8]) {
    let _ = err.write_all(b"portable: ");
    let _ = err.write_all(what);
    let _ = err.write_all(b"\n");
}

// A failed call, and why.
fn tell_failure(err: &impl Print, what: &[u8], why: io::Error) {
    let _ = err.write_all(what);
    let _ = err.write_all(b": ");
    let _ = err.println(why);
}

// A refusal in words, with its code. The line of job_portable begins in another way and goes into a buffer, with a promise of each byte; what is left in common
// is three phrases, and handing these over would be no plainer.
fn tell_refusal(err: &impl Print, answer: Answer) {
    let _ = err.write_all(b"portable: nothing is written, code ");
    let _ = err.print(answer.code());
    let _ = match answer {
        Answer::Locked => err.write_all(b": CR11[7] locks the bytes"),
        Answer::OutOfRange => err.write_all(b": a number is out of its range"),
        Answer::NotSound => err.write_all(b": there aren't 28 bytes"),
        _ => Ok(()),
    };
    let _ = err.write_all(b"\n");
}

fn write_out(rt: &impl Print, err: &impl Print, bytes: &[u8]) {
    if let Err(why) = rt.write_all(bytes) {
        tell_failure(err, b"portable: standard output", why);
    }
}

// Whether there is a word behind the program's name: one word is asked, however many there are.
fn has_word(rt: &impl Env) -> bool {
    let mut word = [0u8; 8];
    !matches!(rt.arg(1, &mut word), Err(FillError::NotPresent))
}

// The line of some bytes, from the start of a buffer on, and where it ends.
fn line_end(bytes: &[u8], line: &mut [u8]) -> usize
    requires { line_most ≤ length line.old }
    ensures prefix_len { IsPrefixLen result line.new }
    ensures value { result ≡ length (line_of bytes.now) }
    ensures line_after { line.new ≡ line_of bytes.now ++ drop result line.old }
{
    timing_line(line, 0, bytes).end
}

fn print_line(rt: &impl Print, err: &impl Print, bytes: &[u8]) {
    let mut line = [0u8; LINE_MOST];
    let end = line_end(bytes, &mut line);
    write_out(rt, err, &line[..end]);
}

// The bytes with the numbers of the first word in them. A word that is missing, or has more bytes than these, is no list.
fn write_numbers(rt: &(impl Env + Print), err: &impl Print, bytes: &mut [u8]) {
    let mut text = [0u8; 256];
    let size = read_arg(rt, 1, &mut text);
    match write_list(bytes, &text[..size]) {
        Ok(()) => write_out(rt, err, bytes),
        Err(NotWritten::NoList(_)) => tell(
            err,
            b"no fourteen decimal numbers with one space between",
        ),
        Err(NotWritten::Refused(answer)) => tell_refusal(err, answer),
    }
}

// One byte more than 28 is enough to tell another length.
fn run(rt: &(impl Env + Input + Print), err: &impl Print) {
    let mut from = rt.reader();
    let mut bytes = [0u8; 29];
    let count = match read_full(&mut from, &mut bytes) {
        Ok(count) => count,
        Err(why) => {
            tell_failure(err, b"portable: standard input", why);
            return;
        }
    };
    if has_word(rt) {
        write_numbers(rt, err, &mut bytes[..count]);
    } else {
        print_line(rt, err, &bytes[..count]);
    }
}

fn main(rt: HostRuntime) {
    run(&rt, &rt.stderr());
}
