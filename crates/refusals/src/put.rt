// Texts stored into a buffer that has room for them.
ghost use Rattle.std.specs.Prelude.{true, ◌+◌, ◌≤◌, drop, length};
ghost use Rattle.text.specs.Lent.{Wrote};
ghost use Rattle.refusals.specs.Said.{code_told, codes_text, head_text, start_text, times_text};

use crate::codes::CODES;
use text::{put, put_behind};

// Stores what the line says before its codes: how many of how many records were refused.
pub fn put_head(sum: u64, number: u64, buffer: &mut [u8], at: usize) -> usize
    requires { at + length (head_text sum number) ≤ length buffer.old }
    ensures { Wrote buffer.old at (head_text sum number) buffer.new result }
{
    let at = put_behind(b"sedgecoil: ", sum, buffer, at);
    let at = put_behind(b" of ", number, buffer, at);
    put(b" records refused", buffer, at)
}

// Stores a code: after a colon where it is the first of the line, after a comma where it isn't.
fn put_start(first: bool, code: u64, buffer: &mut [u8], at: usize) -> usize
    requires { at + length (start_text first code) ≤ length buffer.old }
    ensures { Wrote buffer.old at (start_text first code) buffer.new result }
{
    if first {
        return put_behind(b": code ", code, buffer, at);
    }
    put_behind(b", code ", code, buffer, at)
}

// Stores how often a code came: `1 time`, `2 times`.
fn put_times(times: u64, buffer: &mut [u8], at: usize) -> usize
    requires { at + length (times_text times) ≤ length buffer.old }
    ensures { Wrote buffer.old at (times_text times) buffer.new result }
{
    let at = put_behind(b" ", times, buffer, at);
    if times == 1 {
        return put(b" time", buffer, at);
    }
    put(b" times", buffer, at)
}

// Stores a code and how often it came; nothing where it never came.
fn put_code(first: bool, code: u64, times: u64, buffer: &mut [u8], at: usize) -> usize
    requires { at + length (code_told first code times) ≤ length buffer.old }
    ensures { Wrote buffer.old at (code_told first code times) buffer.new result }
{
    if times == 0 {
        return at;
    }
    let at = put_start(first, code, buffer, at);
    put_times(times, buffer, at)
}

// Stores each code from 2 up that has a count in `counts`, in order, with its count.
pub fn put_codes(counts: &[u64; CODES], buffer: &mut [u8], at: usize) -> usize
    requires { at + length (codes_text true 2 (drop 2 counts.now)) ≤ length buffer.old }
    ensures { Wrote buffer.old at (codes_text true 2 (drop 2 counts.now)) buffer.new result }
{
    let mut at = at;
    let mut first = true;
    for (i, times) in counts[2..].iter().enumerate() {
        at = put_code(first, i as u64 + 2, *times, buffer, at);
        first &= *times == 0;
    }
    at
}
