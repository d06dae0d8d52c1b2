// What a program is given: the words that it was started with, and its input, read until a buffer is full.
#![tactic(auto)]

ghost use Rattle.std.specs.Prelude.{◌<◌, IfOk, length, take};
ghost use Rattle.std.specs.Io.KnownBytes.{Consumes, IsAtEnd};
ghost use Rattle.io.specs.Counts.{IsPrefixLen};

use std::env::FillError;
use std::io;
use std::io::Read;
use std::rt::Env;

// Puts the word of this number at the start of a buffer and gives its length; one that is missing, or longer than the buffer, counts as an empty one.
pub fn read_arg(rt: &impl Env, number: usize, buffer: &mut [u8]) -> usize
    ensures { IsPrefixLen result buffer.new }
{
    rt.arg(number, buffer).unwrap_or(0)
}

// How many words there are, the program's own name among them. Which words the system hands over no contract says.
pub fn count_args(rt: &impl Env) -> usize {
    let mut word = [0u8; 8];
    for number in 0..usize::MAX {
        if let Err(FillError::NotPresent) = rt.arg(number, &mut word) {
            return number;
        }
    }
    usize::MAX
}

// Reads until the buffer is full or the input ends, and gives how many bytes it put at the start of the buffer.
pub fn read_full<I: Read>(from: &mut I, buffer: &mut [u8]) -> io::Result<usize>
    ensures count { IfOk result (λ n. IsPrefixLen n buffer.new) }
    ensures bytes { IfOk result (λ n. Consumes (I.remaining from.old) (I.remaining from.new) (take n buffer.new)) }
    ensures end { IfOk result (λ n. n < length buffer.new → IsAtEnd (I.remaining from.new)) }
{
    let mut at = 0;
    while at < buffer.len() {
        match from.read(&mut buffer[at..])? {
            0 => break,
            count => at += count,
        }
    }
    Ok(at)
}
