// What is reported of a line.
ghost use Rattle.std.specs.Prelude.{[], ◌∷◌, ◌++◌, ◌≡◌, ◌+◌, ◌%◌, ◌≤◌};
ghost use Rattle.text.specs.Text.{capital as capitalOf, decimal, space, spaced};
ghost use Rattle.mode_lines.specs.Kept.{Kept};
ghost use Rattle.mode_lines.specs.Report.{Reported, front, hex_two, mode_text, report_line};

use crate::kept::keep;
use file::{Answer, File, MISC};
use mode_file::{ReadLine, read_into};
use text::Placed;
use timing::read_timing;

// The most bytes that are reported of a line.
const MOST: usize = 256;

// A number in decimal.
fn put_number(buffer: &mut [u8], at: usize, n: u64) -> usize
    ensures { Kept buffer.old at (decimal n) buffer.new result }
{
    let mut digits = [0u8; 20];
    let size = io::decimal(n, &mut digits);
    keep(buffer, at, &digits[..size])
}

// The same behind a space.
fn put_behind(buffer: &mut [u8], at: usize, n: u64) -> usize
    ensures { Kept buffer.old at (space ++ decimal n) buffer.new result }
{
    let at = keep(buffer, at, b" ");
    put_number(buffer, at, n)
}

// A hex digit.
fn capital(d: u16) -> u8
    ensures { result ≡ capitalOf (d % 16) }
{
    let d = d % 16;
    if d < 10 { 48 + d as u8 } else { 55 + d as u8 }
}

// A space and two hex digits.
fn put_hex(buffer: &mut [u8], at: usize, n: u16) -> usize
    ensures { Kept buffer.old at (space ++ hex_two n) buffer.new result }
{
    let text = [b' ', capital(n / 16), capital(n)];
    keep(buffer, at, &text)
}

// Numbers, each behind a space.
fn put_each(buffer: &mut [u8], at: usize, numbers: &[u32]) -> usize
    ensures { Kept buffer.old at (spaced [] numbers.now) buffer.new result }
{
    let mut at = keep(buffer, at, b"");
    for n in numbers {
        at = put_behind(buffer, at, u64::from(*n));
    }
    at
}

// The kHz, MISC and the fifteen timing numbers.
fn put_mode(buffer: &mut [u8], at: usize, khz: u32, file: File) -> usize
    ensures { Kept buffer.old at (mode_text khz file) buffer.new result }
{
    let misc = file.registers[MISC];
    let numbers = read_timing(file).timing.numbers();
    let at = put_behind(buffer, at, u64::from(khz));
    let at = put_hex(buffer, at, misc);
    put_each(buffer, at, &numbers)
}

// The line's number, the code and the position.
fn put_front(buffer: &mut [u8], at: usize, number: u64, code: u8, position: usize) -> usize
    ensures { Kept buffer.old at (front number code position) buffer.new result }
{
    let at = put_number(buffer, at, number);
    let at = put_behind(buffer, at, u64::from(code));
    put_behind(buffer, at, position as u64)
}

// These, and of a line that was read what it left.
fn put_report(buffer: &mut [u8], at: usize, number: u64, read: ReadLine) -> usize
    ensures { Kept buffer.old at (report_line number read) buffer.new result }
{
    match read.said {
        Ok(said) => {
            let at = put_front(buffer, at, number, 0, 0);
            let at = put_mode(buffer, at, said.khz, read.file);
            keep(buffer, at, b"\n")
        }
        Err(verdict) => {
            let at = put_front(buffer, at, number, verdict.code(), verdict.position());
            keep(buffer, at, b"\n")
        }
    }
}

// A line, read into a file, and what is reported of it, from a place of the buffer on; code 11 where fewer than 256 bytes are left there.
pub fn report(buffer: &mut [u8], at: usize, number: u64, file: File, line: &[u8]) -> Placed
    ensures reported { Reported line.now file number at buffer.old buffer.new result }
    ensures end_bound { result.end ≤ at + 256 }
{
    let read = read_into(line, file);
    if buffer.len().saturating_sub(at) < MOST {
        return Placed {
            answer: Answer::ShortBuffer,
            end: at,
        };
    }
    Placed {
        answer: Answer::Done(0),
        end: put_report(buffer, at, number, read),
    }
}
