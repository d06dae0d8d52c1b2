// A line from its start to its end: the word, the name, the clock, the numbers, the flags.
ghost use Rattle.std.specs.Prelude.{[], ◌≡◌, ◌<◌, ◌≤◌, drop, length};
ghost use Rattle.modes.specs.Promises.{Told};
ghost use Rattle.modes.specs.Scan.{read_behind, read_clock, read_name, read_numbers, shift};

use crate::flags::flags;
use crate::mode::Mode;
use crate::number::{kilohertz, numeral};
use crate::place::{is_at, name_length, word};

// What a line says, or the place of the first byte that no good line has there.
pub fn parse(line: &[u8]) -> Result<Mode, usize>
    ensures { Told line.now result }
{
    let at = word(line, 0, b"Modeline \"")?;
    named(line, at)
}

// Behind the first quote.
fn named(line: &[u8], at: usize) -> Result<Mode, usize>
    requires { at ≤ length line.now }
    ensures { result ≡ shift at (read_name (drop at line.now)) }
{
    let count = name_length(&line[at..]);
    if count == 0 {
        return Err(at);
    }
    let at = word(line, at + count, b"\" ")?;
    clocked(line, at, count)
}

// At the clock.
fn clocked(line: &[u8], at: usize, name: usize) -> Result<Mode, usize>
    requires { at ≤ length line.now }
    ensures { result ≡ shift at (read_clock name (drop at line.now)) }
{
    let whole = numeral(line, at, 3)?;
    behind_whole(line, whole.end, name, whole.value)
}

// Behind the whole MHz: a point, or a space where there are some.
fn behind_whole(line: &[u8], at: usize, name: usize, whole: u32) -> Result<Mode, usize>
    requires at_in_bounds { at ≤ length line.now }
    requires whole_bound { whole < 1000 }
    ensures { result ≡ shift at (read_behind name whole (drop at line.now)) }
{
    if is_at(line, at, b'.') {
        let clock = kilohertz(line, at + 1, whole)?;
        return numbered(line, clock.end, name, clock.value);
    }
    if whole == 0 {
        return Err(at);
    }
    numbered(line, at, name, whole * 1000)
}

// Behind the clock.
fn numbered(line: &[u8], at: usize, name: usize, khz: u32) -> Result<Mode, usize>
    requires { at ≤ length line.now }
    ensures { result ≡ shift at (read_numbers 8 name khz [] (drop at line.now)) }
{
    let mut numbers = [0; 8];
    let mut end = at;
    // By number: of places that are lent one by one a proof learns how many they are, and not what they hold.
    for count in 0..8 {
        let digits = word(line, end, b" ")?;
        let read = numeral(line, digits, 5)?;
        end = read.end;
        numbers[count] = read.value;
    }
    let mode = Mode {
        name,
        khz,
        numbers,
        h_minus: true,
        v_minus: true,
    };
    flags(line, end, mode)
}
