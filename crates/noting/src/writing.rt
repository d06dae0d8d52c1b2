// One access, a timing write and a modeline that keep the set.
ghost use Rattle.std.specs.Prelude.{◌≡◌};
ghost use Rattle.touched.specs.Noted.{noted_all};
ghost use Rattle.noting.specs.Noting.{access_noting, timing_reaches, timing_noting, LineNotedKept};

use crate::kept::Noted;
use access::{Accessed, Record};
use file::{CR1A, CR1B, File, MISC, Reach};
use mode_file::{ReadLine, read_into};
use timing::{Timing, Written, is_wide, write_timing};
use touched::Touched;

// One access as without the set, and the set with what it reached.
pub fn access_noting(asked: Record, whole: File, touched: Touched) -> Noted<Accessed>
    ensures { result ≡ access_noting touched whole asked }
{
    let reach = asked.reach(whole).unwrap_or(Reach::none());
    let done = asked.access(whole);
    Noted {
        done,
        touched: touched.note(reach),
    }
}

// The registers of 01's table of timing numbers but CR1A: CR0 to CR7, CR9, CRC, CRD, CR10 to CR13, CR15, CR16, CR18, CR1B, CR1D and CR1E.
const TIMED: [usize; 21] = [
    0x19, 0x1A, 0x1B, 0x1C, 0x1D, 0x1E, 0x1F, 0x20, 0x22, 0x25, 0x26, 0x29, 0x2A, 0x2B, 0x2C, 0x2E,
    0x2F, 0x31, 0x34, 0x35, 0x36,
];

// The set with the registers of 01's table of timing numbers: CR1A is one of them in a wide file.
fn with_timing(touched: Touched, wide: bool) -> Touched
    ensures { result ≡ noted_all (timing_reaches wide) touched }
{
    let mut registers = touched.registers;
    for number in TIMED {
        registers[number] = true;
    }
    if wide {
        registers[CR1A] = true;
    }
    Touched {
        registers,
        ..touched
    }
}

// A timing write as without the set, and the set with the table's registers unless it is refused.
pub fn timing_noting(whole: File, timing: Timing, touched: Touched) -> Noted<Written>
    ensures { result ≡ timing_noting touched whole timing }
{
    let done = write_timing(whole, timing);
    let answer = done.answer;
    if 2 <= answer.code() {
        return Noted { done, touched };
    }
    let wide = is_wide(whole.registers[CR1B]);
    Noted {
        done,
        touched: with_timing(touched, wide),
    }
}

// A modeline as without the set, and the set with MISC and the table's registers if the line is read.
pub fn line_noting(line: &[u8], whole: File, touched: Touched) -> Noted<ReadLine>
    ensures { LineNotedKept touched line.now whole result }
{
    let done = read_into(line, whole);
    if done.said.is_err() {
        return Noted { done, touched };
    }
    let wide = is_wide(whole.registers[CR1B]);
    let mut flagged = touched;
    flagged.registers[MISC] = true;
    Noted {
        done,
        touched: with_timing(flagged, wide),
    }
}
