// The line of a file, from a name and a clock in words.
ghost use Rattle.std.specs.Prelude.{◌≡◌, IfOk};
ghost use Rattle.io.specs.Counts.{IsPrefixLen};
ghost use Rattle.mode_lines.specs.ClockLine.{ClockSaid, LineOf};

use crate::kept::keep;
use file::File;
use mode_file::Verdict;
use mode_text::write_from;
use modes::parse;

// The kHz of a clock in MHz, as a line with this name has it; 0 where name or clock is out of form.
fn clock_of(name: &[u8], mhz: &[u8]) -> u32
    ensures { ClockSaid name.now mhz.now result }
{
    let mut line = [0u8; 256];
    let at = keep(&mut line, 0, b"Modeline \"");
    let at = keep(&mut line, at, name);
    let at = keep(&mut line, at, b"\" ");
    let at = keep(&mut line, at, mhz);
    let at = keep(&mut line, at, b" 0 0 0 0 0 0 0 0");
    match parse(&line[..at]) {
        Ok(mode) => mode.khz,
        Err(_) => 0,
    }
}

// The line of a file's timing and flags, with this name and this clock, from the buffer's start on.
pub fn line_of(file: File, name: &[u8], mhz: &[u8], buffer: &mut [u8]) -> Result<usize, Verdict>
    ensures line_of { LineOf file name.now mhz.now buffer.old buffer.new result }
    ensures prefix_len { IfOk result (λ size. IsPrefixLen size buffer.new) }
{
    write_from(file, name, clock_of(name, mhz), buffer)
}
