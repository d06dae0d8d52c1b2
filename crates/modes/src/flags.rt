// The flags at the end of a line.
ghost use Rattle.std.specs.Prelude.{◌≡◌, ◌≤◌, drop, length};
ghost use Rattle.modes.specs.Scan.{read_flags, read_other, shift};

use crate::mode::{Axis, Mode};
use crate::place::{axis, sign, word};

// No flag, one, or two.
pub fn flags(line: &[u8], at: usize, mode: Mode) -> Result<Mode, usize>
    requires { at ≤ length line.now }
    ensures { result ≡ shift at (read_flags mode (drop at line.now)) }
{
    if line.len() <= at {
        return Ok(mode);
    }
    let at = word(line, at, b" ")?;
    let minus = sign(line, at)?;
    let at = at + 1;
    let first = axis(line, at)?;
    let at = word(line, at + 1, b"sync")?;
    other(line, at, mode.flagged(first, minus), first.other())
}

// A flag of this axis and no more, or none.
fn other(line: &[u8], at: usize, mode: Mode, axis: Axis) -> Result<Mode, usize>
    requires { at ≤ length line.now }
    ensures { result ≡ shift at (read_other axis mode (drop at line.now)) }
{
    if line.len() <= at {
        return Ok(mode);
    }
    let at = word(line, at, b" ")?;
    let minus = sign(line, at)?;
    let at = word(line, at + 1, axis.word())?;
    if at < line.len() {
        return Err(at);
    }
    Ok(mode.flagged(axis, minus))
}
