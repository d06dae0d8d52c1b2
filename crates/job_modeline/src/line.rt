// The line of a file, with a name and a clock in words.
ghost use Rattle.std.specs.Prelude.{IfOk};
ghost use Rattle.io.specs.Counts.{IsPrefixLen};
ghost use Rattle.job_modeline.specs.OneLine.{LinePut, Told, no_line_line};

use file::File;
use mode_file::Verdict;
use mode_lines::{keep, line_of};
use text::{Placed, plain_text};

// Puts the line of the timing and flags of `file`, with `name` and the clock `mhz`, and a newline into `out`, from its start on, and says where they end.
// Where the file isn't sound, the name or the clock is out of form, `out` has fewer than 256 bytes, or the timing isn't that of a line, it puts nothing.
pub fn line_end(file: File, name: &[u8], mhz: &[u8], out: &mut [u8]) -> Result<usize, Verdict>
    ensures line_put { LinePut file name.now mhz.now out.old out.new result }
    ensures prefix_len { IfOk result (λ end. IsPrefixLen end out.new) }
{
    let size = line_of(file, name, mhz, out)?;
    Ok(keep(out, size, b"\n"))
}

// Puts the line that tells `code` into `buffer`, from `at` on: 21, 22, or else 12.
pub fn no_line_line(buffer: &mut [u8], at: usize, code: u8) -> Placed
    ensures { Told (no_line_line code) at buffer.old buffer.new result }
{
    if code == 21 {
        return plain_text(
            buffer,
            at,
            b"sedgecoil: no line, code 21: the timing isn't that of a modeline\n",
        );
    }
    if code == 22 {
        return plain_text(
            buffer,
            at,
            b"sedgecoil: no line, code 22: the name or the clock is out of form\n",
        );
    }
    plain_text(
        buffer,
        at,
        b"sedgecoil: no line, code 12: the file isn't sound\n",
    )
}
