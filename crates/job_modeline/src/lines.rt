// How a job over the lines of an input ends.
ghost use Rattle.io.specs.Counts.{IsPrefixLen};
ghost use Rattle.job_modeline.specs.Job.{closing_part};
ghost use Rattle.mode_lines.specs.Job.{LinesStep};

use mode_lines::{LinesFed, LinesJob, feed};

// Reports a last line that no newline ends, if a byte of it is kept, into `out`, from its start on; where it has no room or no number, its bytes stay kept.
pub fn close(before: LinesJob, out: &mut [u8]) -> LinesFed
    ensures lines_step { LinesStep before (closing_part before) out.old out.new result }
    ensures prefix_len { IsPrefixLen result.end out.new }
{
    if before.count == 0 {
        return feed(before, b"", out);
    }
    feed(before, b"\n", out)
}
