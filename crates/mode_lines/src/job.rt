// The job over the lines of an input that comes in parts: what stays from one part to the next.
ghost use Rattle.std.specs.Prelude.{◌≡◌, ◌≤◌, length};
ghost use Rattle.io.specs.Counts.{IsPrefixLen};
ghost use Rattle.mode_lines.specs.Job.{LinesStep, started};

use crate::parts::report_part;
use crate::starting::start_file;
use file::File;

// The number of the line at hand, how many of its bytes are kept, these, and the file that each line is read into.
#[derive(Clone, Copy)]
pub struct LinesJob {
    pub number: u64,
    pub count: usize,
    pub kept: [u8; 256],
    pub file: File,
}

// The job after a part, how many bytes of the part were used, and where the reports end.
#[derive(Clone, Copy)]
pub struct LinesFed {
    pub job: LinesJob,
    pub used: usize,
    pub end: usize,
}

// Starts a job at line 0; with `wide` its file has CR1B[5]=1.
pub fn start(wide: bool) -> LinesJob
    ensures { result ≡ started wide }
{
    let file = start_file(wide);
    LinesJob {
        number: 0,
        count: 0,
        kept: [0; 256],
        file,
    }
}

// Reports the lines that end in `part` into `out`, from its start on: as many as have a number and room, 256 bytes for each. What begins a line that doesn't
// end there is kept, its first 256 bytes.
pub fn feed(before: LinesJob, part: &[u8], out: &mut [u8]) -> LinesFed
    ensures lines_step { LinesStep before part.now out.old out.new result }
    ensures prefix_len { IsPrefixLen result.end out.new }
    ensures used_in_bounds { result.used ≤ length part.now }
{
    let mut kept = before.kept;
    let file = before.file;
    let done = report_part(before.number, before.count, file, part, &mut kept, out);
    let job = LinesJob {
        number: done.number,
        count: done.count,
        kept,
        file,
    };
    LinesFed {
        job,
        used: done.used,
        end: done.end,
    }
}
