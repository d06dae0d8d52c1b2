// The job: how far an explanation has come.
ghost use Rattle.std.specs.Prelude.{◌≡◌};
ghost use Rattle.text.specs.Lent.{Lined};
ghost use Rattle.summing.specs.Told.{closing};
ghost use Rattle.job_explain.specs.Job.{close_answer, starting};

use file::{Chip, File};
use refusals::Refusals;
use summing::{Summary, summary_lines};
use text::Placed;

// How many records there were, the file after them, their summary, where they are summed, and how often each code came.
#[derive(Clone, Copy)]
pub struct ExplainJob {
    pub number: u64,
    pub file: File,
    pub summary: Summary,
    pub refusals: Refusals,
}

// Starts a job from the power-on of `chip`, before any record.
pub fn start(chip: Chip) -> ExplainJob
    ensures { result ≡ starting chip }
{
    let file = File::power_on(chip);
    ExplainJob {
        number: 0,
        file,
        summary: summing::begin(file),
        refusals: refusals::none(),
    }
}

// Puts what stands at the end of an explanation into `out` from its start on: with `sums` the summary of `job`, code 11 where `out` has fewer bytes than
// that may have; else nothing.
pub fn close(sums: bool, job: ExplainJob, out: &mut [u8]) -> Placed
    ensures { Lined (close_answer sums out.old) 0 (closing sums job.summary) out.old out.new result }
{
    if sums {
        let summary = job.summary;
        return summary_lines(out, 0, summary);
    }
    Placed::stored(0)
}
