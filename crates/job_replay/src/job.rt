// A trace on its way.
ghost use Rattle.std.specs.Prelude.{◌≡◌};
ghost use Rattle.text.specs.Lent.{Lined, room_answer};
ghost use Rattle.job_replay.specs.Job.{closing_line, started};

use feeding::Fed;
use file::{Chip, File};
use refusals::Refusals;
use text::{Placed, timing_line};
use timing::read_timing;

// How far a trace has come: how many records there were, the file after them, and how many of them answered each code.
#[derive(Clone, Copy)]
pub struct TraceJob {
    pub number: u64,
    pub file: File,
    pub refusals: Refusals,
}

// What one step leaves: the job after it, how many bytes of the part it used, and where its lines end.
pub type TraceFed = Fed<TraceJob>;

// Starts a trace from the power-on of `chip`.
pub fn start(chip: Chip) -> TraceJob
    ensures { result ≡ started chip }
{
    TraceJob {
        number: 0,
        file: File::power_on(chip),
        refusals: refusals::none(),
    }
}

// Puts the timing line of the file of `job` from the start of `out` on; code 11 where it has no room.
pub fn close(job: TraceJob, out: &mut [u8]) -> Placed
    ensures { Lined (room_answer out.old 0 (closing_line job)) 0 (closing_line job) out.old out.new result }
{
    timing_line(out, 0, read_timing(job.file).timing)
}
