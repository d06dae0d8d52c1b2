// One step of a trace.
ghost use Rattle.std.specs.Prelude.{true, ◌≡◌, ◌+◌, ◌*◌, ◌^◌, ◌≤◌, ◌<◌, T, length};
ghost use Rattle.file.specs.Sound.{sound};
ghost use Rattle.trace.specs.Records.{item_count};
ghost use Rattle.job_replay.specs.Job.{Stepped, TraceStep};

use crate::job::{TraceFed, TraceJob};
use crate::taking::records_taken;
use engines::Engine;
use feeding::Fed;
use refusals::counting_replies;
use replaying::run_part;

// Runs the whole of `part` in one step of the job `before`, and counts its answers.
fn run_some(engine: Engine, prints: bool, before: TraceJob, part: &[u8], out: &mut [u8]) -> TraceFed
    requires t { T (sound before.file) }
    requires part_bound { item_count part.now ≤ 1024 }
    requires part_in_bounds { prints ≡ true → 30 * item_count part.now ≤ length out.old }
    requires part_bound_2 { before.number + item_count part.now < 2 ^ 64 }
    ensures { Stepped prints before part.now out.old out.new result }
{
    let mut replies = [0u8; 8192];
    let number = before.number;
    let ran = run_part(engine, prints, before.file, number, part, &mut replies, out);
    let count = ran.count;
    let size = 8 * count;
    let refusals = counting_replies(before.refusals, &replies[..size]);
    let file = ran.file;
    Fed {
        job: TraceJob {
            number: number + count as u64,
            file,
            refusals,
        },
        used: part.len(),
        end: ran.end,
    }
}

// Runs as many records of `part` as there are whole ones, as one step takes, as have room in `out` and as have numbers; with `last` a fragment is
// a record too. Their lines stand from the start of `out` on if `prints` asks for them; the rest of `out` stays.
pub fn feed(
    engine: Engine,
    prints: bool,
    before: TraceJob,
    part: &[u8],
    last: bool,
    out: &mut [u8],
) -> TraceFed
    ensures { TraceStep prints last before part.now out.old out.new result }
{
    let records = records_taken(prints, last, before, part, out.len());
    if records == 0 {
        return Fed {
            job: before,
            used: 0,
            end: 0,
        };
    }
    let used = (8 * records).min(part.len());
    run_some(engine, prints, before, &part[..used], out)
}
