// A part of a trace: as many of its records as there are, as have room and as have numbers.
ghost use Rattle.std.specs.Prelude.{◌≡◌};
ghost use Rattle.job_explain.specs.Job.{PartExplained, bytes_taken};

use crate::job::ExplainJob;
use crate::turn::explain_record;
use feeding::{Fed, numbers_left, units_in};

// The most bytes that a record's lines have.
const RECORD_MOST: usize = 3360;

// The job after some bytes of a part, how many those are, and where their text ends.
pub type ExplainFed = Fed<ExplainJob>;

// Counts the bytes of `part` that a step takes, of which the first record has the number `number`, with `room` bytes for their text.
fn bytes_taken(number: u64, part: &[u8], last: bool, room: usize) -> usize
    ensures { result ≡ bytes_taken number last part.now room }
{
    let there = units_in(part, 8, last);
    let numbered = numbers_left(number);
    let records = there.min((room / RECORD_MOST).min(numbered));
    (8 * records).min(part.len())
}

// Explains the records of `part` from its start on: as many as there are, as have room in `out` and as have numbers; their text stands from the start of
// `out` on. In the last part of a trace a fragment at its end is a record too.
pub fn feed(sums: bool, before: ExplainJob, part: &[u8], last: bool, out: &mut [u8]) -> ExplainFed
    ensures { PartExplained sums before part.now last out.old out.new result }
{
    let bytes = bytes_taken(before.number, part, last, out.len());
    let mut job = before;
    let mut end = 0;
    for record in part[..bytes].chunks(8) {
        let turn = explain_record(sums, job, record, out, end);
        end = turn.end;
        job = turn.job;
    }
    Fed {
        job,
        used: bytes,
        end,
    }
}
