// One record: what is told of it, and the job after it.
ghost use Rattle.std.specs.Prelude.{◌≡◌, ◌+◌, ◌^◌, ◌≤◌, ◌<◌, length, take};
ghost use Rattle.text.specs.Lent.{Wrote};
ghost use Rattle.trace.specs.Records.{item_of};
ghost use Rattle.explaining.specs.Explained.{record_most};
ghost use Rattle.summing.specs.Told.{record_told};
ghost use Rattle.job_explain.specs.Job.{Turned};

use crate::job::ExplainJob;
use access::Item;
use explaining::record_lines;
use file::File;
use refusals::counting;
use summing::{record_summed, together_lines};
use trace::item_of;

// The job after a record, and the place in the buffer after its text.
#[derive(Clone, Copy)]
pub struct Turn {
    pub job: ExplainJob,
    pub end: usize,
}

// Puts what is told of `item`, whose number is `number` and before which the file is `file`, into `out` from `at` on, and gives the place after it.
fn put_told(sums: bool, number: u64, file: File, item: Item, out: &mut [u8], at: usize) -> usize
    requires { at + record_most ≤ length out.old }
    ensures { Wrote out.old at (record_told sums number file item) out.new result }
{
    if sums {
        return together_lines(out, at, number, file, item).end;
    }
    record_lines(out, at, number, file, item).end
}

// Explains the record, or the fragment, that stands first in `bytes`: its text into `out` from `at` on.
pub fn explain_record(
    sums: bool,
    before: ExplainJob,
    bytes: &[u8],
    out: &mut [u8],
    at: usize,
) -> Turn
    requires record_most_in_bounds { at + record_most ≤ length out.old }
    requires number_bound { before.number + 1 < 2 ^ 64 }
    ensures { Turned sums before (item_of (take 8 bytes.now)) at out.old out.new result }
{
    let item = item_of(bytes);
    let end = put_told(sums, before.number, before.file, item, out, at);
    let summary = record_summed(sums, before.summary, before.file, item);
    let accessed = item.access(before.file);
    let file = accessed.file;
    let answer = accessed.answer;
    let job = ExplainJob {
        number: before.number + 1,
        file,
        summary,
        refusals: counting(before.refusals, answer.code()),
    };
    Turn { job, end }
}
