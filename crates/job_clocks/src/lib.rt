// The job of the command `clocks`: register sets that are fed in parts, a line for each, and the summary when it is closed.
#![tactic(auto)]

ghost use Rattle.std.specs.Prelude.{◌≡◌};
ghost use Rattle.io.specs.Counts.{IsPrefixLen};
ghost use Rattle.text.specs.Lent.{Lined};
ghost use Rattle.clock_text.specs.Parts.{summary_answer};
ghost use Rattle.clock_text.specs.Report.{summary};
ghost use Rattle.job_clocks.specs.Clocks.{ClocksStep, set_bytes};

use clock_text::{Tally, report_part, summary_lines};
use feeding::{Fed, units_in};
use text::Placed;

// The most bytes that the line of a set has.
const LINE_MOST: usize = 15;

// What was counted after a part, how many bytes of the part were used, and where their lines end.
pub type ClocksFed = Fed<Tally>;

// Tells how many bytes of `part` the sets have whose lines fit into `room` bytes.
#[tactic(auto, unfolding(crate::specs::Clocks::set_bytes, crate::specs::Clocks::sets_roomed, feeding::specs::Feeding::bytes_of))]
fn set_bytes(part: &[u8], last: bool, room: usize) -> usize
    ensures value { result ≡ set_bytes last part.now room }
    ensures prefix_len { IsPrefixLen result part.now }
{
    let sets = units_in(part, 3, last).min(room / LINE_MOST);
    part.len().min(3 * sets)
}

// Counts the sets of `part` and puts a line for each into `out`, from its start on: as many sets as `part` has whole, with `last` a fragment too, as many as
// have room, and none where a count has no room for them.
pub fn feed(before: Tally, part: &[u8], last: bool, out: &mut [u8]) -> ClocksFed
    ensures { ClocksStep before part.now last out.old out.new result }
{
    let size = set_bytes(part, last, out.len());
    match report_part(before, &part[..size], out) {
        Ok(told) => Fed {
            job: told.tally,
            used: size,
            end: told.end,
        },
        Err(_) => Fed {
            job: before,
            used: 0,
            end: 0,
        },
    }
}

// Puts the summary of what was counted into `out`, from its start on; code 11 and nothing where `out` has fewer than 131 bytes.
pub fn close(tally: Tally, out: &mut [u8]) -> Placed
    ensures { Lined (summary_answer out.old 0) 0 (summary tally) out.old out.new result }
{
    summary_lines(out, 0, tally)
}
