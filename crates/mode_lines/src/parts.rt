// A part of an input, taken line by line, and what is reported of its lines.
ghost use Rattle.std.specs.Prelude.{◌≡◌, ◌+◌, ◌≤◌, ◌<◌, ◌^◌, length};
ghost use Rattle.io.specs.Counts.{IsPrefixLen};
ghost use Rattle.mode_lines.specs.Parts.{NextReported, PartReported, last_number};

use crate::reporting::report;
use crate::split::take_line;
use file::File;

// How many bytes of a part were taken, the number of the line at hand, how many of its bytes are kept, and where the reports end.
#[derive(Clone, Copy)]
pub struct Progress {
    pub used: usize,
    pub number: u64,
    pub count: usize,
    pub end: usize,
}

// The number behind the lines that have numbers and room for their reports.
#[tactic(auto, unfolding(crate::specs::Parts::last_number))]
fn last_number(number: u64, room: usize) -> u64
    ensures { result ≡ last_number number room }
{
    number.saturating_add((room / 256) as u64)
}

// What is left of a part: its first line, reported if it is whole.
fn report_next(
    before: Progress,
    file: File,
    part: &[u8],
    kept: &mut [u8],
    reports: &mut [u8],
) -> Progress
    requires part_bound { before.used + length part.now < 2 ^ 64 }
    requires number_bound { before.number + 1 < 2 ^ 64 }
    requires end_in_bounds { before.end + 256 ≤ length reports.old }
    ensures { NextReported file before part.now kept.old kept.new reports.old reports.new result }
{
    let taken = take_line(part, kept, before.count);
    let used = before.used + taken.used;
    let count = taken.count;
    if !taken.ended {
        return Progress {
            used,
            number: before.number,
            count,
            end: before.end,
        };
    }
    let placed = report(reports, before.end, before.number, file, &kept[..count]);
    Progress {
        used,
        number: before.number + 1,
        count: 0,
        end: placed.end,
    }
}

// The lines that end in a part, from a number on, each read into a file and reported, from the start of a buffer on; behind so many bytes that are kept
// of the first. A buffer has room for a report for each 256 bytes: where there is no more room, or there are no more numbers, the rest of the part is left.
// What is kept is lent beside its count, since the room may have any size; `LinesJob` has both, with room for 256 bytes.
pub fn report_part(
    number: u64,
    count: usize,
    file: File,
    part: &[u8],
    kept: &mut [u8],
    reports: &mut [u8],
) -> Progress
    ensures part_reported { PartReported file number count part.now kept.old kept.new reports.old reports.new result }
    ensures prefix_len { IsPrefixLen result.end reports.new }
    ensures used_in_bounds { result.used ≤ length part.now }
{
    let last = last_number(number, reports.len());
    let mut done = Progress {
        used: 0,
        number,
        count,
        end: 0,
    };
    while done.number < last && done.used < part.len() {
        let at = done.used;
        done = report_next(done, file, &part[at..], kept, reports);
    }
    done
}
