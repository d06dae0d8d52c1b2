// A trace replayed from lent bytes to lent bytes: its records are run, and their lines stored. The replies stand in a buffer lent for them.
#![tactic(auto)]

ghost use Rattle.std.specs.Prelude.{◌≡◌, ◌+◌, ◌*◌, ◌^◌, ◌≤◌, true, IfOk, T, length};
ghost use Rattle.file.specs.File.{power_on};
ghost use Rattle.file.specs.Sound.{sound};
ghost use Rattle.trace.specs.Records.{item_count};
ghost use Rattle.text.specs.Lent.{Lined, placed_by};
ghost use Rattle.replaying.specs.Replay.{PartRan, PartReplayed, Parted, part_replies, records_fit, replay_answer, replayed};

use engines::{Engine, run_by};
use file::{Answer, Chip, File, is_sound};
use text::{Placed, numbers_fit, reply_lines, timing_line};
use timing::read_timing;

// The most bytes that a file's timing line has.
pub const TIMING_MOST: usize = 172;

// What a part of a trace leaves: the file after it, the count of its records, and where its lines end.
#[derive(Clone, Copy)]
pub struct Part {
    pub file: File,
    pub count: usize,
    pub end: usize,
}

// How many records a trace has.
fn item_count(trace: &[u8]) -> usize
    ensures { result ≡ item_count trace.now }
{
    (trace.len() + 7) / 8
}

// So many records have room: their replies, and their lines with so many bytes behind them.
fn records_fit(count: usize, last: usize, replies: usize, lines: usize) -> bool
    ensures { result ≡ records_fit count last replies lines }
{
    if lines < last {
        return false;
    }
    count <= replies / 8 && count <= (lines - last) / 30
}

// A part of a trace, run by an engine, and its lines, if they are asked for, with no test before.
fn run_untested(
    engine: Engine,
    prints: bool,
    before: File,
    number: u64,
    trace: &[u8],
    replies: &mut [u8],
    lines: &mut [u8],
) -> Part
    ensures parted { T (sound before) → 8 * item_count trace.now ≤ length replies.old → (prints ≡ true → 30 * item_count trace.now ≤ length lines.old) → number + item_count trace.now ≤ 2 ^ 64 → Parted before number prints trace.now replies.old replies.new lines.old lines.new result }
    ensures ran { PartRan before number prints trace.now replies.old replies.new lines.old lines.new result }
{
    let ran = run_by(engine, before, trace, replies);
    let file = ran.file;
    let count = ran.count;
    if !prints {
        return Part {
            file,
            count,
            end: 0,
        };
    }
    let size = 8 * count;
    let printed = reply_lines(lines, 0, number, &replies[..size]);
    Part {
        file,
        count,
        end: printed.end,
    }
}

// A part of a trace, run by an engine from a file on, and the lines of its records, numbered from a number on, from the start of a buffer on;
// code 12 of a file that isn't sound, 11 where a buffer is short, 10 where a record's number has no room, and then both buffers stay.
pub fn replay_part(
    engine: Engine,
    before: File,
    number: u64,
    trace: &[u8],
    replies: &mut [u8],
    lines: &mut [u8],
) -> Result<Part, Answer>
    ensures replayed { PartReplayed before number trace.now replies.old replies.new lines.old lines.new result }
    ensures done { IfOk result (λ part. Parted before number true trace.now replies.old replies.new lines.old lines.new part × PartRan before number true trace.now replies.old replies.new lines.old lines.new part) }
{
    let count = item_count(trace);
    if !is_sound(before) {
        return Err(Answer::NotSound);
    }
    if !records_fit(count, 0, replies.len(), lines.len()) {
        return Err(Answer::ShortBuffer);
    }
    if !numbers_fit(number, count) {
        return Err(Answer::OutOfRange);
    }
    Ok(run_untested(engine, true, before, number, trace, replies, lines))
}

// A part of a trace, run by an engine from a file on, and the lines of its records, numbered from a number on, from the start of a buffer on
// if they are asked for: what `replay_part` leaves of it then. It refuses nothing: where the file isn't sound or a buffer is short, it leaves what
// the run and the lines by themselves do.
pub fn run_part(
    engine: Engine,
    prints: bool,
    before: File,
    number: u64,
    trace: &[u8],
    replies: &mut [u8],
    lines: &mut [u8],
) -> Part
    ensures parted { T (sound before) → 8 * item_count trace.now ≤ length replies.old → (prints ≡ true → 30 * item_count trace.now ≤ length lines.old) → number + item_count trace.now ≤ 2 ^ 64 → Parted before number prints trace.now replies.old replies.new lines.old lines.new result }
    ensures ran { PartRan before number prints trace.now replies.old replies.new lines.old lines.new result }
{
    if prints {
        match replay_part(engine, before, number, trace, replies, lines) {
            Ok(part) => part,
            Err(_) => run_untested(engine, true, before, number, trace, replies, lines),
        }
    } else {
        run_untested(engine, false, before, number, trace, replies, lines)
    }
}

// What the replay program prints of a trace on a chip, by either engine, from the start of a buffer on; code 11 where a buffer is short.
pub fn replay(
    engine: Engine,
    chip: Chip,
    trace: &[u8],
    replies: &mut [u8],
    lines: &mut [u8],
) -> Placed
    ensures lined { Lined (replay_answer trace.now replies.old lines.old) 0 (replayed chip trace.now) lines.old lines.new result }
    ensures replies_after { replies.new ≡ placed_by result.answer replies.old 0 (part_replies (power_on chip) trace.now) }
{
    let count = item_count(trace);
    if !records_fit(count, TIMING_MOST, replies.len(), lines.len()) {
        return Placed {
            answer: Answer::ShortBuffer,
            end: 0,
        };
    }
    let part = run_part(engine, true, File::power_on(chip), 0, trace, replies, lines);
    timing_line(lines, part.end, read_timing(part.file).timing)
}
