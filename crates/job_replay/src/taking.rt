// How many records of a part one step takes.
ghost use Rattle.std.specs.Prelude.{◌≡◌};
ghost use Rattle.job_replay.specs.Job.{records_taken, room_for};

use crate::job::TraceJob;
use feeding::{numbers_left, units_in};
use file::is_sound;

// Counts the records whose lines have room in `room` bytes; without lines, as many as one step takes.
fn room_for(prints: bool, room: usize) -> usize
    ensures { result ≡ room_for prints room }
{
    if prints {
        return room / 30;
    }
    1024
}

// Counts the records that a step takes: of those in `part` at most 1,024, as many as have room and numbers, and none where the file isn't sound.
pub fn records_taken(prints: bool, last: bool, job: TraceJob, part: &[u8], room: usize) -> usize
    ensures { result ≡ records_taken prints last job part.now room }
{
    if !is_sound(job.file) {
        return 0;
    }
    let number = job.number;
    let records = units_in(part, 8, last).min(1024);
    let fit = room_for(prints, room).min(numbers_left(number));
    records.min(fit)
}
