// What is put out at the end of the input.
ghost use Rattle.job_portable.specs.Ended.{LineEnded, NumbersEnded};
ghost use Rattle.job_portable.specs.Kept.{held};

use crate::keeping::PortableJob;
use file::Answer;
use portable::read_timing;
use portable_text::{NotWritten, timing_line, write_list};
use text::{Placed, plain_text, put};

// The reader's answer, and where its line ends in the buffer. No `Result`: with 12 there is a line too, of all numbers 0, so its end isn't the place given.
pub type PortableEnded = Placed;

// Puts the line of `bytes` into `out`, from its start on.
fn line_end(bytes: &[u8], out: &mut [u8]) -> PortableEnded
    ensures { LineEnded bytes.now out.old out.new result }
{
    let placed = timing_line(out, 0, bytes);
    match placed.answer {
        Answer::Done(_) => Placed {
            answer: read_timing(bytes).answer,
            end: placed.end,
        },
        _ => placed,
    }
}

// Puts the line of the bytes that `job` keeps into `out`, from its start on: the code, 0 or 12, and the fourteen numbers; code 11 and nothing where it has
// no room.
pub fn read_end(job: PortableJob, out: &mut [u8]) -> PortableEnded
    ensures { LineEnded (held job) out.old out.new result }
{
    line_end(job.text(), out)
}

// Writes the numbers of `list` into `bytes` and puts these into `out`, from its start on. Gives where they end.
fn list_end(bytes: &mut [u8], list: &[u8], out: &mut [u8]) -> Result<usize, NotWritten>
    ensures { NumbersEnded bytes.old list.now out.old out.new result }
{
    write_list(bytes, list)?;
    let placed = plain_text(out, 0, bytes);
    match placed.answer {
        Answer::Done(_) => Ok(placed.end),
        answer => Err(NotWritten::Refused(answer)),
    }
}

// Puts the bytes that `job` keeps, with the numbers of `list` in them, into `out`, from its start on, and gives where they end. Where `list` is no
// list, there aren't 28 bytes, they are locked, a number is out of its range or they have no room, it puts nothing and tells code 12, 8, 10 or 11,
// and of no list that it is none.
pub fn write_end(job: PortableJob, list: &[u8], out: &mut [u8]) -> Result<usize, NotWritten>
    ensures { NumbersEnded (held job) list.now out.old out.new result }
{
    let mut bytes = [0u8; 29];
    let end = put(job.text(), &mut bytes, 0);
    list_end(&mut bytes[..end], list, out)
}
