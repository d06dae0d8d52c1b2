// The line that is printed of the sibling's bytes.
ghost use Rattle.text.specs.Lent.{Lined, room_answer};
ghost use Rattle.portable_text.specs.Line.{line_of};

use file::Answer;
use portable::read_timing;
use text::{Placed, numbers_line};

// The most bytes that the line has.
pub const LINE_MOST: usize = 87;

// The code and the fourteen numbers, from a place of the buffer on; code 11 where the line has no room. A reader answers 0 or 12.
pub fn timing_line(buffer: &mut [u8], at: usize, bytes: &[u8]) -> Placed
    ensures { Lined (room_answer buffer.old at (line_of bytes.now)) at (line_of bytes.now) buffer.old buffer.new result }
{
    let read = read_timing(bytes);
    let code: &[u8] = match read.answer {
        Answer::Done(_) => b"0",
        _ => b"12",
    };
    numbers_line(buffer, at, code, &[], &read.timing.numbers())
}
