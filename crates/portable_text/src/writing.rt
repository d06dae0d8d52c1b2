// A list of fourteen numbers, written into the sibling's bytes.
ghost use Rattle.portable_text.specs.Numbers.{ListWritten};

use crate::listing::read_list;
use file::Answer;
use portable::{Timing, write_timing};

// Why no numbers were written: the text was no list of fourteen, and what the writer answers of no numbers, which are out of range; or what it
// answered of them.
#[derive(Clone, Copy)]
pub enum NotWritten {
    NoList(Answer),
    Refused(Answer),
}

// The numbers of a list, written into 28 bytes; what is no list has no numbers, and these the writer refuses, so the bytes stay as they are.
pub fn write_list(bytes: &mut [u8], text: &[u8]) -> Result<(), NotWritten>
    ensures { ListWritten bytes.old text.now bytes.new result }
{
    let Some(timing) = read_list(text) else {
        return Err(NotWritten::NoList(write_timing(bytes, Timing::of([0; 14]))));
    };
    match write_timing(bytes, timing) {
        Answer::Done(_) => Ok(()),
        answer => Err(NotWritten::Refused(answer)),
    }
}
