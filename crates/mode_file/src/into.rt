// A line into a file.
ghost use Rattle.std.specs.Prelude.{◌≡◌};
ghost use Rattle.mode_file.specs.Into.{ReadInto, flagged_line, read_mode, read_result};

use crate::said::{eights, flag_store, timing_said};
use crate::verdict::Verdict;
use file::{Answer, File, is_sound};
use modes::{Mode, parse};
use timing::write_timing;

// What a line that was read says beside the mode: the name, as the place of its first byte and its size, and the clock.
#[derive(Clone, Copy)]
pub struct LineSaid {
    pub name_start: usize,
    pub name_size: usize,
    pub khz: u32,
}

// What is answered: of a line that was read what it says, and the file with the mode; of another why it is refused, and the file as given.
#[derive(Clone, Copy)]
pub struct ReadLine {
    pub said: Result<LineSaid, Verdict>,
    pub file: File,
}

// A line read into a file.
pub fn read_into(line: &[u8], file: File) -> ReadLine
    ensures { ReadInto line.now file result }
{
    match into_file(parse(line), file) {
        Ok(done) => done,
        Err(verdict) => ReadLine {
            said: Err(verdict),
            file,
        },
    }
}

// What a line said, into a file.
fn into_file(parsed: Result<Mode, usize>, file: File) -> Result<ReadLine, Verdict>
    ensures { result ≡ read_result parsed file }
{
    if !is_sound(file) {
        return Err(Verdict::NotSound);
    }
    match parsed {
        Ok(mode) => with_mode(mode, file),
        Err(place) => Err(Verdict::BadText(place)),
    }
}

// A mode into a file.
fn with_mode(mode: Mode, file: File) -> Result<ReadLine, Verdict>
    ensures { result ≡ read_mode mode file }
{
    if !eights(&mode.numbers[..4]) {
        return Err(Verdict::NotMultiple);
    }
    let written = write_timing(file, timing_said(mode.numbers));
    match written.answer {
        Answer::Done(_) => Ok(done(mode, written.file)),
        Answer::Locked => Err(Verdict::Locked),
        Answer::OutOfRange => Err(Verdict::OutOfRange),
        _ => Err(Verdict::NotSound),
    }
}

// What a mode said beside its timing, into a file that has that timing.
fn done(mode: Mode, timed: File) -> ReadLine
    ensures { result ≡ flagged_line mode timed }
{
    let store = flag_store(mode.h_minus, mode.v_minus);
    ReadLine {
        said: Ok(LineSaid {
            name_start: 10,
            name_size: mode.name,
            khz: mode.khz,
        }),
        file: store.apply(timed),
    }
}
