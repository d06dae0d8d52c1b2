// The fifteen timing numbers of a register file, in two units that cannot be mixed up.
#![tactic(auto)]

mod table;
mod vertical;

ghost use Rattle.std.specs.Prelude.{◌≡◌, ℕ, ◌<◌, ◌^◌, ◌||◌, eqb, get_or, []};
ghost use Rattle.timing.specs.Timing.{timing_of, numbers_of, read_timing, write_timing};
ghost use Rattle.bits.specs.Store.{bit};

use file::{Answer, CR1B, CR11, File};
pub use vertical::{v_display, v_sync_end, v_sync_start, v_total};

// Character clocks.
#[derive(Clone, Copy, Debug, PartialEq, Eq, PartialOrd, Ord)]
pub struct Clocks(pub u16);

#[derive(Clone, Copy, Debug, PartialEq, Eq, PartialOrd, Ord)]
pub struct Scanlines(pub u16);

// The fifteen numbers, in the order of 01's table.
#[derive(Clone, Copy, Debug, PartialEq, Eq)]
pub struct Timing {
    pub h_total: Clocks,
    pub h_display: Clocks,
    pub h_blank_start: Clocks,
    pub h_blank_end: Clocks,
    pub h_sync_start: Clocks,
    pub h_sync_end: Clocks,
    pub v_total: Scanlines,
    pub v_display: Scanlines,
    pub v_blank_start: Scanlines,
    pub v_blank_end: Scanlines,
    pub v_sync_start: Scanlines,
    pub v_sync_end: Scanlines,
    pub line_compare: Scanlines,
    pub offset: u16,
    pub screen_start: u32,
}

// What the reader answers: every number is 0 where it refuses. A struct with its answer beside, and no Result: the rules promise those zeros
// (docs/DECISIONS.md, 31).
#[derive(Clone, Copy, Debug, PartialEq, Eq)]
pub struct Read {
    pub answer: Answer,
    pub timing: Timing,
}

// What the writer answers. No Result: the file counts either way, and is as given where it refuses, as every access hands back the file with its reply.
#[derive(Clone, Copy, Debug, PartialEq, Eq)]
pub struct Written {
    pub answer: Answer,
    pub file: File,
}

impl Timing {
    // No number: what a reader that refuses answers.
    fn none() -> Timing
        ensures { result ≡ timing_of [] }
    {
        Timing {
            h_total: Clocks(0),
            h_display: Clocks(0),
            h_blank_start: Clocks(0),
            h_blank_end: Clocks(0),
            h_sync_start: Clocks(0),
            h_sync_end: Clocks(0),
            v_total: Scanlines(0),
            v_display: Scanlines(0),
            v_blank_start: Scanlines(0),
            v_blank_end: Scanlines(0),
            v_sync_start: Scanlines(0),
            v_sync_end: Scanlines(0),
            line_compare: Scanlines(0),
            offset: 0,
            screen_start: 0,
        }
    }

    // The numbers in table order, as a timing. All but the last have 16 bits.
    fn of(numbers: [u32; 15]) -> Timing
        requires { (k : ℕ) → k < 14 → get_or numbers k 0 < 2 ^ 16 }
        ensures { result ≡ timing_of numbers }
    {
        Timing {
            h_total: Clocks(numbers[0] as u16),
            h_display: Clocks(numbers[1] as u16),
            h_blank_start: Clocks(numbers[2] as u16),
            h_blank_end: Clocks(numbers[3] as u16),
            h_sync_start: Clocks(numbers[4] as u16),
            h_sync_end: Clocks(numbers[5] as u16),
            v_total: Scanlines(numbers[6] as u16),
            v_display: Scanlines(numbers[7] as u16),
            v_blank_start: Scanlines(numbers[8] as u16),
            v_blank_end: Scanlines(numbers[9] as u16),
            v_sync_start: Scanlines(numbers[10] as u16),
            v_sync_end: Scanlines(numbers[11] as u16),
            line_compare: Scanlines(numbers[12] as u16),
            offset: numbers[13] as u16,
            screen_start: numbers[14],
        }
    }

    // A timing's numbers, in table order.
    pub fn numbers(self) -> [u32; 15]
        ensures { result ≡ numbers_of self }
    {
        [
            u32::from(self.h_total.0),
            u32::from(self.h_display.0),
            u32::from(self.h_blank_start.0),
            u32::from(self.h_blank_end.0),
            u32::from(self.h_sync_start.0),
            u32::from(self.h_sync_end.0),
            u32::from(self.v_total.0),
            u32::from(self.v_display.0),
            u32::from(self.v_blank_start.0),
            u32::from(self.v_blank_end.0),
            u32::from(self.v_sync_start.0),
            u32::from(self.v_sync_end.0),
            u32::from(self.line_compare.0),
            u32::from(self.offset),
            self.screen_start,
        ]
    }
}

// One bit of a register.
fn is_set(value: u16, place: u16) -> bool
    requires { place < 16 }
    ensures { result ≡ eqb (bit place value) 1 }
{
    (value >> place) % 2 == 1
}

// Whether CR1A's blank pieces count.
pub fn is_wide(cr1b: u16) -> bool
    ensures { result ≡ (eqb (bit 5 cr1b) 1 || eqb (bit 7 cr1b) 1) }
{
    is_set(cr1b, 5) || is_set(cr1b, 7)
}

// The fifteen numbers of a file; none of an unsound one.
pub fn read_timing(file: File) -> Read
    ensures { result ≡ read_timing file }
{
    if !file::is_sound(file) {
        return Read {
            answer: Answer::NotSound,
            timing: Timing::none(),
        };
    }
    let numbers = table::read(is_wide(file.registers[CR1B]), &file.registers);
    Read {
        answer: Answer::Done(0),
        timing: Timing::of(numbers),
    }
}

// The file with a timing written into its registers, if it is sound, not locked, and every number is in its range.
pub fn write_timing(file: File, timing: Timing) -> Written
    ensures { result ≡ write_timing file timing }
{
    if !file::is_sound(file) {
        return Written {
            answer: Answer::NotSound,
            file,
        };
    }
    if is_set(file.registers[CR11], 7) {
        return Written {
            answer: Answer::Locked,
            file,
        };
    }
    let wide = is_wide(file.registers[CR1B]);
    let numbers = timing.numbers();
    if !table::in_range(wide, &numbers) {
        return Written {
            answer: Answer::OutOfRange,
            file,
        };
    }
    let mut registers = file.registers;
    table::write(wide, &mut registers, &numbers);
    let mut written = file;
    written.registers = registers;
    Written {
        answer: Answer::Done(0),
        file: written,
    }
}
