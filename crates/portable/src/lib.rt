// The timing numbers of the portable sibling, the CL-GD7541/7543, in 28 lent bytes: CR00h to CR1Bh.
#![tactic(auto)]

mod lent;
mod table;

ghost use Rattle.std.specs.Prelude.{◌≡◌, ℕ, ◌%◌, eqb, get_or};
ghost use Rattle.bits.specs.Store.{bit};
ghost use Rattle.portable.specs.Timing.{Written, numbers_of, read_timing, timing_by};

use file::Answer;
use timing::{Clocks, Scanlines};

// CR00h to CR1Bh.
const COUNT: usize = 28;

// The fourteen numbers, in the order of 01's table: the register file's, without the screen start.
#[derive(Clone, Copy, Debug, PartialEq, Eq)]
pub struct Timing {
    pub h_total: Clocks,
    pub h_display: Clocks,
    pub h_blank_start: Clocks,
    pub h_blank_end: Clocks,
    pub h_sync_start: Clocks,
    pub h_sync_end: Clocks,
    pub v_total: Scanlines,
    pub v_display: Scanlines,
    pub v_blank_start: Scanlines,
    pub v_blank_end: Scanlines,
    pub v_sync_start: Scanlines,
    pub v_sync_end: Scanlines,
    pub line_compare: Scanlines,
    pub offset: u16,
}

// What the reader answers: every number is 0 where it refuses. A struct with its answer beside, and no Result: the README promises those zeros ('The
// portable sibling').
#[derive(Clone, Copy, Debug, PartialEq, Eq)]
pub struct Read {
    pub answer: Answer,
    pub timing: Timing,
}

impl Timing {
    // The numbers in table order, each in its low 16 bits, as a timing.
    pub fn of(numbers: [u32; 14]) -> Timing
        ensures { result ≡ timing_by (λ (k : ℕ). get_or numbers k 0 % 65536) }
    {
        Timing {
            h_total: Clocks((numbers[0] % 65536) as u16),
            h_display: Clocks((numbers[1] % 65536) as u16),
            h_blank_start: Clocks((numbers[2] % 65536) as u16),
            h_blank_end: Clocks((numbers[3] % 65536) as u16),
            h_sync_start: Clocks((numbers[4] % 65536) as u16),
            h_sync_end: Clocks((numbers[5] % 65536) as u16),
            v_total: Scanlines((numbers[6] % 65536) as u16),
            v_display: Scanlines((numbers[7] % 65536) as u16),
            v_blank_start: Scanlines((numbers[8] % 65536) as u16),
            v_blank_end: Scanlines((numbers[9] % 65536) as u16),
            v_sync_start: Scanlines((numbers[10] % 65536) as u16),
            v_sync_end: Scanlines((numbers[11] % 65536) as u16),
            line_compare: Scanlines((numbers[12] % 65536) as u16),
            offset: (numbers[13] % 65536) as u16,
        }
    }

    // A timing's numbers, in table order.
    pub fn numbers(self) -> [u32; 14]
        ensures { result ≡ numbers_of self }
    {
        [
            u32::from(self.h_total.0),
            u32::from(self.h_display.0),
            u32::from(self.h_blank_start.0),
            u32::from(self.h_blank_end.0),
            u32::from(self.h_sync_start.0),
            u32::from(self.h_sync_end.0),
            u32::from(self.v_total.0),
            u32::from(self.v_display.0),
            u32::from(self.v_blank_start.0),
            u32::from(self.v_blank_end.0),
            u32::from(self.v_sync_start.0),
            u32::from(self.v_sync_end.0),
            u32::from(self.line_compare.0),
            u32::from(self.offset),
        ]
    }
}

// CR11[7].
fn is_locked(cr11: u8) -> bool
    ensures { result ≡ eqb (bit 7 cr11) 1 }
{
    (cr11 >> 7) % 2 == 1
}

// The fourteen numbers of 28 bytes, CR00h to CR1Bh; none of another length.
pub fn read_timing(bytes: &[u8]) -> Read
    ensures { result ≡ read_timing bytes.now }
{
    let mut numbers = [0u32; 14];
    if bytes.len() != COUNT {
        return Read {
            answer: Answer::NotSound,
            timing: Timing::of(numbers),
        };
    }
    table::read(bytes, &mut numbers);
    Read {
        answer: Answer::Done(0),
        timing: Timing::of(numbers),
    }
}

// A timing written into 28 bytes, if they are not locked and every number is in its range.
pub fn write_timing(bytes: &mut [u8], timing: Timing) -> Answer
    ensures { Written bytes.old timing result bytes.new }
{
    if bytes.len() != COUNT {
        return Answer::NotSound;
    }
    if is_locked(bytes[0x11]) {
        return Answer::Locked;
    }
    let numbers = timing.numbers();
    if !table::in_range(&numbers) {
        return Answer::OutOfRange;
    }
    table::write(bytes, &numbers);
    Answer::Done(0)
}
