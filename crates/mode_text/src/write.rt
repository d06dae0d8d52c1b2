// A line from a file, a name and a clock.
ghost use Rattle.std.specs.Prelude.{◌≡◌, eqb};
ghost use Rattle.bits.specs.Store.{bit};
ghost use Rattle.mode_text.specs.Out.{WroteFrom};

use crate::fits::{is_asked, numbers_out, of_form};
use crate::put::put_line;
use file::{File, MISC, is_sound};
use mode_file::Verdict;
use timing::read_timing;

// MISC[6].
#[tactic(auto, unfolding(bits::specs::Store::bit))]
fn h_minus(misc: u16) -> bool
    ensures { result ≡ eqb (bit 6 misc) 1 }
{
    misc / 64 % 2 == 1
}

// MISC[7].
#[tactic(auto, unfolding(bits::specs::Store::bit))]
fn v_minus(misc: u16) -> bool
    ensures { result ≡ eqb (bit 7 misc) 1 }
{
    misc / 128 % 2 == 1
}

// The line of a file's timing and flags, with this name and this clock, from the buffer's start on: how many bytes it has, or why there is none.
pub fn write_from(file: File, name: &[u8], khz: u32, buffer: &mut [u8]) -> Result<usize, Verdict>
    ensures { WroteFrom file name.now khz buffer.old buffer.new result }
{
    if !is_sound(file) {
        return Err(Verdict::NotSound);
    }
    if !is_asked(name, khz, buffer.len()) {
        return Err(Verdict::OutOfForm);
    }
    let timing = read_timing(file).timing;
    if !of_form(timing) {
        return Err(Verdict::OtherTiming);
    }
    let misc = file.registers[MISC];
    let numbers = numbers_out(timing);
    Ok(put_line(name, khz, &numbers, h_minus(misc), v_minus(misc), buffer))
}
