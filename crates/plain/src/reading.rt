// A read at a row.
ghost use Rattle.std.specs.Prelude.{◌≡◌, T};
ghost use Rattle.places.specs.EngineCells.{in_file};
ghost use Rattle.places.specs.Profile.{profile, gives_pixel};
ghost use Rattle.access.specs.Access.{shown_in};
ghost use Rattle.plain.specs.Told.{told_of_read};

use crate::row::Row;
use crate::told::{Told, leaving, with_state};
use access::{display_state, is_in_bank, is_palette_up, line_shown, palette_state, v_port_state};
use file::{ARX, Answer, BANK, File};
use places::Place;

// What a read at a row answers, and the file after it.
pub fn read_row(row: Row, whole: File) -> Told
    requires { T (in_file row.place) }
    ensures { result ≡ told_of_read whole (profile row.place).reading }
{
    let state = whole.state;
    let pointer = state.pointer;
    let chip = state.chip;
    let registers = &whole.registers;
    match row.place {
        Place::Register(number) | Place::Attribute(number) => {
            leaving(whole, Answer::Done(registers[number]))
        }
        Place::PaletteState => leaving(whole, Answer::Done(palette_state(registers, state))),
        Place::VPortState => leaving(whole, Answer::Done(v_port_state(registers, state))),
        Place::Fixed(value) => leaving(whole, Answer::Done(value)),
        Place::DeviceId => leaving(whole, Answer::Done(chip.device_id())),
        Place::ToggleState => leaving(whole, Answer::Done(if state.toggle { 0x80 } else { 0x00 })),
        Place::AttributeIndex => leaving(whole, Answer::Done(registers[ARX])),
        Place::ReadAddress => leaving(whole, Answer::Done(pointer.dac_state())),
        Place::WriteAddress => leaving(whole, Answer::Done(pointer.address as u16)),
        Place::PixelData => read_pixel(whole),
        Place::ToggleReset => Told {
            answer: Answer::Done(display_state(registers, state)),
            file: with_state(whole, state.toggling(false)),
        },
        Place::CurrentLine => leaving(whole, Answer::Done(line_shown(registers, state))),
        Place::Unnamed | Place::UnnamedAttribute | Place::Passing => {
            leaving(whole, Answer::NoRegister)
        }
    }
}

// Pixel data: code 9, or the component, and the pointer moves.
fn read_pixel(whole: File) -> Told
    ensures { result ≡ told_of_read whole gives_pixel }
{
    if !is_palette_up(&whole.registers) {
        return leaving(whole, Answer::PaletteDown);
    }
    let state = whole.state;
    let pointer = state.pointer;
    let after = state.stepping(pointer.after_read(), pointer.marks(true));
    Told {
        answer: Answer::Done(component(whole) as u16),
        file: with_state(whole, after),
    }
}

// The stored component of the next colour.
fn component(whole: File) -> u8
    ensures { result ≡ shown_in whole }
{
    let pointer = whole.state.pointer;
    let at = pointer.address as usize;
    if is_in_bank(&whole.registers) {
        let entry = whole.bank[at % BANK];
        return entry.component(pointer.next);
    }
    let entry = whole.palette[at];
    entry.component(pointer.next)
}
