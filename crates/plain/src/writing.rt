// A write at a row, or lines that pass.
ghost use Rattle.std.specs.Prelude.{◌≡◌, ◌<◌, T};
ghost use Rattle.file.specs.Registers.{register_count};
ghost use Rattle.places.specs.EngineCells.{in_file, takes_bytes};
ghost use Rattle.places.specs.Profile.{profile, stores_to, sets_address, writes_pixel, passes_lines};
ghost use Rattle.file.specs.Effects.{paint_in};
ghost use Rattle.access.specs.Access.{in_bank, entry_number};
ghost use Rattle.plain.specs.Told.{row_reach, write_told, pixel_written};

use crate::row::Row;
use crate::told::{Told, leaving, with_state};
use access::{is_in_bank, is_locked, is_locked_out, is_palette_up, line_after};
use file::{Answer, B0, BANK, CAPTURE_Y_START, CR7, Colour, File, Pointer};
use places::Place;

// What a write at a row answers, and the file after it. The pointer's places take a byte.
pub fn write_row(row: Row, whole: File, value: u16) -> Told
    requires t { T (in_file row.place) }
    requires value_bound { T (takes_bytes (profile row.place).writing) → value < 256 }
    ensures { result ≡ write_told whole row.stored (profile row.place).writing value }
{
    let state = whole.state;
    let place = row.place;
    match place {
        Place::Register(number) => write_register(row, whole, number, false, value),
        Place::Attribute(number) => write_register(row, whole, number, true, value),
        Place::PaletteState => write_register(row, whole, B0, false, value),
        Place::VPortState => write_register(row, whole, CAPTURE_Y_START, false, value),
        Place::ReadAddress => write_address(whole, true, value as u8),
        Place::WriteAddress => write_address(whole, false, value as u8),
        Place::PixelData => write_pixel(whole, value as u8),
        Place::Fixed(_)
        | Place::DeviceId
        | Place::ToggleState
        | Place::AttributeIndex
        | Place::ToggleReset
        | Place::CurrentLine => leaving(whole, Answer::ReadOnly),
        Place::Passing => pass_lines(whole, value),
        Place::Unnamed => leaving(whole, Answer::NoRegister),
        Place::UnnamedAttribute => Told {
            answer: Answer::NoRegister,
            file: with_state(whole, state.toggling(!state.toggle)),
        },
    }
}

// A register: code 8, or its bits inside the reach are the value's, and the others stay. An attribute register's write flips the toggle.
fn write_register(row: Row, whole: File, number: usize, flips: bool, value: u16) -> Told
    requires { number < register_count }
    ensures { result ≡ write_told whole row.stored (stores_to number flips) value }
{
    if is_locked_out(&whole.registers, number) {
        return leaving(whole, Answer::Locked);
    }
    let reach = reach(row, whole, number);
    let mut file = whole;
    let old = file.registers[number];
    file.registers[number] = bits::store(reach, old, value);
    Told {
        answer: Answer::Done(0),
        file: with_state(file, whole.state.flipped(flips)),
    }
}

// The bits that a write may change: the row's stored bits; under the lock bit 4 alone of CR7.
fn reach(row: Row, whole: File, number: usize) -> u16
    ensures { result ≡ row_reach whole row.stored number }
{
    if is_locked(&whole.registers) && number == CR7 {
        0x10
    } else {
        row.stored
    }
}

// 3C7h and 3C8h: the pointer at a new address, in read or write mode.
fn write_address(whole: File, reading: bool, address: u8) -> Told
    ensures { result ≡ write_told whole 0 (sets_address reading) address }
{
    let pointer = Pointer::addressed(reading, address);
    Told {
        answer: Answer::Done(0),
        file: with_state(whole, whole.state.pointing(pointer)),
    }
}

// Pixel data: code 9, or stored.
fn write_pixel(whole: File, byte: u8) -> Told
    ensures { result ≡ write_told whole 0 writes_pixel byte }
{
    if !is_palette_up(&whole.registers) {
        return leaving(whole, Answer::PaletteDown);
    }
    Told {
        answer: Answer::Done(0),
        file: store_pixel(whole, byte),
    }
}

// Pixel data where the palette is up: at blue an entry is stored, and the pointer moves.
fn store_pixel(whole: File, byte: u8) -> File
    ensures { result ≡ pixel_written whole byte }
{
    let state = whole.state;
    let pointer = state.pointer;
    let after = state.stepping(pointer.after_write(byte), pointer.marks(false));
    if pointer.stores() {
        return with_state(store_entry(whole, pointer.mixed(byte)), after);
    }
    with_state(whole, after)
}

// The entry that the pointer names, of the bank or the palette, stored.
fn store_entry(whole: File, colour: Colour) -> File
    ensures { result ≡ paint_in (in_bank whole) (entry_number whole) colour whole }
{
    let pointer = whole.state.pointer;
    let at = pointer.address as usize;
    let mut file = whole;
    if is_in_bank(&whole.registers) {
        file.bank[at % BANK] = colour;
    } else {
        file.palette[at] = colour;
    }
    file
}

// Lines pass.
fn pass_lines(whole: File, lines: u16) -> Told
    ensures { result ≡ write_told whole 0 passes_lines lines }
{
    let line = line_after(&whole.registers, whole.state, lines);
    Told {
        answer: Answer::Done(0),
        file: with_state(whole, whole.state.passing(line)),
    }
}
