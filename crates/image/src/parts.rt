// A file of registers and a rest, and the rest of a file.
ghost use Rattle.std.specs.Prelude.{◌≡◌, ◌*◌, get_or};
ghost use Rattle.image.specs.Parts.{chip_byte, chip_in, state_bytes, state_in, fits_in, rest_of, held_in};

use crate::bytes::{colours_in, flag_byte, is_set, put_bytes, put_colours, two};
use file::{BANK, Chip, Colour, File, PALETTE, Pointer, REGISTERS, State};

pub const REST: usize = 826;

const BLACK: Colour = Colour {
    red: 0,
    green: 0,
    blue: 0,
};

fn chip_byte(chip: Chip) -> u8
    ensures { result ≡ chip_byte chip }
{
    match chip {
        Chip::Gd5462 => 0,
        Chip::Gd5464 => 1,
    }
}

fn chip_in(byte: u8) -> Chip
    ensures { result ≡ chip_in byte }
{
    if byte == 0 {
        Chip::Gd5462
    } else {
        Chip::Gd5464
    }
}

// The ten bytes of a state.
pub fn state_bytes(state: State) -> [u8; 10]
    ensures { result ≡ state_bytes state }
{
    let pointer = state.pointer;
    let chip = state.chip;
    [
        (state.line % 256) as u8,
        (state.line / 256) as u8,
        pointer.address,
        flag_byte(pointer.reading),
        pointer.next,
        pointer.red,
        pointer.green,
        state.marks,
        flag_byte(state.toggle),
        chip_byte(chip),
    ]
}

// A byte; one that is missing counts as zero.
fn byte_at(bytes: &[u8], at: usize) -> u8
    ensures { result ≡ get_or bytes.now at 0 }
{
    bytes.get(at).copied().unwrap_or(0)
}

// The state of a rest.
pub fn state_in(rest: &[u8]) -> State
    ensures { result ≡ state_in rest.now }
{
    let pointer = Pointer {
        address: byte_at(rest, 2),
        reading: is_set(byte_at(rest, 3)),
        next: byte_at(rest, 4),
        red: byte_at(rest, 5),
        green: byte_at(rest, 6),
    };
    State {
        line: two(byte_at(rest, 0), byte_at(rest, 1)),
        pointer,
        marks: byte_at(rest, 7),
        toggle: is_set(byte_at(rest, 8)),
        chip: chip_in(byte_at(rest, 9)),
    }
}

// Mode, toggle and chip are 0 or 1.
#[tactic(auto, unfolding(crate::specs::Parts::fits_in))]
pub fn fits(rest: &[u8]) -> bool
    ensures { result ≡ fits_in rest.now }
{
    byte_at(rest, 3) <= 1 && byte_at(rest, 8) <= 1 && byte_at(rest, 9) <= 1
}

// The file of registers and a rest.
pub fn held(registers: [u16; REGISTERS], rest: [u8; REST]) -> File
    ensures { result ≡ held_in registers rest }
{
    let mut palette = [BLACK; PALETTE];
    colours_in(&rest[10..778], &mut palette);
    let mut bank = [BLACK; BANK];
    colours_in(&rest[778..826], &mut bank);
    File {
        registers,
        palette,
        bank,
        state: state_in(&rest),
    }
}

// The rest of a file.
pub fn rest_of(file: File) -> [u8; REST]
    ensures { result ≡ rest_of file }
{
    let mut rest = [0; REST];
    put_bytes(&state_bytes(file.state), &mut rest, 0);
    put_colours(&file.palette, &mut rest, 10);
    put_colours(&file.bank, &mut rest, 778);
    rest
}
