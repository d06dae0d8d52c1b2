// A set of bytes, and the bytes of a set.
ghost use Rattle.std.specs.Prelude.{◌≡◌};
ghost use Rattle.image.specs.Parts.{set_bytes, set_in};

use crate::bytes::{flag_byte, flags_in, is_set, put_flags};
use file::{BANK, PALETTE, REGISTERS};
use touched::Touched;

pub const SET: usize = 383;

// The set of bytes.
pub fn set_in(bytes: [u8; SET]) -> Touched
    ensures { result ≡ set_in bytes }
{
    let mut registers = [false; REGISTERS];
    flags_in(&bytes[..108], &mut registers);
    let mut palette = [false; PALETTE];
    flags_in(&bytes[108..364], &mut palette);
    let mut bank = [false; BANK];
    flags_in(&bytes[364..380], &mut bank);
    Touched {
        registers,
        palette,
        bank,
        pointer: is_set(bytes[380]),
        marks: is_set(bytes[381]),
        toggle: is_set(bytes[382]),
    }
}

// The bytes of a set.
pub fn set_bytes(set: Touched) -> [u8; SET]
    ensures { result ≡ set_bytes set }
{
    let mut bytes = [0; SET];
    put_flags(&set.registers, &mut bytes, 0);
    put_flags(&set.palette, &mut bytes, 108);
    put_flags(&set.bank, &mut bytes, 364);
    bytes[380] = flag_byte(set.pointer);
    bytes[381] = flag_byte(set.marks);
    bytes[382] = flag_byte(set.toggle);
    bytes
}
