// Soundness where the parts stand: 01's test of registers and state, without the colours.
ghost use Rattle.std.specs.Prelude.{◌≡◌};
ghost use Rattle.image.specs.Parts.{sound_in};

use crate::parts::{REST, fits, state_in};
use file::{REGISTERS, are_sound};

// Registers and a rest are a sound file's.
pub fn is_file(registers: [u16; REGISTERS], rest: [u8; REST]) -> bool
    ensures { result ≡ sound_in registers rest }
{
    fits(&rest) && are_sound(registers, state_in(&rest))
}
