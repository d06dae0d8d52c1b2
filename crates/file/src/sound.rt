ghost use Rattle.std.specs.Prelude.{◌≡◌};
ghost use Rattle.file.specs.File.{seen};
ghost use Rattle.file.specs.Palette.{marks_sound, pointer_sound};
ghost use Rattle.file.specs.Sound.{sound};
ghost use Rattle.file.specs.State.{state_sound};

use crate::palette::Pointer;
use crate::registers::{File, REGISTERS};
use crate::state::State;

// No bit outside the table of the file's chip is set, and the state is one that accesses can reach.
pub fn is_sound(file: File) -> bool
    ensures { result ≡ sound file }
{
    let registers = file.registers;
    are_sound(registers, file.state)
}

// A file with these registers and this state is sound: colours play no part in it.
pub fn are_sound(registers: [u16; REGISTERS], state: State) -> bool
    ensures { result ≡ sound (seen registers state) }
{
    let table = File::stored(state.chip);
    let mut stray: u16 = 0;
    for (stored, value) in table.iter().zip(&registers) {
        stray |= bits::stray(*stored, *value);
    }
    stray == 0 && state_sound(state)
}

// The marks name a direction and a colour, the pointer is one that its steps can reach, and the line one that lines pass to.
#[tactic(auto, unfolding(crate::specs::State::state_sound, crate::specs::State::last_line))]
pub fn state_sound(state: State) -> bool
    ensures { result ≡ state_sound state }
{
    marks_sound(state.marks) && pointer_sound(state.pointer) && state.line <= 2048
}

// Direction 0 or 1, colour 0 to 2.
#[tactic(auto, unfolding(crate::specs::Palette::marks_sound))]
fn marks_sound(marks: u8) -> bool
    ensures { result ≡ marks_sound marks }
{
    marks / 4 <= 1 && marks % 4 <= 2
}

// The next colour is 0 to 2, green is held before blue only, and red after red only.
#[tactic(auto, unfolding(crate::specs::Palette::pointer_sound, crate::specs::Palette::by_colour))]
fn pointer_sound(pointer: Pointer) -> bool
    ensures { result ≡ pointer_sound pointer }
{
    match pointer.next {
        0 => pointer.red == 0 && pointer.green == 0,
        1 => pointer.green == 0,
        next => next == 2,
    }
}
