ghost use Rattle.std.specs.Prelude.{◌≡◌};
ghost use Rattle.file.specs.State.{initial, pointing as pointingTo, stepping as steppingTo, toggling as togglingTo, flipped as flippedState, passing as passingTo};

use crate::chip::Chip;
use crate::palette::Pointer;

// The small parts of a file beside its registers and colours. The toggle says whether the next 3C0h write is data; the marks of the last pixel
// data access are what B0[2:0] reads; the chip stays what it was made; the line is the one that the display is at.
#[derive(Clone, Copy, Debug, PartialEq, Eq)]
pub struct State {
    pub line: u16,
    pub pointer: Pointer,
    pub marks: u8,
    pub toggle: bool,
    pub chip: Chip,
}

// Each part is set anew by a function of its own, as in `file/specs/State.antt`, since accesses and plans name the part that they move.
impl State {
    // The pointer at address 0, write mode, red, nothing held; the toggle at index; the marks at write, blue; line 0.
    pub fn power_on(chip: Chip) -> State
        ensures { result ≡ initial chip }
    {
        State {
            pointer: Pointer::addressed(false, 0),
            marks: 2,
            toggle: false,
            chip,
            line: 0,
        }
    }

    // The state with another pointer.
    #[tactic(auto, unfolding(crate::specs::State::pointing))]
    pub fn pointing(self, pointer: Pointer) -> State
        ensures { result ≡ pointingTo pointer self }
    {
        State { pointer, ..self }
    }

    // The state after a pixel data access: another pointer, and its marks.
    #[tactic(auto, unfolding(crate::specs::State::stepping))]
    pub fn stepping(self, next: Pointer, marks: u8) -> State
        ensures { result ≡ steppingTo next marks self }
    {
        State {
            pointer: next,
            marks,
            ..self
        }
    }

    // The state with the toggle as given.
    #[tactic(auto, unfolding(crate::specs::State::toggling))]
    pub fn toggling(self, toggle: bool) -> State
        ensures { result ≡ togglingTo toggle self }
    {
        State { toggle, ..self }
    }

    // The state after lines have passed: another line.
    #[tactic(auto, unfolding(crate::specs::State::passing))]
    pub fn passing(self, line: u16) -> State
        ensures { result ≡ passingTo line self }
    {
        State { line, ..self }
    }

    // The state with the toggle flipped, where it flips.
    pub fn flipped(self, flips: bool) -> State
        ensures { result ≡ flippedState flips self }
    {
        self.toggling(self.toggle != flips)
    }
}
