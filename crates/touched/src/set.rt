ghost use Rattle.std.specs.Prelude.{◌≡◌};
ghost use Rattle.touched.specs.Things.{nothing as nothingNamed};

use file::{BANK, PALETTE, REGISTERS};

// Of each register, entry of the palette and entry of the bank, of the pointer, the marks and the toggle, whether the set names it.
#[derive(Clone, Copy)]
pub struct Touched {
    pub registers: [bool; REGISTERS],
    pub palette: [bool; PALETTE],
    pub bank: [bool; BANK],
    pub pointer: bool,
    pub marks: bool,
    pub toggle: bool,
}

impl Touched {
    // The set of a file that is new or was just saved or restored.
    pub fn nothing() -> Touched
        ensures { result ≡ nothingNamed }
    {
        Touched {
            registers: [false; REGISTERS],
            palette: [false; PALETTE],
            bank: [false; BANK],
            pointer: false,
            marks: false,
            toggle: false,
        }
    }
}
