// The set with what was stored into or moved.
ghost use Rattle.std.specs.Prelude.{◌≡◌};
ghost use Rattle.touched.specs.Noted.{also as also_in, noted};

use crate::set::Touched;
use file::Reach;

// The marks, and one more where there is one.
fn also<const N: usize>(marks: [bool; N], more: bool, number: usize) -> [bool; N]
    ensures { result ≡ also_in more number marks.entry }
{
    let mut after = marks;
    if more && number < N {
        after[number] = true;
    }
    after
}

impl Touched {
    // The set with what a reach reaches.
    pub fn note(self, reach: Reach) -> Touched
        ensures { result ≡ noted reach self }
    {
        Touched {
            registers: also(self.registers, reach.bits != 0, reach.register),
            palette: also(self.palette, reach.palette, reach.entry),
            bank: also(self.bank, reach.bank, reach.entry),
            pointer: self.pointer | reach.pointer,
            marks: self.marks | reach.marks,
            toggle: self.toggle | reach.toggle,
        }
    }
}
