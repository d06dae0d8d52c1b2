// Bits of numbers: the store rule, the pieces of split fields and tables of numbers in pieces. Nothing here knows a card.
#![tactic(auto)]

mod numbers;
mod pieces;
mod size;

ghost use Rattle.std.specs.Prelude.{◌≡◌, bit_xor};
ghost use Rattle.bits.specs.Store.{store as storeBits};

pub use numbers::{Meaning, Number, all_in_range, read_numbers, write_numbers};
pub use pieces::{gather, scatter, width};

// The old bits outside the reach, the value's inside it.
pub fn store(reach: u16, old: u16, value: u16) -> u16
    ensures { result ≡ storeBits reach old value }
{
    old ^ ((old ^ value) & reach)
}

// The bits of a value that are not stored.
pub fn stray(stored: u16, value: u16) -> u16
    ensures { result ≡ bit_xor value (storeBits stored 0 value) }
{
    value ^ store(stored, 0, value)
}
