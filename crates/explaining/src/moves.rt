// Which timing numbers an access may move.
ghost use Rattle.std.specs.Prelude.{◌≡◌, true, ◌≤◌, ◌<◌};
ghost use Rattle.file.specs.Names.{CR0 as CR0Number, CR1E as CR1ENumber};
ghost use Rattle.explaining.specs.Moves.{may_move, moved_table, number_count, number_label, read_bits};

use crate::token::{Token, none, phrase, say};
use file::{CR0, CR1A, CR1E, Reach};

// How many timing numbers there are.
pub const NUMBERS: usize = 15;

// Their names, each before dots.
const NAMES: [[u8; 24]; NUMBERS] = [
    *b"H total.................",
    *b"H display...............",
    *b"H blank start...........",
    *b"H blank end.............",
    *b"H sync start............",
    *b"H sync end..............",
    *b"V total.................",
    *b"V display...............",
    *b"V blank start...........",
    *b"V blank end.............",
    *b"V sync start............",
    *b"V sync end..............",
    *b"line compare............",
    *b"offset..................",
    *b"screen start............",
];

// A row for each of CR0 to CR1E: the bits that each number of a wide file is read from; an end is read from its start's too, and a blank end from the
// two bits that say whether the file is wide.
const MOVED: [u8; 450] = *b"\
\xFF\x00\x00\x00\x00\x00\x00\x00\x00\x00\x00\x00\x00\x00\x00\
\x00\xFF\x00\x00\x00\x00\x00\x00\x00\x00\x00\x00\x00\x00\x00\
\x00\x00\xFF\xFF\x00\x00\x00\x00\x00\x00\x00\x00\x00\x00\x00\
\x00\x00\x00\x1F\x00\x00\x00\x00\x00\x00\x00\x00\x00\x00\x00\
\x00\x00\x00\x00\xFF\xFF\x00\x00\x00\x00\x00\x00\x00\x00\x00\
\x00\x00\x00\x80\x00\x1F\x00\x00\x00\x00\x00\x00\x00\x00\x00\
\x00\x00\x00\x00\x00\x00\xFF\x00\x00\x00\x00\x00\x00\x00\x00\
\x00\x00\x00\x00\x00\x00\x21\x42\x08\x08\x84\x84\x10\x00\x00\
\x00\x00\x00\x00\x00\x00\x00\x00\x00\x00\x00\x00\x00\x00\x00\
\x00\x00\x00\x00\x00\x00\x00\x00\x20\x20\x00\x00\x40\x00\x00\
\x00\x00\x00\x00\x00\x00\x00\x00\x00\x00\x00\x00\x00\x00\x00\
\x00\x00\x00\x00\x00\x00\x00\x00\x00\x00\x00\x00\x00\x00\x00\
\x00\x00\x00\x00\x00\x00\x00\x00\x00\x00\x00\x00\x00\x00\xFF\
\x00\x00\x00\x00\x00\x00\x00\x00\x00\x00\x00\x00\x00\x00\xFF\
\x00\x00\x00\x00\x00\x00\x00\x00\x00\x00\x00\x00\x00\x00\x00\
\x00\x00\x00\x00\x00\x00\x00\x00\x00\x00\x00\x00\x00\x00\x00\
\x00\x00\x00\x00\x00\x00\x00\x00\x00\x00\xFF\xFF\x00\x00\x00\
\x00\x00\x00\x00\x00\x00\x00\x00\x00\x00\x00\x0F\x00\x00\x00\
\x00\x00\x00\x00\x00\x00\x00\xFF\x00\x00\x00\x00\x00\x00\x00\
\x00\x00\x00\x00\x00\x00\x00\x00\x00\x00\x00\x00\x00\xFF\x00\
\x00\x00\x00\x00\x00\x00\x00\x00\x00\x00\x00\x00\x00\x00\x00\
\x00\x00\x00\x00\x00\x00\x00\x00\xFF\xFF\x00\x00\x00\x00\x00\
\x00\x00\x00\x00\x00\x00\x00\x00\x00\xFF\x00\x00\x00\x00\x00\
\x00\x00\x00\x00\x00\x00\x00\x00\x00\x00\x00\x00\x00\x00\x00\
\x00\x00\x00\x00\x00\x00\x00\x00\x00\x00\x00\x00\xFF\x00\x00\
\x00\x00\x00\x00\x00\x00\x00\x00\x00\x00\x00\x00\x00\x00\x00\
\x00\x00\x00\x30\x00\x00\x00\x00\x00\xC0\x00\x00\x00\x00\x00\
\x00\x00\x00\xA0\x00\x00\x00\x00\x00\xA0\x00\x00\x00\x10\x0D\
\x00\x00\x00\x00\x00\x00\x00\x00\x00\x00\x00\x00\x00\x00\x18\
\x80\x40\x20\x20\x10\x10\x08\x04\x02\x02\x01\x01\x00\x00\x00";

fn moved_bits() -> [u8; 450]
    ensures { result ≡ moved_table }
{
    MOVED
}

// An entry of the table.
fn moved_at(register: usize, k: usize) -> u16
    requires le_register { CR0Number ≤ register }
    requires register_bound { register ≤ CR1ENumber }
    requires k_lt_number_count { k < number_count }
    ensures { result ≡ read_bits true register k }
{
    let moved = moved_bits();
    moved[NUMBERS * (register - CR0) + k] as u16
}

// The bits of a register that a number is read from. In a narrow file CR1A has none.
fn read_bits(wide: bool, register: usize, k: usize) -> u16
    requires { k < number_count }
    ensures { result ≡ read_bits wide register k }
{
    if register < CR0 {
        return 0;
    }
    if register > CR1E {
        return 0;
    }
    if register == CR1A {
        if wide {
            return moved_at(register, k);
        }
        return 0;
    }
    moved_at(register, k)
}

// A number has a bit in a reach.
pub fn may_move(wide: bool, reach: Reach, k: usize) -> bool
    requires { k < number_count }
    ensures { result ≡ may_move wide reach k }
{
    reach.bits & read_bits(wide, reach.register, k) != 0
}

// A number's name; of a number that there isn't nothing.
pub fn number_label(k: usize) -> [Token; 8]
    ensures { result ≡ number_label k }
{
    let space = say(*b" .......................");
    if k >= NUMBERS {
        return phrase([none(), space]);
    }
    let names = NAMES;
    let name = names[k];
    phrase([say(name), space])
}
