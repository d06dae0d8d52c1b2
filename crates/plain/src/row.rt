// A row of the list, read off its line.
ghost use Rattle.std.specs.Prelude.{◌≡◌, ◌+◌, ◌<◌};
ghost use Rattle.plain.specs.Rows.{columns, digit as digitOf, two_digits, four_digits, place_named, row_of};

use crate::list::COLUMNS;
use places::Place;

// The first letters of its space and of its index, as the line has them, the number that the index has to be, and the other columns. A row where lines
// pass is among those that read: its kind of record, 6, is even as theirs are.
#[derive(Clone, Copy)]
pub struct Row {
    pub space: u8,
    pub address: u16,
    pub index: u8,
    pub nth: u16,
    pub reads: bool,
    pub writes: bool,
    pub width: u8,
    pub stored: u16,
    pub place: Place,
}

// The row that a line says.
#[tactic(auto, unfolding(crate::specs::Rows::row_of))]
pub fn row_of(line: &[u8; COLUMNS]) -> Row
    ensures { result ≡ row_of line.now }
{
    let place = place_named(line[24], four_digits(line, 30));
    Row {
        space: line[0],
        address: four_digits(line, 4),
        index: line[9],
        nth: two_digits(line, 11),
        reads: line[14] != b' ',
        writes: line[15] != b' ',
        width: line[17] % 16,
        stored: four_digits(line, 19),
        place,
    }
}

// What stands there, by a letter and a number.
#[tactic(auto, unfolding(crate::specs::Rows::place_named))]
fn place_named(letter: u8, number: u16) -> Place
    ensures { result ≡ place_named letter number }
{
    match letter {
        b'r' => Place::Register(number as usize),
        b'a' => Place::Attribute(number as usize),
        b'm' => Place::PaletteState,
        b'v' => Place::VPortState,
        b'g' => Place::Fixed(number),
        b'c' => Place::DeviceId,
        b't' => Place::ToggleState,
        b'i' => Place::AttributeIndex,
        b'd' => Place::ReadAddress,
        b'w' => Place::WriteAddress,
        b'p' => Place::PixelData,
        b's' => Place::ToggleReset,
        b'b' => Place::CurrentLine,
        b'l' => Place::Passing,
        b'f' => Place::UnnamedAttribute,
        _ => Place::Unnamed,
    }
}

#[tactic(auto, unfolding(crate::specs::Rows::four_digits))]
fn four_digits(line: &[u8; COLUMNS], at: usize) -> u16
    requires { at + 3 < columns }
    ensures { result ≡ four_digits line.now at }
{
    256 * two_digits(line, at) + two_digits(line, at + 2)
}

#[tactic(auto, unfolding(crate::specs::Rows::two_digits))]
fn two_digits(line: &[u8; COLUMNS], at: usize) -> u16
    requires { at + 1 < columns }
    ensures { (result ≡ two_digits line.now at) × (result < 256) }
{
    16 * digit(line[at]) + digit(line[at + 1])
}

// A hexadecimal digit; a blank counts as 0.
#[tactic(auto, unfolding(crate::specs::Rows::digit))]
fn digit(byte: u8) -> u16
    ensures { (result ≡ digitOf byte) × (result < 16) }
{
    let number = u16::from(byte);
    if byte < b'A' {
        number % 16
    } else {
        (number + 9) % 16
    }
}
