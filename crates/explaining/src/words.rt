// A record, the place that it found and its answer, in words.
ghost use Rattle.std.specs.Prelude.{◌≡◌};
ghost use Rattle.explaining.specs.Words.{access_words, bytes_word, comma_word, equals_word, fixed_words, found as found_in, found_words, has_value, has_width, item_words, looked_words, passing_found, passing_words, place_words, read_address_word, record_words, short as shortToken, space_word, value_digits, value_token, way_word, width_token, write_address_word};

use crate::token::{Token, choose, decimal, hex, named, none, phrase, say};
use access::Record;
use file::{B0, CAPTURE_Y_START, File};
use places::Place;

// An address, in two hex digits at least.
pub fn short(n: u16) -> Token
    ensures { result ≡ shortToken n }
{
    hex(choose(n < 0x100, 2, choose(n < 0x1000, 3, 4)), u32::from(n))
}

fn space_word(kind: u8) -> Token
    ensures { result ≡ space_word kind }
{
    let other = choose(
        kind / 2 == 1,
        say(*b"port ..................."),
        say(*b"MMIO ..................."),
    );
    choose(kind / 2 == 0, say(*b"config ................."), other)
}

// A write has a value, and a bad read.
#[tactic(auto, unfolding(access::specs::Checks::is_write))]
fn has_value(asked: Record) -> bool
    ensures { result ≡ has_value asked }
{
    asked.kind % 2 == 1 || asked.value != 0
}

fn value_digits(asked: Record) -> u8
    ensures { result ≡ value_digits asked }
{
    let byte = (asked.width == 1) & (asked.value < 0x100);
    choose(byte, 2, choose(asked.value < 0x10000, 4, 8))
}

// The width, where the digits don't tell it.
#[tactic(auto, unfolding(access::specs::Checks::is_write))]
fn has_width(asked: Record) -> bool
    ensures { result ≡ has_width asked }
{
    let byte = (asked.width == 1) & (asked.value < 0x100);
    let word = (asked.kind % 2 == 1) & (asked.width == 2) & (asked.value < 0x10000);
    !byte & !word
}

// This one, and those of the two addresses below, each have words of their own and nothing else, so they stay three.
fn way_word(asked: Record) -> Token
    ensures { result ≡ way_word asked }
{
    choose(
        asked.kind % 2 == 1,
        say(*b"write .................."),
        say(*b"read ..................."),
    )
}

fn equals_word(asked: Record) -> Token
    ensures { result ≡ equals_word asked }
{
    choose(has_value(asked), say(*b" = ....................."), none())
}

fn value_token(asked: Record) -> Token
    ensures { result ≡ value_token asked }
{
    let value = hex(value_digits(asked), asked.value);
    choose(has_value(asked), value, none())
}

fn comma_word(asked: Record) -> Token
    ensures { result ≡ comma_word asked }
{
    choose(has_width(asked), say(*b", ......................"), none())
}

fn width_token(asked: Record) -> Token
    ensures { result ≡ width_token asked }
{
    choose(has_width(asked), decimal(asked.width as u64), none())
}

fn bytes_word(asked: Record) -> Token
    ensures { result ≡ bytes_word asked }
{
    let bytes = choose(
        asked.width == 1,
        say(*b" byte..................."),
        say(*b" bytes.................."),
    );
    choose(has_width(asked), bytes, none())
}

// An access.
fn access_words(asked: Record) -> [Token; 8]
    ensures { result ≡ access_words asked }
{
    let space = space_word(asked.kind);
    let way = way_word(asked);
    let address = short(asked.address);
    let equals = equals_word(asked);
    let value = value_token(asked);
    let comma = comma_word(asked);
    let width = width_token(asked);
    let bytes = bytes_word(asked);
    [space, way, address, equals, value, comma, width, bytes]
}

// Lines that pass, with width and address where they aren't 2 and 0.
fn passing_words(asked: Record) -> [Token; 8]
    ensures { result ≡ passing_words asked }
{
    let odd = !((asked.width == 2) & (asked.address == 0));
    let none = none();
    let pass = say(*b"lines pass .............");
    let lines = decimal(asked.value as u64);
    let wide = choose(odd, say(*b", width ................"), none);
    let width = choose(odd, decimal(asked.width as u64), none);
    let at = choose(odd, say(*b" at ...................."), none);
    let address = choose(odd, short(asked.address), none);
    [pass, lines, wide, width, at, address, none, none]
}

// A record: an access, lines that pass, or a kind that there is none of.
fn record_words(asked: Record) -> [Token; 8]
    ensures { result ≡ record_words asked }
{
    let lines = passing_words(asked);
    let unknown = phrase([
        say(*b"kind ..................."),
        decimal(asked.kind as u64),
    ]);
    let other = choose(asked.kind == 6, lines, unknown);
    choose(asked.kind < 6, access_words(asked), other)
}

// A record of a trace, or the fragment at its end.
pub fn item_words(whole: bool, asked: Record) -> [Token; 8]
    ensures { result ≡ item_words whole asked }
{
    let fragment = phrase([say(*b"fragment................")]);
    choose(whole, record_words(asked), fragment)
}

// What is written at 3C7h and 3C8h, and what is read there.
fn read_address_word(asked: Record) -> Token
    ensures { result ≡ read_address_word asked }
{
    choose(
        asked.kind % 2 == 1,
        say(*b"read address............"),
        say(*b"DAC state..............."),
    )
}

fn write_address_word(asked: Record) -> Token
    ensures { result ≡ write_address_word asked }
{
    choose(
        asked.kind % 2 == 1,
        say(*b"write address..........."),
        say(*b"palette address........."),
    )
}

// What a place is called.
fn place_words(asked: Record, place: Place) -> [Token; 8]
    ensures { result ≡ place_words asked place }
{
    match place {
        Place::Register(number) => phrase([named(number)]),
        Place::Attribute(number) => phrase([named(number), say(*b" by 3C0h................")]),
        Place::Fixed(value) => fixed_words(value),
        Place::DeviceId => phrase([say(*b"PCI02...................")]),
        Place::ToggleState => phrase([say(*b"CR24....................")]),
        Place::AttributeIndex => phrase([say(*b"CR26....................")]),
        Place::PaletteState => phrase([named(B0)]),
        Place::VPortState => phrase([named(CAPTURE_Y_START)]),
        Place::ReadAddress => phrase([read_address_word(asked)]),
        Place::WriteAddress => phrase([write_address_word(asked)]),
        Place::PixelData => phrase([say(*b"pixel data..............")]),
        Place::ToggleReset => phrase([say(*b"display state...........")]),
        Place::Unnamed => phrase([say(*b"no register.............")]),
        Place::UnnamedAttribute => phrase([say(*b"no register by 3C0h.....")]),
        Place::CurrentLine => phrase([say(*b"line....................")]),
        Place::Passing => phrase([say(*b"line....................")]),
    }
}

// SR6 and PCI00, by what they read.
fn fixed_words(value: u16) -> [Token; 8]
    ensures { result ≡ fixed_words value }
{
    phrase([choose(
        value == 0x1013,
        say(*b"PCI00..................."),
        say(*b"SR6....................."),
    )])
}

// Where a record looked, in words.
fn found_words(asked: Record, found: Option<Place>) -> [Token; 8]
    ensures { result ≡ found_words asked found }
{
    match found {
        Some(place) => place_words(asked, place),
        None => phrase([say(*b"nothing held............")]),
    }
}

// The same with the record's code: what wasn't looked at, and what is held in another way.
pub fn looked_words(whole: bool, code: u8, asked: Record, found: Option<Place>) -> [Token; 8]
    ensures { result ≡ looked_words whole code asked found }
{
    let unseen = phrase([say(*b"not looked at...........")]);
    let other = phrase([say(*b"held otherwise..........")]);
    let seen = choose(
        (code == 16) | (code == 17),
        other,
        found_words(asked, found),
    );
    choose(!whole | (code == 12), unseen, seen)
}

// What stands at a kind and an address; lines that pass stand in no space.
pub fn find(file: File, asked: Record) -> Option<Place>
    ensures { result ≡ found_in file asked }
{
    if !file::is_sound(file) {
        return None;
    }
    let kind = asked.kind;
    if kind >= 6 {
        return passing_found(asked);
    }
    let registers = file.registers;
    let state = file.state;
    let chip = state.chip;
    let cells = places::cells(chip);
    let cell = places::cell_at(&cells, kind, asked.address);
    if places::is_nothing(cell) {
        return None;
    }
    Some(places::place_of(&cells, &registers, state, cell))
}

fn passing_found(asked: Record) -> Option<Place>
    ensures { result ≡ passing_found asked }
{
    if asked.kind == 6 {
        if asked.address == 0 {
            return Some(Place::Passing);
        }
    }
    None
}
