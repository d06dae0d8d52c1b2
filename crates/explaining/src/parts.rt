// A line for each part of a file that a record may change.
ghost use Rattle.std.specs.Prelude.{◌≡◌};
ghost use Rattle.explaining.specs.Explained.{bit_digits, byte_token, changed, colour_code, colour_word, marks_words, part_line, pointer_code, pointer_words, register_part, toggle_words};

use crate::line::{Line, column, told};
use crate::token::{Token, choose, decimal, hex, named, none, phrase, say};
use file::{Colour, Pointer};

// The column of what may change.
const REACH: usize = 65;

// What stood there, and what stands there now.
pub fn change(line: Line, before: [Token; 8], after: [Token; 8], moved: bool) -> Line
    ensures { result ≡ changed line before after moved }
{
    let way = phrase([choose(
        moved,
        say(*b" -> ...................."),
        say(*b", not moved............."),
    )]);
    let last = choose(moved, after, phrase([none()]));
    told(told(told(line, before), way), last)
}

// A line below a record's first: its number again, and a part that is in reach.
pub fn part_line(
    number: u64,
    shown: bool,
    label: [Token; 8],
    before: [Token; 8],
    after: [Token; 8],
    moved: bool,
) -> Line
    ensures { result ≡ part_line number shown label before after moved }
{
    if !shown {
        return Line::blank();
    }
    let start = column(told(Line::blank(), phrase([decimal(number)])), REACH);
    change(told(start, label), before, after, moved)
}

pub fn bit_digits(bits: u16) -> u8
    ensures { result ≡ bit_digits bits }
{
    choose(bits < 0x100, 2, 4)
}

// A register in reach, and its bits that are.
pub fn register_part(line: Line, number: usize, bits: u16, old: u16, new: u16) -> Line
    ensures { result ≡ register_part line number bits old new }
{
    let digits = bit_digits(bits);
    let name = named(number);
    let reach = hex(digits, u32::from(bits));
    let label = phrase([
        name,
        say(*b"[......................."),
        reach,
        say(*b"] ......................"),
    ]);
    let before = phrase([hex(digits, u32::from(old))]);
    let after = phrase([hex(digits, u32::from(new))]);
    change(told(column(line, REACH), label), before, after, old != new)
}

pub fn toggle_words(toggle: bool) -> [Token; 8]
    ensures { result ≡ toggle_words toggle }
{
    phrase([choose(
        toggle,
        say(*b"data...................."),
        say(*b"index..................."),
    )])
}

fn colour_word(n: u8) -> Token
    ensures { result ≡ colour_word n }
{
    let other = choose(
        n == 1,
        say(*b"green..................."),
        say(*b"blue...................."),
    );
    choose(n == 0, say(*b"red....................."), other)
}

fn byte_token(n: u8) -> Token
    ensures { result ≡ byte_token n }
{
    hex(2, n as u32)
}

pub fn pointer_words(p: Pointer) -> [Token; 8]
    ensures { result ≡ pointer_words p }
{
    let address = byte_token(p.address);
    let mode = choose(
        p.reading,
        say(*b" read .................."),
        say(*b" write ................."),
    );
    let next = colour_word(p.next);
    let held = say(*b", held .................");
    let red = byte_token(p.red);
    let space = say(*b" .......................");
    let green = byte_token(p.green);
    let none = none();
    [address, mode, next, held, red, space, green, none]
}

// A pointer as one number.
pub fn pointer_code(p: Pointer) -> u64
    ensures { result ≡ pointer_code p }
{
    let address = u64::from(p.address) * 2 + u64::from(p.reading);
    ((address * 256 + u64::from(p.next)) * 256 + u64::from(p.red)) * 256 + u64::from(p.green)
}

pub fn marks_words(marks: u8) -> [Token; 8]
    ensures { result ≡ marks_words marks }
{
    let way = choose(
        marks / 4 == 1,
        say(*b"read ..................."),
        say(*b"write .................."),
    );
    phrase([way, colour_word(marks % 4)])
}

// A colour as one number of three bytes.
pub fn colour_code(c: Colour) -> u32
    ensures { result ≡ colour_code c }
{
    (c.red as u32 * 256 + c.green as u32) * 256 + c.blue as u32
}
