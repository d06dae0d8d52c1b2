// What an answer means.
ghost use Rattle.std.specs.Prelude.{◌≡◌, ◌<◌, eqb};
ghost use Rattle.bits.specs.Store.{bit};
ghost use Rattle.file.specs.File.{register as registerIn};
ghost use Rattle.explaining.specs.Words.{access_why, answer_words, code_word, code_words, direction_words, done_words, down_words, half_words, inside_words, locked_words, malformed_word, malformed_words, off_words, passing_why, width_words};

use crate::token::{Token, choose, hex, named, none, phrase, say};
use crate::words::short;
use access::Record;
use file::{Answer, B0, CR0, CR1A, CR6, CR11, File, MISC, PCI04, REGISTERS};

// The codes that have words.
const CODES: usize = 18;

// Their words, each before dots.
const NAMES: [[u8; 24]; CODES] = [
    *b"done....................",
    *b"index names no register.",
    *b"malformed...............",
    *b"space off...............",
    *b"nothing there...........",
    *b"other half..............",
    *b"other width.............",
    *b"can only be read........",
    *b"........................",
    *b"palette down............",
    *b"........................",
    *b"........................",
    *b"the file is not sound...",
    *b"........................",
    *b"........................",
    *b"........................",
    *b"other direction.........",
    *b"inside a wider register.",
];

// What a register of a file holds.
pub fn register_of(file: File, number: usize) -> u16
    ensures { result ≡ registerIn file number }
{
    if number < REGISTERS {
        file.registers[number]
    } else {
        0
    }
}

// One bit of a register.
fn is_set(value: u16, place: u16) -> bool
    requires { place < 16 }
    ensures { result ≡ eqb (bit place value) 1 }
{
    (value >> place) % 2 == 1
}

// Code 8.
fn locked_words() -> [Token; 8]
    ensures { result ≡ locked_words }
{
    let lock = named(CR11);
    let locks = say(*b"[7] locks ..............");
    let first = named(CR0);
    let to = say(*b" to ....................");
    let last = named(CR6);
    let none = none();
    [lock, locks, first, to, last, none, none, none]
}

// What a code means, whatever the record, but for 8.
fn code_word(code: u8) -> Token
    ensures { result ≡ code_word code }
{
    let code = code as usize;
    if code >= CODES {
        return none();
    }
    let names = NAMES;
    say(names[code])
}

pub fn code_words(code: u8) -> [Token; 8]
    ensures { result ≡ code_words code }
{
    choose(code == 8, locked_words(), phrase([code_word(code)]))
}

// A write is done, and so are lines that pass; a read tells what it gave.
fn done_words(asked: Record, value: u16) -> [Token; 8]
    ensures { result ≡ done_words asked value }
{
    let what = hex(choose(asked.width == 1, 2, 4), u32::from(value));
    let read = phrase([say(*b"read ..................."), what]);
    choose(
        (asked.kind % 2 == 1) | (asked.kind == 6),
        code_words(0),
        read,
    )
}

// Lines that can't pass, and why.
fn passing_why(asked: Record) -> Token
    ensures { result ≡ passing_why asked }
{
    let lines = choose(
        asked.address != 0,
        say(*b"its address is not 0...."),
        say(*b"1 to 65535 lines........"),
    );
    choose(asked.width != 2, say(*b"its width is not 2......"), lines)
}

// An access that is none, and why.
fn access_why(asked: Record) -> Token
    ensures { result ≡ access_why asked }
{
    let value = choose(
        asked.kind % 2 == 1,
        say(*b"value beyond its width.."),
        say(*b"a read has no value....."),
    );
    let sized = (asked.width == 1) | (asked.width == 2);
    choose(sized, value, say(*b"no such width..........."))
}

fn malformed_word(asked: Record) -> Token
    ensures { result ≡ malformed_word asked }
{
    let known = choose(asked.kind == 6, passing_why(asked), access_why(asked));
    choose(6 < asked.kind, say(*b"no such kind............"), known)
}

// Code 2, and why.
fn malformed_words(whole: bool, asked: Record) -> [Token; 8]
    ensures { result ≡ malformed_words whole asked }
{
    phrase([choose(
        whole,
        malformed_word(asked),
        say(*b"bytes are missing......."),
    )])
}

// Code 3.
fn off_words(asked: Record) -> [Token; 8]
    ensures { result ≡ off_words asked }
{
    let bit = choose(
        asked.kind / 2 == 1,
        say(*b"[0]=0: ports off........"),
        say(*b"[1]=0: MMIO off........."),
    );
    phrase([named(PCI04), bit])
}

// Code 5, and the port of the other half.
fn half_words(file: File, asked: Record) -> [Token; 8]
    ensures { result ≡ half_words file asked }
{
    let bit = choose(
        is_set(register_of(file, MISC), 0),
        say(*b"[0]=1: use ............."),
        say(*b"[0]=0: use ............."),
    );
    phrase([named(MISC), bit, short(asked.address ^ 0x60)])
}

// Code 6.
fn width_words(asked: Record) -> [Token; 8]
    ensures { result ≡ width_words asked }
{
    phrase([choose(
        asked.width == 1,
        say(*b"its width is 2.........."),
        say(*b"its width is 1.........."),
    )])
}

// Code 9, and the first bit that has the palette down.
fn down_words(file: File) -> [Token; 8]
    ensures { result ≡ down_words file }
{
    let palette = phrase([named(B0), say(*b"[7]=1: palette down.....")]);
    let bit = choose(
        is_set(register_of(file, CR1A), 3),
        say(*b"[3]=1: palette down....."),
        say(*b"[2]=1: palette down....."),
    );
    let sync = phrase([named(CR1A), bit]);
    choose(is_set(register_of(file, B0), 7), palette, sync)
}

// Code 16.
fn direction_words(asked: Record) -> [Token; 8]
    ensures { result ≡ direction_words asked }
{
    phrase([choose(
        asked.kind % 2 == 1,
        say(*b"held for reads only....."),
        say(*b"held for writes only...."),
    )])
}

// Code 17, and where the register is.
fn inside_words(asked: Record) -> [Token; 8]
    ensures { result ≡ inside_words asked }
{
    phrase([
        say(*b"inside the register at ."),
        short(asked.address.saturating_sub(1)),
    ])
}

// What an answer to a record means; of a fragment, whose bytes are missing.
pub fn answer_words(file: File, asked: Record, whole: bool, answer: Answer) -> [Token; 8]
    ensures { result ≡ answer_words file asked whole answer }
{
    match answer {
        Answer::Done(value) => done_words(asked, value),
        Answer::NoRegister => code_words(1),
        Answer::Malformed => malformed_words(whole, asked),
        Answer::SpaceOff => off_words(asked),
        Answer::NotHeld => code_words(4),
        Answer::OtherHalf => half_words(file, asked),
        Answer::WrongWidth => width_words(asked),
        Answer::ReadOnly => code_words(7),
        Answer::Locked => code_words(8),
        Answer::PaletteDown => down_words(file),
        Answer::OutOfRange => phrase([none()]),
        Answer::ShortBuffer => phrase([none()]),
        Answer::NotSound => code_words(12),
        Answer::NotBeforeRed => phrase([none()]),
        Answer::OtherChip => phrase([none()]),
        Answer::OtherDirection => direction_words(asked),
        Answer::InsideWider => inside_words(asked),
    }
}
