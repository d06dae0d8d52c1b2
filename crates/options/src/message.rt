// What is said of wrong words.
ghost use Rattle.std.specs.Prelude.{◌≡◌};
ghost use Rattle.escaping.specs.Escaped.{TextPut};
ghost use Rattle.options.specs.Lines.{line_most};
ghost use Rattle.options.specs.Messages.{filled as filledBy, message, name_of, piece_of, wrong_line};
ghost use Rattle.text.specs.Fixed.{behind, blank};

use crate::line::{Line, add_word};
use crate::names::command_name;
use crate::types::{Command, Refused, Wrong};
use crate::words::word_at;
use text::{Placed, plain_text};

// The most bytes that the line of `wrong_line` has.
pub const WRONG_LINE_MOST: usize = 400;

// Gives the name of `command`, if there is one.
#[tactic(auto, unfolding(crate::specs::Messages::name_of))]
fn name_of(command: Option<Command>) -> &'static [u8]
    ensures { result.now ≡ name_of command }
{
    match command {
        Some(command) => command_name(command),
        None => b"",
    }
}

// Adds to `line` what the byte `b` of a message stands for: the command for a '%', the wrong word for a '@', and else itself.
fn add_piece(line: Line, b: u8, refused: Refused, words: &[u8]) -> Line
    ensures { result ≡ behind line (piece_of refused words.now b) }
{
    match b {
        b'%' => line.with_text(name_of(refused.command)),
        b'@' => add_word(line, word_at(words, refused.word)),
        _ => line.with_byte(b),
    }
}

// Adds `message` to `line`, with the command and the wrong word in their places.
fn add_message(line: Line, message: &[u8], refused: Refused, words: &[u8]) -> Line
    ensures { result ≡ behind line (filledBy refused words.now message.now) }
{
    let mut after = line;
    for b in message {
        after = add_piece(after, *b, refused, words);
    }
    after
}

// Gives what is said of `wrong`.
#[tactic(auto, unfolding(crate::specs::Messages::message, file::specs::Readers::ascii))]
fn message(wrong: Wrong) -> &'static [u8]
    ensures { result.now ≡ message wrong }
{
    match wrong {
        Wrong::NoCommand => b"no command; 'sedgecoil help' lists them",
        Wrong::UnknownCommand => b"no command '@'; 'sedgecoil help' lists them",
        Wrong::UnknownOption => b"% has no option '@'; 'sedgecoil % --help' lists them",
        Wrong::NoValue => b"@ takes a value",
        Wrong::NoTwoValues => b"@ takes two values",
        Wrong::NoSuchChip => b"--chip is 5462 or 5464, not '@'",
        Wrong::NoSuchEngine => b"--engine is quick or plain, not '@'",
        Wrong::NotWithValue => b"@ takes no value after '='",
        Wrong::Twice => b"@ is given twice",
        Wrong::WideWithOf => b"--wide and --of exclude each other",
        Wrong::NoFile => b"% takes one FILE, and there is none",
        Wrong::OneFileMore => b"% takes one FILE, and '@' is one more",
        Wrong::EmptyName => b"the name of a FILE is empty",
        Wrong::BothStandardInput => b"--since and FILE are both standard input",
        Wrong::TooManyWords => b"more than 64 words",
        Wrong::TooLong => b"the words are too long",
    }
}

// Gives the line that tells what is wrong with `words`: the program's name before it, and a newline after it.
fn told_wrong(refused: Refused, words: &[u8]) -> Line
    ensures { result ≡ behind (blank line_most) (wrong_line refused words.now) }
{
    let line = Line::blank().with_text(b"sedgecoil: ");
    let line = add_message(line, message(refused.wrong), refused, words);
    line.with_byte(b'\n')
}

// Puts one line that tells what is wrong with `words`, from the place `at` of `buffer` on; code 11 where it has no room.
pub fn wrong_line(buffer: &mut [u8], at: usize, refused: Refused, words: &[u8]) -> Placed
    ensures { TextPut (wrong_line refused words.now) at buffer.old buffer.new result }
{
    let line = told_wrong(refused, words);
    plain_text(buffer, at, line.text())
}
