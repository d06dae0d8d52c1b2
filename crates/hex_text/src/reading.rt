// A part of a text, read into a lent buffer from a place on, and the end of a text.
ghost use Rattle.std.specs.Prelude.{◌≡◌, ◌+◌, ◌≤◌, ◌<◌, length};
ghost use Rattle.hex_text.specs.Machine.{bytes_of};
ghost use Rattle.hex_text.specs.Promises.{PartRead, Stored, TextEnded, TextPut, fitting};

use crate::state::{HexText, end_given, ended, gives, stepped};

// The text after a part of it, how many bytes of the part were used, and where its bytes end in the buffer.
#[derive(Clone, Copy)]
pub struct TextRead {
    pub text: HexText,
    pub used: usize,
    pub end: usize,
}

// The text after its end, and where its bytes end in the buffer.
#[derive(Clone, Copy)]
pub struct TextOver {
    pub text: HexText,
    pub end: usize,
}

// Puts the byte that is given, if there is one, at a place of the buffer, and gives the place after it.
fn put(one: Option<u8>, buffer: &mut [u8], at: usize) -> usize
    requires { at < length buffer.old }
    ensures { Stored (bytes_of one) buffer.old buffer.new at result }
{
    match one {
        None => at,
        Some(value) => {
            buffer[at] = value;
            at + 1
        }
    }
}

// Reads a part of a text that has room in the buffer from `at` on.
fn read_part(before: HexText, part: &[u8], buffer: &mut [u8], at: usize) -> TextRead
    requires { at + length part.now ≤ length buffer.old }
    ensures { PartRead before part.now buffer.old buffer.new at result }
{
    let mut text = before;
    let mut end = at;
    for byte in part {
        end = put(gives(text, *byte), buffer, end);
        text = stepped(text, *byte);
    }
    TextRead {
        text,
        used: part.len(),
        end,
    }
}

// Says how many of `count` have room in the buffer from `at` on.
#[tactic(auto, unfolding(crate::specs::Promises::fitting))]
pub fn having_room(count: usize, buffer: &[u8], at: usize) -> usize
    ensures { result ≡ fitting count buffer.now at }
{
    count.min(buffer.len().saturating_sub(at))
}

// Reads a part of a text, as many of its bytes as the buffer has room for from `at` on, and puts the bytes that they give there.
pub fn read_text(before: HexText, text: &[u8], buffer: &mut [u8], at: usize) -> TextRead
    ensures { TextPut before text.now buffer.old buffer.new at result }
{
    let count = having_room(text.len(), buffer, at);
    if count == 0 {
        return TextRead {
            text: before,
            used: 0,
            end: at,
        };
    }
    read_part(before, &text[..count], buffer, at)
}

// Ends a text: the word at hand is ended by it. Nothing is done where the buffer has no room at `at`.
pub fn end_text(before: HexText, buffer: &mut [u8], at: usize) -> Option<TextOver>
    ensures { TextEnded before buffer.old buffer.new at result }
{
    if at >= buffer.len() {
        return None;
    }
    let end = put(end_given(before), buffer, at);
    Some(TextOver {
        text: ended(before),
        end,
    })
}
