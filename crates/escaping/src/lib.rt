// Bytes of any kind as text that is safe on a terminal.
#![tactic(auto)]

ghost use Rattle.std.specs.Prelude.{◌≡◌, ◌+◌, ◌≤◌, leb, length};
ghost use Rattle.text.specs.Lent.{Wrote};
ghost use Rattle.escaping.specs.Escaped.{TextPut, escape, escaped_byte, escaped_text, is_plain};

use text::{Placed, capital, put};

// Tells whether the byte `b` is put as it is: 20h to 7Eh, but neither a backslash nor a quote.
#[tactic(auto, unfolding(crate::specs::Escaped::is_plain))]
fn is_plain(b: u8) -> bool
    ensures { result ≡ is_plain b }
{
    b >= 0x20 && b <= 0x7E && b != b'\\' && b != 0x27
}

// Counts the bytes that the byte `b` is put as.
fn byte_size(b: u8) -> usize
    ensures { result ≡ length (escaped_byte b) }
{
    if is_plain(b) { 1 } else { 4 }
}

// Puts the byte `b` as \x and two hex digits at the place `at` of `buffer`, which has room for them; gives the place after them.
fn put_escape(b: u8, buffer: &mut [u8], at: usize) -> usize
    requires { at + 4 ≤ length buffer.old }
    ensures { Wrote buffer.old at (escape b) buffer.new result }
{
    put(&[b'\\', b'x', capital(b / 16), capital(b % 16)], buffer, at)
}

// Puts the byte `b` at the place `at` of `buffer`, which has room for it; gives the place after what was put.
fn put_byte(b: u8, buffer: &mut [u8], at: usize) -> usize
    requires { at + length (escaped_byte b) ≤ length buffer.old }
    ensures { Wrote buffer.old at (escaped_byte b) buffer.new result }
{
    if is_plain(b) {
        return put(&[b], buffer, at);
    }
    put_escape(b, buffer, at)
}

// Tells whether `bytes`, escaped, take no more than `room` bytes.
fn text_fits(bytes: &[u8], room: usize) -> bool
    ensures { result ≡ leb (length (escaped_text bytes.now)) room }
{
    let mut left = room;
    for b in bytes {
        let size = byte_size(*b);
        if left < size {
            return false;
        }
        left -= size;
    }
    true
}

// Tells whether `bytes`, escaped, have room from the place `at` on in a buffer of `room` bytes.
fn has_room(bytes: &[u8], room: usize, at: usize) -> bool
    ensures { result ≡ leb (at + length (escaped_text bytes.now)) room }
{
    if room < at {
        return false;
    }
    text_fits(bytes, room - at)
}

// Puts `bytes`, escaped, from the place `at` of `buffer` on, which has room for them; gives the place after them.
fn put_text(bytes: &[u8], buffer: &mut [u8], at: usize) -> usize
    requires { at + length (escaped_text bytes.now) ≤ length buffer.old }
    ensures { Wrote buffer.old at (escaped_text bytes.now) buffer.new result }
{
    let mut at = at;
    for b in bytes {
        at = put_byte(*b, buffer, at);
    }
    at
}

// Puts `bytes`, escaped, from the place `at` of `buffer` on; code 11 where they have no room.
pub fn escaped(buffer: &mut [u8], at: usize, bytes: &[u8]) -> Placed
    ensures { TextPut (escaped_text bytes.now) at buffer.old buffer.new result }
{
    if has_room(bytes, buffer.len(), at) {
        return Placed::stored(put_text(bytes, buffer, at));
    }
    Placed::no_room(at)
}
