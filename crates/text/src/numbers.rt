// A line of a word and numbers: the timing line, and those of the cursor, of window 2 and of the capture window; and the parts of such a line by themselves.
ghost use Rattle.std.specs.Prelude.{◌≡◌, false, ◌++◌, ◌+◌, ◌≤◌, leb, length, get_or};
ghost use Rattle.text.specs.Lent.{Lined, Wrote, room_answer};
ghost use Rattle.text.specs.Text.{capture_line, cursor_line, numbers_line, signed, space, spaced, timing_line, window_2_line};

use crate::number::{byte, places};
use crate::placed::{Placed, has_room};
use crate::putting::{store, store_number};
use timing::Timing;

// The word timing and the fifteen numbers, from a place of the buffer on; code 11 where the line has no room.
pub fn timing_line(buffer: &mut [u8], at: usize, timing: Timing) -> Placed
    ensures { Lined (room_answer buffer.old at (timing_line timing)) at (timing_line timing) buffer.old buffer.new result }
{
    let numbers = timing.numbers();
    numbers_line(buffer, at, b"timing", &[], &numbers)
}

// The word cursor, and enabled, left, top, width, height and address, with a minus before left and before top where they are below 0.
pub fn cursor_line(
    buffer: &mut [u8],
    at: usize,
    left_minus: bool,
    top_minus: bool,
    numbers: [u32; 6],
) -> Placed
    ensures { Lined (room_answer buffer.old at (cursor_line left_minus top_minus numbers)) at (cursor_line left_minus top_minus numbers) buffer.old buffer.new result }
{
    let minus = [false, left_minus, top_minus];
    numbers_line(buffer, at, b"cursor", &minus, &numbers)
}

// The lines of window 2 and of the capture window differ in their word and in how many numbers they have, both of which 01 fixes: two public functions.

// The word window2, and enabled, format, left, top, right, bottom, empty, fault, and the BLT's first and last scanline.
pub fn window2_line(buffer: &mut [u8], at: usize, numbers: [u32; 10]) -> Placed
    ensures { Lined (room_answer buffer.old at (window_2_line numbers)) at (window_2_line numbers) buffer.old buffer.new result }
{
    numbers_line(buffer, at, b"window2", &[], &numbers)
}

// The word capture, and start and stop across, in pixel clocks, and down, in incoming scanlines.
pub fn capture_line(buffer: &mut [u8], at: usize, numbers: [u32; 4]) -> Placed
    ensures { Lined (room_answer buffer.old at (capture_line numbers)) at (capture_line numbers) buffer.old buffer.new result }
{
    numbers_line(buffer, at, b"capture", &[], &numbers)
}

// A text, from a place of the buffer on; code 11 where it has no room.
pub fn plain_text(buffer: &mut [u8], at: usize, text: &[u8]) -> Placed
    ensures { Lined (room_answer buffer.old at text.now) at text.now buffer.old buffer.new result }
{
    if has_room(buffer.len(), at, text.len()) {
        return Placed::stored(store(text, buffer, at));
    }
    Placed::no_room(at)
}

// Numbers, each behind a space and a minus where it is marked, from a place of the buffer on; code 11 where they have no room.
pub fn spaced_numbers(buffer: &mut [u8], at: usize, minus: &[bool], numbers: &[u32]) -> Placed
    ensures { Lined (room_answer buffer.old at (spaced minus.now numbers.now)) at (spaced minus.now numbers.now) buffer.old buffer.new result }
{
    if all_fit(minus, numbers, buffer.len(), at) {
        return Placed::stored(spell_each(minus, numbers, buffer, at));
    }
    Placed::no_room(at)
}

// A word and numbers behind it, from a place of the buffer on.
pub fn numbers_line(
    buffer: &mut [u8],
    at: usize,
    word: &[u8],
    minus: &[bool],
    numbers: &[u32],
) -> Placed
    ensures { Lined (room_answer buffer.old at (numbers_line word.now minus.now numbers.now)) at (numbers_line word.now minus.now numbers.now) buffer.old buffer.new result }
{
    if !line_fits(word, minus, numbers, buffer.len(), at) {
        return Placed::no_room(at);
    }
    let at = store(word, buffer, at);
    let at = spell_each(minus, numbers, buffer, at);
    Placed::stored(byte(b'\n', buffer, at))
}

// The word, the numbers and the newline have room from a place on.
fn line_fits(word: &[u8], minus: &[bool], numbers: &[u32], room: usize, at: usize) -> bool
    ensures { result ≡ leb (at + length (numbers_line word.now minus.now numbers.now)) room }
{
    let around = word.len() + 1;
    if has_room(room, at, around) {
        return spaced_fit(minus, numbers, room - around - at);
    }
    false
}

// The numbers have room from a place on.
fn all_fit(minus: &[bool], numbers: &[u32], room: usize, at: usize) -> bool
    ensures { result ≡ leb (at + length (spaced minus.now numbers.now)) room }
{
    if room < at {
        return false;
    }
    spaced_fit(minus, numbers, room - at)
}

// The numbers, each behind a space, take no more than so many bytes.
fn spaced_fit(minus: &[bool], numbers: &[u32], room: usize) -> bool
    ensures { result ≡ leb (length (spaced minus.now numbers.now)) room }
{
    let mut left = room;
    for (i, n) in numbers.iter().enumerate() {
        let size = behind_size(mark(minus, i), u64::from(*n));
        if left < size {
            return false;
        }
        left -= size;
    }
    true
}

// The numbers, each behind a space, from a place on; the place behind them.
fn spell_each(minus: &[bool], numbers: &[u32], buffer: &mut [u8], at: usize) -> usize
    requires { at + length (spaced minus.now numbers.now) ≤ length buffer.old }
    ensures { Wrote buffer.old at (spaced minus.now numbers.now) buffer.new result }
{
    let mut at = at;
    for (i, n) in numbers.iter().enumerate() {
        at = spell_behind(mark(minus, i), u64::from(*n), buffer, at);
    }
    at
}

// A mark; one that is missing is off.
fn mark(marks: &[bool], i: usize) -> bool
    ensures { result ≡ get_or marks.now i false }
{
    marks.get(i).copied().unwrap_or(false)
}

// How many bytes a number takes behind a space.
fn behind_size(minus: bool, n: u64) -> usize
    ensures { result ≡ length (space ++ signed minus n) }
{
    if minus { places(n) + 2 } else { places(n) + 1 }
}

// A space and a number behind it, from a place on; the place behind them.
fn spell_behind(minus: bool, n: u64, buffer: &mut [u8], at: usize) -> usize
    requires { at + length (space ++ signed minus n) ≤ length buffer.old }
    ensures { Wrote buffer.old at (space ++ signed minus n) buffer.new result }
{
    let at = byte(b' ', buffer, at);
    if minus {
        let at = byte(b'-', buffer, at);
        return store_number(n, buffer, at);
    }
    store_number(n, buffer, at)
}
