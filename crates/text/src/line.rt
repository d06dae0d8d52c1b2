// The line of a record, and the lines of replies.
ghost use Rattle.std.specs.Prelude.{◌≡◌, ◌++◌, ℕ, ◌+◌, ◌*◌, ◌≤◌, ◌<◌, leb, length, get_or};
ghost use Rattle.trace.specs.Records.{two as twoIn};
ghost use Rattle.text.specs.Counted.{Next, Spells};
ghost use Rattle.text.specs.Lent.{Lined, Wrote, room_answer};
ghost use Rattle.text.specs.Text.{all_lines, decimal, decimal_places, hex_four, line_of, lines_answer, newline, numbers_fit, reply_lines, space};

use crate::number::{byte, hex, places, spell};
use crate::placed::{Placed, has_room};
use crate::putting::{store, store_number};
use file::Answer;
use trace::two;

// A record's number, code and value, from a place of the buffer on; code 11 where the line has no room.
pub fn record_line(buffer: &mut [u8], at: usize, number: u64, code: u8, value: u16) -> Placed
    ensures { Lined (room_answer buffer.old at (line_of number code value)) at (line_of number code value) buffer.old buffer.new result }
{
    if has_room(buffer.len(), at, line_size(number, code)) {
        return Placed::stored(line(number, code, value, buffer, at));
    }
    Placed::no_room(at)
}

// The lines of the whole 8-byte replies, numbered from a number on, from a place of the buffer on; code 10 where a number has more than 64
// bits, code 11 where the lines have no room.
pub fn reply_lines(buffer: &mut [u8], at: usize, number: u64, replies: &[u8]) -> Placed
    ensures { Lined (lines_answer buffer.old at number replies.now) at (all_lines number replies.now) buffer.old buffer.new result }
{
    let count = replies.len() / 8;
    if !numbers_fit(number, count) {
        return Placed {
            answer: Answer::OutOfRange,
            end: at,
        };
    }
    if lines_fit(number, count, replies, buffer.len(), at) {
        return Placed::stored(lines(number, count, replies, buffer, at));
    }
    Placed::no_room(at)
}

// So many lines have numbers of 64 bits, from a number on.
pub fn numbers_fit(number: u64, count: usize) -> bool
    ensures { result ≡ numbers_fit number count }
{
    if count == 0 {
        return true;
    }
    count as u64 - 1 <= u64::MAX - number
}

// The lines of so many replies have room from a place on. A line has at most 30 bytes: where as many lines of 30 have room, none is counted.
fn lines_fit(number: u64, count: usize, replies: &[u8], room: usize, at: usize) -> bool
    requires count_in_bounds { 8 * count ≤ length replies.now }
    requires count_bound { number + count ≤ 18446744073709551616 }
    ensures { result ≡ leb (at + length (reply_lines count number replies.now)) room }
{
    if room < at {
        return false;
    }
    if count <= (room - at) / 30 {
        return true;
    }
    counted_fit(number, count, replies, room - at)
}

// The same in so many bytes, line by line.
fn counted_fit(number: u64, count: usize, replies: &[u8], room: usize) -> bool
    requires count_in_bounds { 8 * count ≤ length replies.now }
    requires count_bound { number + count ≤ 18446744073709551616 }
    ensures { result ≡ leb (length (reply_lines count number replies.now)) room }
{
    let mut left = room;
    for n in 0..count {
        let size = line_size(number + n as u64, replies[8 * n]);
        if left < size {
            return false;
        }
        left -= size;
    }
    true
}

// How many bytes a record's line has, whatever its value.
fn line_size(number: u64, code: u8) -> usize
    ensures { (value : ℕ) → result ≡ length (line_of number code value) }
{
    places(number) + places(u64::from(code)) + 7
}

// The lines of so many replies, from a place of a buffer that has room for them on; the place behind them. The number is counted up in its
// digits; behind a 9 it is spelled, and so is the first.
fn lines(number: u64, count: usize, replies: &[u8], buffer: &mut [u8], at: usize) -> usize
    requires count_in_bounds { 8 * count ≤ length replies.now }
    requires replies_in_bounds { at + length (reply_lines count number replies.now) ≤ length buffer.old }
    requires count_bound { number + count ≤ 18446744073709551616 }
    ensures { Wrote buffer.old at (reply_lines count number replies.now) buffer.new result }
{
    let mut figures = [b'9'; 20];
    let mut size: usize = 1;
    let mut at = at;
    for n in 0..count {
        size = count_up(number + n as u64, &mut figures, size);
        at = reply_line(&figures[..size], replies, 8 * n, buffer, at);
    }
    at
}

// The digits of a number from those of the one before it, whose last goes up by one; behind a 9 all are spelled. How many there are.
fn count_up(number: u64, figures: &mut [u8; 20], size: usize) -> usize
    requires size_nonzero { (0 < size) × (size ≤ 20) }
    requires next { Next number figures.old size }
    ensures result_nonzero { (0 < result) × (result ≤ 20) }
    ensures spells { Spells number figures.new result }
{
    let last = figures[size - 1];
    if last < b'9' {
        figures[size - 1] = last + 1;
        return size;
    }
    let size = places(number);
    spell(number, size, figures, 0);
    size
}

// The line of the reply from a place on, whose number has these digits.
fn reply_line(figures: &[u8], replies: &[u8], from: usize, buffer: &mut [u8], at: usize) -> usize
    requires from_in_bounds { from + 8 ≤ length replies.now }
    requires from_in_bounds_2 { at + length figures.now + decimal_places (get_or replies.now from 0) (get_or replies.now from 0) + 7 ≤ length buffer.old }
    ensures { (number : ℕ) → figures.now ≡ decimal number → Wrote buffer.old at (line_of number (get_or replies.now from 0) (twoIn replies.now (from + 4))) buffer.new result }
{
    let value = two(replies[from + 4], replies[from + 5]);
    let at = store(figures, buffer, at);
    behind_number(replies[from], value, buffer, at)
}

// A record's line, from a place of a buffer that has room for it on; the place behind it.
fn line(number: u64, code: u8, value: u16, buffer: &mut [u8], at: usize) -> usize
    requires { at + length (line_of number code value) ≤ length buffer.old }
    ensures { Wrote buffer.old at (line_of number code value) buffer.new result }
{
    let at = store_number(number, buffer, at);
    behind_number(code, value, buffer, at)
}

// What a record's line has behind the number.
fn behind_number(code: u8, value: u16, buffer: &mut [u8], at: usize) -> usize
    requires { at + decimal_places code code + 7 ≤ length buffer.old }
    ensures { Wrote buffer.old at (space ++ decimal code ++ space ++ hex_four value ++ newline) buffer.new result }
{
    let at = byte(b' ', buffer, at);
    let at = store_number(u64::from(code), buffer, at);
    let at = byte(b' ', buffer, at);
    let at = hex(value, buffer, at);
    byte(b'\n', buffer, at)
}
