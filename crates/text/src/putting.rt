// Texts stored into a lent buffer. The buffer and the place go in and the place behind comes back, since `Wrote` speaks of what
// the buffer held before and what it holds then; a struct of the two would have to be taken apart for each caller that lends a buffer.
ghost use Rattle.std.specs.Prelude.{◌≡◌, ◌++◌, ◌+◌, ◌≤◌, ◌<◌, length};
ghost use Rattle.text.specs.Lent.{Wrote};
ghost use Rattle.text.specs.Text.{decimal};

use crate::number::{places, spell};
use crate::placed::has_room;

// Stores `text` from the place `at` of `buffer` on, which has room for it; the place behind it comes back.
pub fn store(text: &[u8], buffer: &mut [u8], at: usize) -> usize
    requires { at + length text.now ≤ length buffer.old }
    ensures { Wrote buffer.old at text.now buffer.new result }
{
    let end = at + text.len();
    buffer[at..end].copy_from_slice(text);
    end
}

// Stores the number `n` in decimal into a buffer that has room for it.
pub fn store_number(n: u64, buffer: &mut [u8], at: usize) -> usize
    requires { at + length (decimal n) ≤ length buffer.old }
    ensures { Wrote buffer.old at (decimal n) buffer.new result }
{
    spell(n, places(n), buffer, at)
}

// Stores `text` from the place `at` of `buffer` on; the place behind it comes back. Where it has no room, the buffer stays and `at` comes back.
pub fn put(text: &[u8], buffer: &mut [u8], at: usize) -> usize
    ensures stored { at + length text.now ≤ length buffer.old → Wrote buffer.old at text.now buffer.new result }
    ensures unstored { length buffer.old < at + length text.now → (buffer.new ≡ buffer.old) × (result ≡ at) }
{
    if has_room(buffer.len(), at, text.len()) {
        return store(text, buffer, at);
    }
    at
}

// Stores the number `n` in decimal; nothing where it has no room.
pub fn put_number(n: u64, buffer: &mut [u8], at: usize) -> usize
    ensures stored { at + length (decimal n) ≤ length buffer.old → Wrote buffer.old at (decimal n) buffer.new result }
    ensures unstored { length buffer.old < at + length (decimal n) → (buffer.new ≡ buffer.old) × (result ≡ at) }
{
    let size = places(n);
    if has_room(buffer.len(), at, size) {
        return spell(n, size, buffer, at);
    }
    at
}

// Stores `word` and the number `n` behind it; neither where both have no room.
pub fn put_behind(word: &[u8], n: u64, buffer: &mut [u8], at: usize) -> usize
    ensures stored { at + length (word.now ++ decimal n) ≤ length buffer.old → Wrote buffer.old at (word.now ++ decimal n) buffer.new result }
    ensures unstored { length buffer.old < at + length (word.now ++ decimal n) → (buffer.new ≡ buffer.old) × (result ≡ at) }
{
    let size = places(n);
    if has_room(buffer.len(), at, word.len() + size) {
        let end = store(word, buffer, at);
        return spell(n, size, buffer, end);
    }
    at
}
