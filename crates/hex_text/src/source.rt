// An input that is a text for people or the bytes themselves, taken into a lent buffer.
ghost use Rattle.std.specs.Prelude.{◌≡◌};
ghost use Rattle.std.specs.List.{list_all};
ghost use Rattle.hex_text.specs.Promises.{BytesPut};
ghost use Rattle.hex_text.specs.Source.{printable as isPrintable, looks_like_text, SourceTaken, SourceEnded};

use crate::reading::{end_text, having_room, read_text};
use crate::state::HexText;

// Tells whether a byte is printable: 20h to 7Eh, tab, CR or LF.
#[tactic(auto, unfolding(crate::specs::Source::printable, crate::specs::Text::between))]
fn printable(byte: u8) -> bool
    ensures { result ≡ isPrintable byte }
{
    matches!(byte, 0x20..=0x7E | b'\t' | b'\n' | b'\r')
}

// Tells whether every byte is printable.
fn all_printable(bytes: &[u8]) -> bool
    ensures { result ≡ list_all isPrintable bytes.now }
{
    bytes.iter().all(|b| printable(*b))
}

// Tells whether bytes look like a text: there is one, and the first 64, or all where there are fewer, are printable.
pub fn looks_like_text(bytes: &[u8]) -> bool
    ensures { result ≡ looks_like_text bytes.now }
{
    if bytes.is_empty() {
        return false;
    }
    all_printable(&bytes[..bytes.len().min(64)])
}

// An input: the bytes themselves, or a text and how far that is read.
#[derive(Clone, Copy)]
pub enum Source {
    Bytes,
    Text(HexText),
}

// The input after a part of it, how many bytes of the part were used, and where the bytes that are held end in the buffer.
#[derive(Clone, Copy)]
pub struct TakenIn {
    pub source: Source,
    pub used: usize,
    pub held: usize,
}

// The input after its end, and where the bytes that are held end in the buffer.
#[derive(Clone, Copy)]
pub struct SourceOver {
    pub source: Source,
    pub held: usize,
}

// Copies bytes into the buffer from `at` on, as many as have room, and says how many these are.
#[tactic(auto, unfolding(crate::specs::Promises::fitting))]
fn copy_fitting(bytes: &[u8], buffer: &mut [u8], at: usize) -> usize
    ensures { BytesPut bytes.now buffer.old buffer.new at result }
{
    let count = having_room(bytes.len(), buffer, at);
    if count == 0 {
        return 0;
    }
    buffer[at..at + count].copy_from_slice(&bytes[..count]);
    count
}

// Takes in a part of an input, as many of its bytes as have room in the buffer from `held` on: what they give as a text, or the bytes themselves.
pub fn take_in(before: Source, raw: &[u8], input: &mut [u8], held: usize) -> TakenIn
    ensures { SourceTaken before raw.now input.old input.new held result }
{
    match before {
        Source::Bytes => {
            let count = copy_fitting(raw, input, held);
            TakenIn {
                source: before,
                used: count,
                held: held + count,
            }
        }
        Source::Text(text) => {
            let read = read_text(text, raw, input, held);
            TakenIn {
                source: Source::Text(read.text),
                used: read.used,
                held: read.end,
            }
        }
    }
}

// Ends an input: a text as `end_text` does, with nothing done where there is no room; of bytes nothing is left to do.
pub fn end_source(before: Source, input: &mut [u8], held: usize) -> Option<SourceOver>
    ensures { SourceEnded before input.old input.new held result }
{
    match before {
        Source::Bytes => Some(SourceOver {
            source: before,
            held,
        }),
        Source::Text(text) => {
            let over = end_text(text, input, held)?;
            Some(SourceOver {
                source: Source::Text(over.text),
                held: over.end,
            })
        }
    }
}
