// What is told on standard error of a refusal.
ghost use Rattle.job_portable.specs.Telling.{Told, not_read_line, not_written_line, refusal_line};

use text::{Placed, plain_text};

// Puts the line that tells `code` of a reader into `buffer`, from `at` on: 12, or else 11.
#[tactic(auto, unfolding(crate::specs::Telling::not_read_line, file::specs::Readers::ascii, text::specs::Text::newline))]
pub fn not_read_line(buffer: &mut [u8], at: usize, code: u8) -> Placed
    ensures { Told (not_read_line code) at buffer.old buffer.new result }
{
    match code {
        12 => plain_text(buffer, at, b"sedgecoil: code 12: there aren't 28 bytes\n"),
        _ => plain_text(buffer, at, b"sedgecoil: code 11: the line has no room\n"),
    }
}

// Puts the line that tells `code` of a writer into `buffer`, from `at` on: 8, 10, 12, or else 11.
fn refusal_line(buffer: &mut [u8], at: usize, code: u8) -> Placed
    ensures { Told (refusal_line code) at buffer.old buffer.new result }
{
    let text: &[u8] = match code {
        8 => b"sedgecoil: nothing is written, code 8: CR11[7] locks the bytes\n",
        10 => b"sedgecoil: nothing is written, code 10: a number is out of its range\n",
        12 => b"sedgecoil: nothing is written, code 12: there aren't 28 bytes\n",
        _ => b"sedgecoil: nothing is written, code 11: the bytes have no room\n",
    };
    plain_text(buffer, at, text)
}

// Puts the line that tells why nothing was written into `buffer`, from `at` on: the `code` of a list that there was, or else that the text was no list.
#[tactic(auto, unfolding(crate::specs::Telling::not_written_line, file::specs::Readers::ascii, text::specs::Text::newline))]
pub fn not_written_line(buffer: &mut [u8], at: usize, code: Option<u8>) -> Placed
    ensures { Told (not_written_line code) at buffer.old buffer.new result }
{
    match code {
        Some(code) => refusal_line(buffer, at, code),
        None => plain_text(
            buffer,
            at,
            b"sedgecoil: --write takes fourteen decimal numbers with one space between\n",
        ),
    }
}
