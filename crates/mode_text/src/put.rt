// The parts of a line, stored into a buffer that has room for them.
ghost use Rattle.std.specs.Prelude.{[], ◌∷◌, ◌++◌, map, ◌≡◌, ◌+◌, ◌%◌, ◌≤◌, length};
ghost use Rattle.io.specs.Digits.{last_digits, hex_digit_ascii};
ghost use Rattle.text.specs.Lent.{Wrote};
ghost use Rattle.text.specs.Text.{decimal};
ghost use Rattle.modes.specs.Form.{flags_text, header, numbers_text, spelled};
ghost use Rattle.mode_text.specs.Out.{clock_out, flags_out, parts_with};

use text::{plain_text, spaced_numbers};

// The line of these parts, from the buffer's start on; how many bytes it has.
pub fn put_line(
    name: &[u8],
    khz: u32,
    numbers: &[u32],
    h_minus: bool,
    v_minus: bool,
    buffer: &mut [u8],
) -> usize
    requires { length (spelled (parts_with name.now khz numbers.now h_minus v_minus)) ≤ length buffer.old }
    ensures { Wrote buffer.old 0 (spelled (parts_with name.now khz numbers.now h_minus v_minus)) buffer.new result }
{
    let at = put_name(name, buffer);
    let at = put_clock(khz, buffer, at);
    let at = put_numbers(numbers, buffer, at);
    put(flags(h_minus, v_minus), buffer, at)
}

// A text from a place on; the place behind it.
fn put(text: &[u8], buffer: &mut [u8], at: usize) -> usize
    requires { at + length text.now ≤ length buffer.old }
    ensures { Wrote buffer.old at text.now buffer.new result }
{
    plain_text(buffer, at, text).end
}

// Numbers, each behind a space.
fn put_numbers(numbers: &[u32], buffer: &mut [u8], at: usize) -> usize
    requires { at + length (numbers_text (map decimal numbers.now)) ≤ length buffer.old }
    ensures { Wrote buffer.old at (numbers_text (map decimal numbers.now)) buffer.new result }
{
    spaced_numbers(buffer, at, &[], numbers).end
}

// The word, a quote, the name and a quote, from the start on.
fn put_name(name: &[u8], buffer: &mut [u8]) -> usize
    requires { length name.now + 11 ≤ length buffer.old }
    ensures { Wrote buffer.old 0 ((header ++ name.now) ++ 0x22 ∷ []) buffer.new result }
{
    let at = put(b"Modeline \"", buffer, 0);
    let at = put(name, buffer, at);
    put(b"\"", buffer, at)
}

// A number's last digit.
fn digit(n: u32) -> u8
    ensures { result ≡ hex_digit_ascii (n % 10) }
{
    b'0' + (n % 10) as u8
}

// A point and three decimals.
fn decimals(n: u32) -> [u8; 4]
    ensures { result ≡ 0x2E ∷ last_digits 10 3 n }
{
    [b'.', digit(n / 10 / 10), digit(n / 10), digit(n)]
}

// A space and the clock in MHz, with three decimals.
fn put_clock(khz: u32, buffer: &mut [u8], at: usize) -> usize
    requires { at + length (0x20 ∷ clock_out khz) ≤ length buffer.old }
    ensures { Wrote buffer.old at (0x20 ∷ clock_out khz) buffer.new result }
{
    let at = put_numbers(&[khz / 1000], buffer, at);
    put(&decimals(khz % 1000), buffer, at)
}

// The text of both flags, horizontal first.
#[tactic(auto, unfolding(modes::specs::Form::flags_text, modes::specs::Form::flag_text, modes::specs::Form::sign, modes::specs::Form::letter, crate::specs::Out::flags_out))]
fn flags(h_minus: bool, v_minus: bool) -> &'static [u8]
    ensures { result.now ≡ flags_text (flags_out h_minus v_minus) }
{
    match (h_minus, v_minus) {
        (true, true) => b" -hsync -vsync",
        (true, false) => b" -hsync +vsync",
        (false, true) => b" +hsync -vsync",
        (false, false) => b" +hsync +vsync",
    }
}
