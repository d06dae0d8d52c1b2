// A line as it is written.
ghost use Rattle.std.specs.Prelude.{◌≡◌, ◌*◌, ◌/◌, ◌%◌, ◌^◌, ◌<◌, get_or, []};
ghost use Rattle.file.specs.Readers.{name_table};
ghost use Rattle.text.specs.Fixed.{behind};
ghost use Rattle.text.specs.Text.{decimal as decimalOf};
ghost use Rattle.explaining.specs.Lines.{columned, hex_of, token_text, told as told_by, up_to_dot};

use crate::token::Token;
use file::File;
use text::capital;

// A line of an explanation: 159 bytes at most before its newline.
pub type Line = text::Line<159>;

// Words up to the first dot.
fn words(line: Line, bytes: [u8; 24]) -> Line
    ensures { result ≡ behind line (up_to_dot bytes) }
{
    let mut after = line;
    for b in &bytes {
        if *b == b'.' {
            return after;
        }
        after = after.with_byte(*b);
    }
    after
}

// A register's name; nothing of a number that no register has.
fn name(line: Line, number: usize) -> Line
    ensures { result ≡ behind line (get_or name_table number []) }
{
    match File::name(number) {
        Some(own) => line.with_text(own),
        None => line,
    }
}

// A number in decimal.
fn decimal(line: Line, n: u64) -> Line
    ensures { result ≡ behind line (decimalOf n) }
{
    let mut digits = [0u8; 20];
    let count = io::decimal(n, &mut digits);
    line.with_text(&digits[..count])
}

// The hex digit at a place, counted from the last.
fn digit(n: u64, place: u8) -> u8
    ensures { (result ≡ n / 2 ^ (4 * place) % 16) × (result < 16) }
{
    if place >= 16 {
        return 0;
    }
    ((n >> (4 * place as u32)) % 16) as u8
}

// So many hex digits.
fn hex(line: Line, digits: u8, n: u64) -> Line
    ensures { result ≡ behind line (hex_of digits n) }
{
    let mut after = line;
    for i in 0..digits {
        after = after.with_byte(capital(digit(n, digits - 1 - i)));
    }
    after
}

// Spaces up to a column, and one where the column is reached.
pub fn column(line: Line, to: usize) -> Line
    ensures { result ≡ columned line to }
{
    let end = line.len();
    if end >= to {
        return line.with_byte(b' ');
    }
    let mut after = line;
    'spaces: for _ in end..to {
        after = after.with_byte(b' ');
    }
    after
}

// A token behind them.
fn token(line: Line, spoken: Token) -> Line
    ensures { result ≡ behind line (token_text spoken) }
{
    match spoken {
        Token::Words(bytes) => words(line, bytes),
        Token::Name(number) => name(line, number),
        Token::Decimal(number) => decimal(line, number),
        Token::Hex(digits, number) => hex(line, digits, number).with_byte(b'h'),
    }
}

// Eight tokens behind them.
pub fn told(line: Line, tokens: [Token; 8]) -> Line
    ensures { result ≡ told_by line tokens }
{
    let mut after = line;
    for spoken in &tokens {
        after = token(after, *spoken);
    }
    after
}
