// Numbers as text, stored into a buffer that has room for them.
ghost use Rattle.std.specs.Prelude.{[], ◌∷◌, ◌≡◌, ◌+◌, ◌%◌, ◌≤◌, ◌<◌, length};
ghost use Rattle.io.specs.Digits.{last_digits};
ghost use Rattle.text.specs.Lent.{Wrote};
ghost use Rattle.text.specs.Text.{capital as capitalOf, decimal_places, hex_four};

// A byte at a place; the place behind it.
pub fn byte(b: u8, buffer: &mut [u8], at: usize) -> usize
    requires { at < length buffer.old }
    ensures { Wrote buffer.old at (b ∷ []) buffer.new result }
{
    buffer[at] = b;
    at + 1
}

// How many decimal digits a number has. A record's number has few, so these are tried first.
pub fn places(n: u64) -> usize
    ensures { (result ≡ decimal_places n n) × (result ≤ 20) }
{
    if n < 10 {
        return 1;
    }
    if n < 100 {
        return 2;
    }
    if n < 1000 {
        return 3;
    }
    if n < 10000 {
        return 4;
    }
    if n < 100000 {
        return 5;
    }
    if n < 1000000 {
        return 6;
    }
    many_places(n)
}

// The same, counted: by the tenths that are left, so there is no index to go over.
fn many_places(n: u64) -> usize
    ensures { (result ≡ decimal_places n n) × (result ≤ 20) }
{
    let mut count = 1;
    let mut rest = n;
    while rest >= 10 {
        rest /= 10;
        count += 1;
    }
    count
}

// The last digits of a number, so many of them, from a place on; the place behind them. Two at a time, from the back. By hand, since
// `io::decimal` writes to the start of an array of its own and leaves open what stands behind the digits.
pub fn spell(n: u64, count: usize, buffer: &mut [u8], at: usize) -> usize
    requires { at + count ≤ length buffer.old }
    ensures { Wrote buffer.old at (last_digits 10 count n) buffer.new result }
{
    let end = at + count;
    let mut i = count;
    let mut rest = n;
    while i > 1 {
        let pair = rest % 100;
        buffer[at + (i - 1)] = 48 + (pair % 10) as u8;
        buffer[at + (i - 2)] = 48 + (pair / 10) as u8;
        i -= 2;
        rest /= 100;
    }
    if i > 0 {
        buffer[at] = 48 + (rest % 10) as u8;
    }
    end
}

// The hex digits.
const CAPITALS: [u8; 16] = *b"0123456789ABCDEF";

// Gives the last hex digit of `d`, a capital.
pub fn capital(d: u8) -> u8
    ensures { result ≡ capitalOf (d % 16) }
{
    CAPITALS[usize::from(d % 16)]
}

// Four hex digits from a place on; the place behind them.
pub fn hex(n: u16, buffer: &mut [u8], at: usize) -> usize
    requires { at + 4 ≤ length buffer.old }
    ensures { Wrote buffer.old at (hex_four n) buffer.new result }
{
    let capitals = CAPITALS;
    buffer[at] = capitals[(n / 4096 % 16) as usize];
    buffer[at + 1] = capitals[(n / 256 % 16) as usize];
    buffer[at + 2] = capitals[(n / 16 % 16) as usize];
    buffer[at + 3] = capitals[(n % 16) as usize];
    at + 4
}
