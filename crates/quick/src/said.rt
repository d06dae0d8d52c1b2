// What an access says, as one number: a struct in its place is written to memory where the function that gives it back is not put in place of its call.
ghost use Rattle.std.specs.Prelude.{◌≡◌, cond, ◌<◌, ◌≤◌};
ghost use Rattle.quick.specs.Said.{plain_said, code_in, value_in, mark_in, pixel_in, paints_in, bank_in, colour_in, next_in, address_in};

use file::Colour;

// From here on there is more to do than to reply.
pub const PLAIN: u64 = 16_777_216;

// Where the next colour stands, or red; green and blue; the address.
const NEXT: u64 = 4_294_967_296;

const GREEN: u64 = 1_099_511_627_776;

const BLUE: u64 = 281_474_976_710_656;

const ADDRESS: u64 = 72_057_594_037_927_936;

// A code and a value.
pub fn told(code: u8, value: u16) -> u64
    ensures { (code_in result ≡ code) × (value_in result ≡ value) × (result < plain_said) }
{
    65536 * (code as u64) + value as u64
}

// What was read is the pixel that the pointer names.
pub fn shown(address: u8, next: u8) -> u64
    ensures { (code_in result ≡ 0) × (value_in result ≡ 0) × (mark_in result ≡ 1) × (address_in result ≡ address) × (next_in result ≡ next) × (plain_said ≤ result) }
{
    PLAIN + NEXT * (next as u64) + ADDRESS * (address as u64)
}

fn mark_of(bank: bool) -> u64
    ensures { (result ≡ cond bank 3 2) × (result ≤ 3) }
{
    if bank { 3 } else { 2 }
}

// An entry is painted, of the bank or the palette.
pub fn painted(bank: bool, colour: Colour, address: u8) -> u64
    ensures { (code_in result ≡ 0) × (value_in result ≡ 0) × (mark_in result ≡ cond bank 3 2) × (address_in result ≡ address) × (colour_in result ≡ colour) × (plain_said ≤ result) }
{
    let colours = NEXT * (colour.red as u64)
        + GREEN * (colour.green as u64)
        + BLUE * (colour.blue as u64);
    PLAIN * mark_of(bank) + colours + ADDRESS * (address as u64)
}

// The parts of what was said.
pub fn code_in(said: u64) -> u8
    ensures { result ≡ code_in said }
{
    (said / 65536 % 256) as u8
}

pub fn value_in(said: u64) -> u16
    ensures { result ≡ value_in said }
{
    (said % 65536) as u16
}

pub fn is_pixel(said: u64) -> bool
    ensures { result ≡ pixel_in said }
{
    said / PLAIN % 256 == 1
}

pub fn paints(said: u64) -> bool
    ensures { result ≡ paints_in said }
{
    2 <= said / PLAIN % 256
}

pub fn paints_bank(said: u64) -> bool
    ensures { result ≡ bank_in said }
{
    said / PLAIN % 256 == 3
}

pub fn colour_in(said: u64) -> Colour
    ensures { result ≡ colour_in said }
{
    Colour {
        red: (said / NEXT % 256) as u8,
        green: (said / GREEN % 256) as u8,
        blue: (said / BLUE % 256) as u8,
    }
}

pub fn next_in(said: u64) -> u8
    ensures { result ≡ next_in said }
{
    (said / NEXT % 256) as u8
}

pub fn address_in(said: u64) -> u8
    ensures { result ≡ address_in said }
{
    (said / ADDRESS) as u8
}
