// A table of numbers in pieces, read, tested and written: a list of numbers, each with its meaning and its pieces. No chip is named here.
ghost use Rattle.std.specs.Prelude.{◌≡◌, ◌%◌, ◌^◌, map, min};
ghost use Rattle.bits.specs.Encoded.{piece_of, meaning_of, number_of, table_of};
ghost use Rattle.bits.specs.Pieces.{width as width_of, scatter as scatterPieces};
ghost use Rattle.bits.specs.Words.{word, read_words};
ghost use Rattle.bits.specs.Numbers.{meant as meantBy, stored_for, in_range, all_in_range, write_numbers};

use crate::pieces::{gather, scatter, width};
use crate::size::Size;

// What stored bits mean: the number that they are and so much more, or the end of the number before it.
#[derive(Clone, Copy, Debug, PartialEq, Eq)]
pub enum Meaning {
    Plus(u16),
    EndOfLast,
}

// A number: what its bits mean, and its pieces, high bits first, RRHLh for bits H to L of register RR.
#[derive(Clone, Copy)]
pub struct Number<'a> {
    pub meaning: Meaning,
    pub pieces: &'a [u16],
}

impl Meaning {
    // The low 32 bits of the number that stored bits mean, after the last one.
    fn meant(self, size: Size, last: u32, stored: u32) -> u32
        ensures { result ≡ meantBy (meaning_of self) size.bits last stored % 2 ^ 32 }
    {
        match self {
            Meaning::Plus(more) => stored.wrapping_add(u32::from(more)),
            Meaning::EndOfLast => size.end_after(last, stored),
        }
    }

    // Whether a number is in its range, after the last one.
    fn in_range(self, size: Size, last: u32, number: u32) -> bool
        ensures { result ≡ in_range (meaning_of self) size.bits last number }
    {
        let number = u64::from(number);
        match self {
            Meaning::Plus(more) => {
                let least = u64::from(more);
                least <= number && number < least + size.power()
            }
            Meaning::EndOfLast => {
                let start = u64::from(last);
                start < number && number <= start + size.power()
            }
        }
    }

    // The bits to store for a number.
    fn stored_for(self, number: u32) -> u32
        ensures { result ≡ stored_for (meaning_of self) number }
    {
        match self {
            Meaning::Plus(more) => number.saturating_sub(u32::from(more)),
            Meaning::EndOfLast => number,
        }
    }
}

impl Number<'_> {
    fn size(self) -> Size
        ensures { result.bits ≡ min 32 (width_of (map piece_of self.entry.pieces.now)) }
    {
        Size::of(width(self.pieces, 0))
    }

    // Its low 32 bits, read out of its pieces after the last number.
    pub fn read(self, registers: &[u16], last: u32) -> u32
        ensures { result ≡ word last (number_of self.entry) registers.now }
    {
        self.meaning
            .meant(self.size(), last, gather(registers, self.pieces))
    }

    // Whether a number is in the range that meaning and pieces give, after the last one.
    pub fn in_range(self, last: u32, number: u32) -> bool
        ensures { result ≡ in_range (meaning_of self.entry.meaning) (width_of (map piece_of self.entry.pieces.now)) last number }
    {
        self.meaning.in_range(self.size(), last, number)
    }

    // A number, written into its pieces.
    pub fn write(self, registers: &mut [u16], number: u32)
        ensures { registers.new ≡ scatterPieces (map piece_of self.entry.pieces.now) (stored_for (meaning_of self.entry.meaning) number) registers.old }
    {
        scatter(registers, self.pieces, self.meaning.stored_for(number));
    }
}

// The numbers of a table, read out of the registers into as many places as are lent. By an index: of places that `iter_mut` lends to a `zip` a proof
// learns how many they are, and not what they hold.
pub fn read_numbers(table: &[Number], registers: &[u16], numbers: &mut [u32])
    ensures { numbers.new ≡ read_words 0 (table_of table.now) registers.now numbers.old }
{
    let mut last = 0;
    for k in 0..table.len().min(numbers.len()) {
        last = table[k].read(registers, last);
        numbers[k] = last;
    }
}

// Whether there are as many numbers as the table has, each in its range.
pub fn all_in_range(table: &[Number], numbers: &[u32]) -> bool
    ensures { result ≡ all_in_range (table_of table.now) numbers.now }
{
    if table.len() != numbers.len() {
        return false;
    }
    let mut last = 0;
    for (number, value) in table.iter().zip(numbers) {
        if !number.in_range(last, *value) {
            return false;
        }
        last = *value;
    }
    true
}

// The numbers of a table, written into their pieces, until the table or the numbers end.
pub fn write_numbers(table: &[Number], registers: &mut [u16], numbers: &[u32])
    ensures { registers.new ≡ write_numbers (table_of table.now) numbers.now registers.old }
{
    for (number, value) in table.iter().zip(numbers) {
        number.write(registers, *value);
    }
}
