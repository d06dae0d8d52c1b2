// What a line is made of.
ghost use Rattle.std.specs.Prelude.{◌≡◌, cond};
ghost use Rattle.explaining.specs.Lines.{decimal_token, hex_token, name_token, nothing, phrase, words_token};

// A part of a line: words up to the first dot; the name of the register of a number; a number in decimal, or in so many hex digits with an h
// behind them. Words are an array by value, so that a contract can say which token comes back.
#[derive(Clone, Copy)]
pub enum Token {
    Words([u8; 24]),
    Name(usize),
    Decimal(u64),
    Hex(u8, u64),
}

// Words.
pub fn say(bytes: [u8; 24]) -> Token
    ensures { result ≡ words_token bytes }
{
    Token::Words(bytes)
}

pub fn none() -> Token
    ensures { result ≡ nothing }
{
    say(*b"........................")
}

// A register's name.
pub fn named(number: usize) -> Token
    ensures { result ≡ name_token number }
{
    Token::Name(number)
}

pub fn decimal(number: u64) -> Token
    ensures { result ≡ decimal_token number }
{
    Token::Decimal(number)
}

pub fn hex(digits: u8, number: u32) -> Token
    ensures { result ≡ hex_token digits number }
{
    Token::Hex(digits, u64::from(number))
}

// One of two: tokens, phrases, lines or numbers of digits.
pub fn choose<T: Drop>(first: bool, one: T, other: T) -> T
    ensures { result ≡ cond first one other }
{
    if first { one } else { other }
}

// The first eight of so many tokens, with nothing behind them where they are fewer.
pub fn phrase<const K: usize>(tokens: [Token; K]) -> [Token; 8]
    ensures { result ≡ phrase tokens.entry }
{
    let mut eight = [none(); 8];
    let count = K.min(8);
    eight[..count].copy_from_slice(&tokens[..count]);
    eight
}
