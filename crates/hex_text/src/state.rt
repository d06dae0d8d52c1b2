// How far a text is read, and what one byte more makes of that.
ghost use Rattle.std.specs.Prelude.{◌≡◌, cond, eqb, [], ◌∷◌, Some, None};
ghost use Rattle.hex_text.specs.Text.{digit, digit_value, blank as isBlank};
ghost use Rattle.hex_text.specs.Machine.{begun, moved_by, standing, new_line, separated_by, stepped_by, line_over};
ghost use Rattle.hex_text.specs.Machine.{ends_word, bytes_of, given_by, end_given, is_bad, bad_place, stepped as steppedText, ended as endedText};

// Where a text stands: between words, after a digit that began a word, after a word of two digits with its byte, after a CR that follows such a word, after
// a CR that follows none, in a comment, or after a bad word.
#[derive(Clone, Copy)]
pub enum Stand {
    Between,
    Digit(u8),
    Byte(u8),
    ByteReturn(u8),
    Return,
    Comment,
    Bad,
}

// How far a text is read: where it stands, the line, and the column of the word at hand, of the bad word, or else of the next byte. Both count from 1 and
// stay at the largest number of 64 bits.
#[derive(Clone, Copy)]
pub struct HexText {
    pub stand: Stand,
    pub line: u64,
    pub column: u64,
}

// Where a word stands: its line, and the column of its first byte.
#[derive(Clone, Copy)]
pub struct Place {
    pub line: u64,
    pub column: u64,
}

// Begins a text.
pub fn begin() -> HexText
    ensures { result ≡ begun }
{
    HexText {
        stand: Stand::Between,
        line: 1,
        column: 1,
    }
}

// Counts by so many more, up to the largest number of 64 bits.
#[tactic(auto, unfolding(crate::specs::Machine::moved_by, crate::specs::Machine::held, crate::specs::Machine::largest))]
fn moved(number: u64, by: u64) -> u64
    ensures { result ≡ moved_by number by }
{
    number.saturating_add(by)
}

// Gives the value of a hex digit.
#[tactic(auto, unfolding(crate::specs::Text::digit, crate::specs::Text::digit_value, crate::specs::Text::between))]
fn digit(byte: u8) -> Option<u8>
    ensures { result ≡ cond (digit byte) (Some (digit_value byte)) None }
{
    match byte {
        b'0'..=b'9' => Some(byte - b'0'),
        b'A'..=b'F' => Some(byte - b'A' + 10),
        b'a'..=b'f' => Some(byte - b'a' + 10),
        _ => None,
    }
}

// Tells whether a byte is a blank.
#[tactic(auto, unfolding(crate::specs::Text::blank))]
fn blank(byte: u8) -> bool
    ensures { result ≡ isBlank byte }
{
    byte == b' ' || byte == b'\t'
}

// Makes the text stand elsewhere, at the line and the column of `before`.
fn standing_at(before: HexText, stand: Stand) -> HexText
    ensures { result ≡ standing before stand }
{
    HexText { stand, ..before }
}

// Begins the next line.
fn new_line(before: HexText) -> HexText
    ensures { result ≡ new_line before }
{
    HexText {
        stand: Stand::Between,
        line: moved(before.line, 1),
        column: 1,
    }
}

// Takes a byte that is no digit, where no word is at hand or one of two digits: a blank, after which the next byte is `width` columns further, a line end, a
// comment, or a CR, after which the text stands at `returned`. With any other byte the word is bad.
fn separated(before: HexText, width: u64, returned: Stand, byte: u8) -> HexText
    ensures { result ≡ separated_by before width returned byte }
{
    if blank(byte) {
        return HexText {
            stand: Stand::Between,
            line: before.line,
            column: moved(before.column, width),
        };
    }
    if byte == b'\n' {
        return new_line(before);
    }
    if byte == b'#' {
        return standing_at(before, Stand::Comment);
    }
    if byte == b'\r' {
        return standing_at(before, returned);
    }
    standing_at(before, Stand::Bad)
}

// Takes a byte between words.
fn after_blank(before: HexText, byte: u8) -> HexText
    ensures { result ≡ stepped_by Stand.Between before byte }
{
    match digit(byte) {
        Some(value) => standing_at(before, Stand::Digit(value)),
        None => separated(before, 1, Stand::Return, byte),
    }
}

// Takes a byte after the first digit of a word: the second one, or the word is bad.
fn after_digit(before: HexText, high: u8, byte: u8) -> HexText
    ensures { result ≡ stepped_by (Stand.Digit high) before byte }
{
    match digit(byte) {
        Some(value) => standing_at(before, Stand::Byte(high % 16 * 16 + value)),
        None => standing_at(before, Stand::Bad),
    }
}

// Takes the LF that ends the line, or another byte, with which the text stands at `other`: after a CR the word is bad then, in a comment it goes on.
fn line_ended(before: HexText, other: Stand, byte: u8) -> HexText
    ensures { result ≡ cond (eqb byte 0x0A) (new_line before) (standing before other) }
{
    if byte == b'\n' {
        new_line(before)
    } else {
        standing_at(before, other)
    }
}

// Takes one byte of a text.
pub fn stepped(before: HexText, byte: u8) -> HexText
    ensures { result ≡ steppedText before byte }
{
    let stand = before.stand;
    match stand {
        Stand::Between => after_blank(before, byte),
        Stand::Digit(high) => after_digit(before, high, byte),
        Stand::Byte(value) => separated(before, 3, Stand::ByteReturn(value), byte),
        Stand::ByteReturn(_) => line_ended(before, Stand::Bad, byte),
        Stand::Return => line_ended(before, Stand::Bad, byte),
        Stand::Comment => line_ended(before, Stand::Comment, byte),
        Stand::Bad => standing_at(before, Stand::Bad),
    }
}

// Tells whether a byte ends a word of two digits.
#[tactic(auto, unfolding(crate::specs::Machine::ends_word))]
fn ends_word(byte: u8) -> bool
    ensures { result ≡ ends_word byte }
{
    blank(byte) || byte == b'\n' || byte == b'#'
}

// Gives `value` where `ended`.
#[tactic(auto, unfolding(crate::specs::Machine::bytes_of))]
fn given_where(ended: bool, value: u8) -> Option<u8>
    ensures { bytes_of result ≡ cond ended (value ∷ []) [] }
{
    if ended { Some(value) } else { None }
}

// Gives the byte of the word that one byte of a text ends.
pub fn gives(before: HexText, byte: u8) -> Option<u8>
    ensures { bytes_of result ≡ given_by before.stand byte }
{
    match before.stand {
        Stand::Byte(value) => given_where(ends_word(byte), value),
        Stand::ByteReturn(value) => given_where(byte == b'\n', value),
        _ => None,
    }
}

// Ends the line at hand without the next.
fn line_over(before: HexText) -> HexText
    ensures { result ≡ line_over before }
{
    HexText {
        stand: Stand::Between,
        line: before.line,
        column: 1,
    }
}

// Ends a text: a word of one digit is bad then.
pub fn ended(before: HexText) -> HexText
    ensures { result ≡ endedText before }
{
    let stand = before.stand;
    match stand {
        Stand::Between => line_over(before),
        Stand::Digit(_) => standing_at(before, Stand::Bad),
        Stand::Byte(_) => line_over(before),
        Stand::ByteReturn(_) => line_over(before),
        Stand::Return => line_over(before),
        Stand::Comment => line_over(before),
        Stand::Bad => standing_at(before, Stand::Bad),
    }
}

// Gives the byte of the word that the end of a text ends.
pub fn end_given(before: HexText) -> Option<u8>
    ensures { bytes_of result ≡ end_given before.stand }
{
    match before.stand {
        Stand::Byte(value) => Some(value),
        Stand::ByteReturn(value) => Some(value),
        _ => None,
    }
}

impl HexText {
    // Tells whether a bad word was read.
    #[tactic(auto, unfolding(crate::specs::Machine::is_bad))]
    pub fn is_bad(self) -> bool
        ensures { result ≡ is_bad self.stand }
    {
        matches!(self.stand, Stand::Bad)
    }

    // Gives the place of the bad word, if there is one.
    #[tactic(auto, unfolding(crate::specs::Machine::bad_place))]
    pub fn bad_place(self) -> Option<Place>
        ensures { result ≡ bad_place self }
    {
        if self.is_bad() {
            Some(Place {
                line: self.line,
                column: self.column,
            })
        } else {
            None
        }
    }
}
