// Words, colours and flags as bytes, from a place of a buffer on, and back.
ghost use Rattle.std.specs.Prelude.{◌≡◌, ◌+◌, ◌*◌, ◌≤◌, length};
ghost use Rattle.std.proofs.lemmas.List.Edits.{sets};
ghost use Rattle.image.specs.Bytes.{word_bytes, words_in, colour_bytes, colours_in, flag_byte as byte_of, is_set, flag_bytes, flags_in};

use file::Colour;

// Words into a buffer.
pub fn put_words(words: &[u16], buffer: &mut [u8], at: usize)
    requires { at + 2 * length words.now ≤ length buffer.old }
    ensures { buffer.new ≡ sets buffer.old at (word_bytes words.now) }
{
    for (i, word) in words.iter().enumerate() {
        buffer[at + 2 * i] = (*word % 256) as u8;
        buffer[at + 2 * i + 1] = (*word / 256) as u8;
    }
}

// Colours into a buffer: the palette, or the bank.
pub fn put_colours(colours: &[Colour], buffer: &mut [u8], at: usize)
    requires { at + 3 * length colours.now ≤ length buffer.old }
    ensures { buffer.new ≡ sets buffer.old at (colour_bytes colours.now) }
{
    for (i, colour) in colours.iter().enumerate() {
        buffer[at + 3 * i] = colour.red;
        buffer[at + 3 * i + 1] = colour.green;
        buffer[at + 3 * i + 2] = colour.blue;
    }
}

pub fn flag_byte(flag: bool) -> u8
    ensures { result ≡ byte_of flag }
{
    u8::from(flag)
}

pub fn is_set(byte: u8) -> bool
    ensures { result ≡ is_set byte }
{
    byte != 0
}

// Flags into a buffer.
pub fn put_flags(flags: &[bool], buffer: &mut [u8], at: usize)
    requires { at + length flags.now ≤ length buffer.old }
    ensures { buffer.new ≡ sets buffer.old at (flag_bytes flags.now) }
{
    for (i, flag) in flags.iter().enumerate() {
        buffer[at + i] = flag_byte(*flag);
    }
}

// Bytes into a buffer as they are.
pub fn put_bytes(bytes: &[u8], buffer: &mut [u8], at: usize)
    requires { at + length bytes.now ≤ length buffer.old }
    ensures { buffer.new ≡ sets buffer.old at bytes.now }
{
    buffer[at..at + bytes.len()].copy_from_slice(bytes);
}

// The word of two bytes, the low one first.
pub fn two(low: u8, high: u8) -> u16
    ensures { result ≡ low + 256 * high }
{
    u16::from(low) + 256 * u16::from(high)
}

// The words of bytes, as many as there are places.
pub fn words_in(bytes: &[u8], words: &mut [u16])
    requires { length bytes.now ≡ 2 * length words.old }
    ensures { words.new ≡ sets words.old 0 (words_in bytes.now) }
{
    for (i, word) in words.iter_mut().enumerate() {
        *word = two(bytes[2 * i], bytes[2 * i + 1]);
    }
}

// The colours of bytes, as many as there are places.
pub fn colours_in(bytes: &[u8], colours: &mut [Colour])
    requires { length bytes.now ≡ 3 * length colours.old }
    ensures { colours.new ≡ sets colours.old 0 (colours_in bytes.now) }
{
    for (i, colour) in colours.iter_mut().enumerate() {
        *colour = Colour {
            red: bytes[3 * i],
            green: bytes[3 * i + 1],
            blue: bytes[3 * i + 2],
        };
    }
}

// The flags of bytes.
pub fn flags_in(bytes: &[u8], flags: &mut [bool])
    requires { length bytes.now ≡ length flags.old }
    ensures { flags.new ≡ sets flags.old 0 (flags_in bytes.now) }
{
    for (i, flag) in flags.iter_mut().enumerate() {
        *flag = is_set(bytes[i]);
    }
}
