// The words, one after the other.
ghost use Rattle.std.specs.Prelude.{◌≡◌, length};
ghost use Rattle.options.specs.Asking.{asked, is_whole, read_words as readWordsIn};
ghost use Rattle.options.specs.Within.{AllWithin};

use crate::ending::told;
use crate::stepping::stepped;
use crate::types::{Asked, Reading, Refused, Span, Wrong};

// Tells whether the last of `words` is ended by a zero byte.
fn is_whole(words: &[u8]) -> bool
    ensures { result ≡ is_whole words.now }
{
    if words.is_empty() {
        return true;
    }
    words[words.len() - 1] == 0
}

// Reads `words`, each of which is ended by a zero byte, until one is wrong.
fn read_words(words: &[u8]) -> Result<Reading, Refused>
    ensures { result ≡ readWordsIn words.now }
{
    let mut reading = Reading::begun();
    let mut start = 0;
    for (at, byte) in words.iter().enumerate() {
        if *byte == 0 {
            reading = stepped(words, reading, Span { start, end: at })?;
            start = at + 1;
        }
    }
    Ok(reading)
}

// Tells what `words`, each of which is ended by a zero byte, ask for: the command, its options, and FILE, or what is wrong with them.
pub fn read_options(words: &[u8]) -> Result<Asked, Refused>
    ensures value { result ≡ asked words.now }
    ensures spans_within { AllWithin (length words.now) result }
{
    if !is_whole(words) {
        return Err(Reading::begun().refused(Wrong::TooLong, None));
    }
    told(words, read_words(words)?)
}
