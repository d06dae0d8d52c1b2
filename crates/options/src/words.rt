// A word's bytes, and what is looked at in them.
ghost use Rattle.std.specs.Prelude.{◌≡◌, eqb, length};
ghost use Rattle.std.specs.List.{position};
ghost use Rattle.options.specs.Words.{ends_in_hex, is_option, name_in, name_span, part as part_of, word_at};

use crate::types::Span;

// Gives the bytes of `words` that `span` has; those that there aren't are left out.
pub fn part(words: &[u8], span: Span) -> &[u8]
    ensures { result.now ≡ part_of words.now span }
{
    let to = span.end.min(words.len());
    let from = span.start.min(to);
    &words[from..to]
}

// Gives the bytes of the word `span`, if there is one.
#[tactic(auto, unfolding(crate::specs::Words::word_at))]
pub fn word_at(words: &[u8], span: Option<Span>) -> &[u8]
    ensures { result.now ≡ word_at words.now span }
{
    match span {
        Some(span) => part(words, span),
        None => b"",
    }
}

// Tells whether `word` has the form of an option: a dash, and more than that.
pub fn is_option(word: &[u8]) -> bool
    ensures { result ≡ is_option word.now }
{
    word.len() > 1 && word[0] == b'-'
}

// Gives the place of the first '=' in `word`, if it has one.
fn equals_sign(word: &[u8]) -> Option<usize>
    ensures { result ≡ position (λ b. eqb b 0x3D) word.now }
{
    word.iter().position(|byte| *byte == b'=')
}

// Counts the bytes of `word` before its first '='; all of them where it has none.
fn name_size(word: &[u8]) -> usize
    ensures { result ≡ length (name_in word.now) }
{
    equals_sign(word).unwrap_or(word.len())
}

// Gives the part of the option `span` that is its name, up to the first '='.
pub fn name_span(words: &[u8], span: Span) -> Span
    ensures { result ≡ name_span words.now span }
{
    let size = name_size(part(words, span));
    Span {
        start: span.start,
        end: span.start + size,
    }
}

// Tells whether `name` ends in ".hex".
pub fn ends_in_hex(name: &[u8]) -> bool
    ensures { result ≡ ends_in_hex name.now }
{
    name.ends_with(b".hex")
}
