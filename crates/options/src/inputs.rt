// What a FILE's name says of it.
ghost use Rattle.std.specs.Prelude.{◌≡◌};
ghost use Rattle.options.specs.Inputs.{is_standard_input, is_text};

use crate::types::{Asked, Command, Span};
use crate::words::{ends_in_hex, part};

// Tells whether the name `span` of `words` is that of standard input: one dash.
pub fn is_standard_input(words: &[u8], span: Span) -> bool
    ensures { result ≡ is_standard_input words.now span }
{
    part(words, span) == b"-".as_slice()
}

// Tells whether the input whose name is `which` of `words` is text for people: by --hex, by the command, or by a name that ends in ".hex".
#[tactic(auto, unfolding(crate::specs::Inputs::is_text, crate::specs::Inputs::is_bytes))]
pub fn is_text(asked: Asked, words: &[u8], which: Span) -> bool
    ensures { result ≡ is_text asked words.now which }
{
    if asked.hex {
        return true;
    }
    match asked.command {
        Command::Bytes => true,
        _ => ends_in_hex(part(words, which)),
    }
}
