// The bytes of a text for people: words of two hex digits with blanks, line ends and comments around them. The text is read in parts, in fixed memory.
#![tactic(auto)]

mod reading;
mod source;
mod state;

pub use reading::{TextOver, TextRead, end_text, read_text};
pub use source::{Source, SourceOver, TakenIn, end_source, looks_like_text, take_in};
pub use state::{HexText, Place, Stand, begin};
