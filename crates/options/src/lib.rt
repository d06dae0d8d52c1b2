// The words that the program is started with, and what is said of wrong ones.
#![tactic(auto)]

mod ending;
mod inputs;
mod line;
mod message;
mod names;
mod reading;
mod slots;
mod stepping;
mod types;
mod words;

pub use inputs::{is_standard_input, is_text};
pub use message::{WRONG_LINE_MOST, wrong_line};
pub use reading::read_options;
pub use types::{Asked, Command, Of, Reading, Refused, Slot, Span, Waiting, Wrong};
pub use words::{part, word_at};
