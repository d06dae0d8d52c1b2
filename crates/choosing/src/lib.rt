// The chip and the engine that a program is started for, by its words.
#![tactic(auto)]

mod choosing;
mod options;
mod words;

pub use choosing::{Choice, Chosen, choose};
pub use program_input::{count_args, read_arg};
pub use words::{Asked, Word, Words};
