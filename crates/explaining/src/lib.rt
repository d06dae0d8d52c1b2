// What a trace's records do, in words: the line of a record, and what it may change.
#![tactic(auto)]

mod explain;
mod line;
mod meaning;
mod moves;
mod parts;
mod token;
mod words;

pub use explain::{
    Case, case_of, first_line, number_line, numbers_in, place_line, put_lines, reach_in,
    record_lines,
};
pub use line::{Line, column, told};
pub use meaning::{code_words, register_of};
pub use moves::{NUMBERS, number_label};
pub use parts::{bit_digits, change};
pub use token::{Token, choose, decimal, hex, named, phrase, say};
