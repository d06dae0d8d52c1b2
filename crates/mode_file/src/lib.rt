// A modeline into a register file, and out of one.
#![tactic(auto)]

mod into;
mod said;
mod verdict;

pub use into::{LineSaid, ReadLine, read_into};
pub use verdict::Verdict;
