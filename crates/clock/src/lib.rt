// The dot clock of a register file: its rate, and the same as two whole numbers in lowest terms.
#![tactic(auto)]

mod rate;
mod reader;
mod terms;

pub use reader::{ClockRead, clock, terms_of};
pub use terms::Terms;
