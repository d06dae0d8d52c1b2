// The clock report over lent bytes: a line for each register set, and a summary.
#![tactic(auto)]

mod parts;
mod put;
mod sets;
mod tally;

pub use parts::{SetsPart, report, report_part, summary_lines};
pub use tally::Tally;
