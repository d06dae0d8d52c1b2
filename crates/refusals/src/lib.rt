// How many records of a trace answered each code, and the line that is said of those that were refused.
#![tactic(auto)]

mod codes;
mod line;
mod put;

pub use codes::{Refusals, counting, counting_replies, none};
pub use line::{REFUSED_MOST, refused_line};
