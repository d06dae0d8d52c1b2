// What a whole trace did: of each register, code and timing number, and which numbers moved together.
#![tactic(auto)]

mod closing;
mod summary;
mod together;

pub use closing::summary_lines;
pub use summary::{Summary, begin, record_summed, take_in};
pub use together::together_lines;
