// The command `explain` as a job over lent bytes: it is started on a chip, fed a trace in parts, and closed.
#![tactic(auto)]

mod job;
mod part;
mod turn;

pub use job::{ExplainJob, close, start};
pub use part::{ExplainFed, feed};
