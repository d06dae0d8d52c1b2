// The job of the command `replay`, and of every command that runs a trace: it is started, fed the trace in parts, and closed.
#![tactic(auto)]

mod job;
mod steps;
mod taking;

pub use job::{TraceFed, TraceJob, close, start};
pub use steps::feed;
