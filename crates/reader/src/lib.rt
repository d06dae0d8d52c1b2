// A reader of a trace, by which a host goes on where it stopped.
#![tactic(auto)]

mod reader;

pub use reader::{HandedBack, NextAt, RanAt, Reader, next_from, run_from, unread};
