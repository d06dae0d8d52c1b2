// The job of the command `portable`: the bytes CR00h to CR1Bh of the portable sibling, fed in parts; their timing as a line, or a list of numbers written
// into them, when it is ended.
#![tactic(auto)]

mod ending;
mod keeping;
mod telling;

pub use ending::{PortableEnded, read_end, write_end};
pub use keeping::{PortableJob, feed, start};
pub use telling::{not_read_line, not_written_line};
