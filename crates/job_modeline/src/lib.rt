// The job of the command `modeline`: lines that are fed in parts, each read into a file and reported; and the line of a file.
#![tactic(auto)]

mod line;
mod lines;

pub use line::{line_end, no_line_line};
pub use lines::close;
pub use mode_lines::{LinesFed, LinesJob, feed, start};
