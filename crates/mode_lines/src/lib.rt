// Modelines of an input, line by line, and what is reported of each; and the line of a file, from a name and a clock in words.
#![tactic(auto)]

mod composed;
mod job;
mod kept;
mod parts;
mod reporting;
mod split;
mod starting;

pub use composed::line_of;
pub use job::{LinesFed, LinesJob, feed, start};
pub use kept::keep;
pub use parts::{Progress, report_part};
pub use reporting::report;
pub use split::{Taken, take_line};
pub use starting::start_file;
