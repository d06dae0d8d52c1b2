// The portable sibling's timing as text: the line that is printed of its bytes, and a list of fourteen numbers that is written into them.
#![tactic(auto)]

mod listing;
mod printing;
mod writing;

pub use listing::read_list;
pub use printing::{LINE_MOST, timing_line};
pub use writing::{NotWritten, write_list};
