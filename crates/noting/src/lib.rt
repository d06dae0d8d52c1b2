// 02, 11/13: accesses, runs, timing writes and modelines that keep the set of what they touched beside the file.
#![tactic(auto)]

mod kept;
mod running;
mod writing;

pub use kept::Noted;
pub use running::run_noting;
pub use writing::{access_noting, line_noting, timing_noting};
