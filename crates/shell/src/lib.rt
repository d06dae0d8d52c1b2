// What the programs do between standard input and standard output.
#![tactic(auto)]

mod course;
mod following;
mod outlining;
mod printing;
mod reading;
mod saving;
mod telling;

pub use course::{Course, run_input};
pub use following::since;
pub use outlining::outline;
pub use printing::replay;
pub use reading::{Filled, fill, nothing_read};
pub use saving::snapshot;
pub use telling::{Handed, nothing_handed, tell, tell_choice, tell_failure, write_out};
