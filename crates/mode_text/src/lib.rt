// A modeline out of a register file.
#![tactic(auto)]

mod fits;
mod put;
mod write;

pub use write::write_from;
