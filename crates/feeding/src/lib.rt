// A job that is fed its input in parts: what a step leaves and promises, how much of a part it may take, and that parts put out what the whole does.
#![tactic(auto)]

mod step;
mod taking;

pub use step::Fed;
pub use taking::{numbers_left, units_in};
