// 02, 11/13: the set of what was stored into or moved since a file was saved, kept beside it.
#![tactic(auto)]

mod outside;
mod reached;
mod set;
mod sizing;

pub use outside::agrees_outside;
pub use set::Touched;
