// A file as its host owns it, in words and bytes, and the image that it is saved as.
#![tactic(auto)]

mod bytes;
mod parts;
mod saving;
mod sets;
mod soundness;

pub use parts::{REST, fits, held, rest_of, state_bytes, state_in};
pub use saving::{IMAGE, Loaded, load, save};
pub use sets::{SET, set_bytes, set_in};
