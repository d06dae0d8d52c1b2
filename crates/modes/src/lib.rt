// The form of a modeline, and the reader of one: text to a name, a clock, eight numbers and two flags, or to the place of the first bad byte.
#![tactic(auto)]

mod flags;
mod mode;
mod number;
mod place;
mod stages;

pub use mode::{Axis, Mode};
pub use place::name_byte;
pub use stages::parse;
