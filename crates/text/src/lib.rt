// The lines that the programs print, as bytes in a lent buffer.
#![tactic(auto)]

mod fixed;
mod line;
mod number;
mod numbers;
mod placed;
mod putting;

pub use fixed::Line;
pub use line::{numbers_fit, record_line, reply_lines};
pub use number::capital;
pub use numbers::{
    capture_line, cursor_line, numbers_line, plain_text, spaced_numbers, timing_line, window2_line,
};
pub use placed::{Placed, has_room};
pub use putting::{put, put_behind, put_number};
