// The register file of the CL-GD546X as a value: registers, palette, bank, and a state with pointer, marks, toggle and chip; what an access may do to it.
#![tactic(auto)]

mod answer;
mod chip;
mod effect;
mod groups;
mod numbered;
mod palette;
mod pointer;
mod readers;
mod registers;
mod sound;
mod state;

pub use answer::Answer;
pub use chip::Chip;
pub use effect::{Effect, Reach};
pub use numbered::{
    ARX, B0, CAPTURE_X_START, CAPTURE_X_STOP, CAPTURE_Y_START, CAPTURE_Y_STOP, CC, CE, CR0, CR1A,
    CR1B, CR1E, CR6, CR7, CR10, CR11, CR12, CRX, D0, D2, D4, D5, E0, E2, E4, E6, E8, GRX, MISC,
    PCI04, SRX, named_numbers,
};
pub use palette::{Colour, Pointer};
pub use pointer::{read_pixel, write_address, write_pixel};
pub use readers::Marks;
pub use registers::{BANK, File, PALETTE, REGISTERS};
pub use sound::{are_sound, is_sound, state_sound};
pub use state::State;
