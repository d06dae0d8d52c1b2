// The quick way of an access whose kind, width and address have a slot: no check is made twice, and what changes is changed where it stands.
#![tactic(auto)]

mod classes;
mod pixels;
mod said;
mod slots;
mod smalls;
mod stores;
mod turning;

pub use classes::{CLASSES, codes_of};
pub use said::{
    PLAIN, address_in, code_in, colour_in, is_pixel, next_in, painted, paints, paints_bank, shown,
    told, value_in,
};
pub use slots::{SLOTS, Slot, all_slots, slot_of};
pub use smalls::{SMALLS, smalls_of, state_in};
pub use turning::{read_place, turn_read, turn_write, write_place};
