// One access to a register file: record, place, answer and effect.
#![tactic(auto)]

mod access;
mod engine;
mod record;

pub use access::Accessed;
pub use engine::{
    Decision, decide, device_id, display_state, entry_number, is_bad_access, is_bad_passing,
    is_in_bank, is_locked, is_locked_out, is_palette_up, is_space_off, line_after, line_shown,
    palette_state, v_port_state,
};
pub use record::{Item, Record, Reply};
