// A trace: records and replies as bytes, an access by them, and a run over them.
#![tactic(auto)]

mod replying;
mod running;
mod wire;

pub use replying::{Replied, access_bytes};
pub use running::{
    Ran, Served, answered, bank_entry, component, palette_entry, put_effect, put_fragment, run,
};
pub use wire::{item_of, put_reply, record_bytes, record_of, reply_bytes, two};
