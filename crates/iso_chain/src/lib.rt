//! What a change, its undoing and a commit write into slots, log and units.
#![tactic(auto)]

mod changes;
mod laws;
mod pins;
mod slots;

pub use changes::{commit, delete, insert, slot_of, take_back, update};
pub use laws::{
    chains_give_versions, entries_give_writes, histories_are_kept, records_carry_rows, steps_stand,
};
pub use pins::pin_slot;
pub use slots::{clear_slot, kill_slot, undo_slot, write_slot};
