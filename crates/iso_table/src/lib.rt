//! A table: its slots, by rid.
#![tactic(auto)]

mod slot;
mod table;

pub use slot::Slot;
pub use table::{AddFault, Table};
