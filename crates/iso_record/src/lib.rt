//! Records of the log, and what undoing one makes of a slot.
#![tactic(auto)]

mod olds;
mod record;

pub use olds::olds_of;
pub use record::{Change, Record, undo_on};
