//! The history of a run: entries and acts, and what a history makes of its head.
#![tactic(auto)]

mod chronicle;
mod entry;
mod history;
mod laws;

pub use chronicle::Chronicle;
pub use entry::{Act, Cause, Entry, Got, Stand, Want, Who, Why};
pub use history::History;
pub use laws::{
    committed_is_settled, guards_hold, limits_hold, undo_takes_the_last, worlds_are_sound,
};
