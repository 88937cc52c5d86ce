//! Conduct: which own entries the statements of a script make, in which order the dispatcher takes its
//! lines, and so which histories are legal. The definitions stand in specs/; here are laws of them.
#![tactic(auto)]

mod copies;
mod course;
mod laws;
mod moves;
mod stages;
mod start;
mod task;
mod telling;

pub use laws::{
    finished_is_whole, finished_takes_all_lines, legal_histories_are_guarded, one_entry_is_next,
    others_leave_the_point,
};
pub use moves::{DueLook, DueNext, Move, Told};
pub use task::Task;
