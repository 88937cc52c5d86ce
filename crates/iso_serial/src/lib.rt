//! The run of a script on one thread: the dispatcher and the agents take turns.
#![tactic(auto)]

mod agents;
mod drawing;
mod laws;
mod run;
mod turns;
mod words;

pub use laws::{one_history_is_scheduled, one_history_is_seeded};
pub use run::run_serial;
