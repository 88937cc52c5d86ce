//! The agent of a connection: it makes the own entries of its statements, one a call.
#![tactic(auto)]

mod agent;
mod bells;
mod due;
mod ends;
mod laws;
mod locks;
mod looks;
mod opening;
mod quiet;
mod step;
mod stepped;
mod telling;
mod turn;
mod wakes;
mod ways;
mod writes;

pub use agent::{Agent, Kept, Turned};
pub use bells::Bells;
pub use laws::agents_rest;
pub use wakes::{Wakes, able_behind};
