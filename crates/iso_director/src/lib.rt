//! The dispatcher of a run: it takes the lines, ends deadlocks, closes the connections, one entry a call.
#![tactic(auto)]

mod able;
mod director;
mod taking;
mod untied;

pub use director::{Director, Led};
pub use untied::stays_acyclic;
