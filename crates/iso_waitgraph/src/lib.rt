//! The chosen cycle of a wait-for graph, and who lies on a cycle. No call takes memory.
#![tactic(auto)]

pub mod laws;
mod search;

pub use search::{cycle, on_cycle};
