//! One state that threads hold in turn. Each thread has a pass, which knows how much of the state's history it has
//! seen and which of the entries are its own; this project's own. The latch knows nothing of the state but its head
//! and its history.
//!
//! No contract says that a thread runs, that a wait ends, in which order passes get their turns, or anything of two
//! passes that saw nothing of each other.
#![tactic(auto)]

mod deal;
mod latch;
mod pass;
mod plays;
#[cfg(test)]
mod tests;
pub mod view;

pub use pass::{Latch, Pass, Turn};
