//! The top call: reads a script, runs it, and writes its transcript.
#![tactic(auto)]

mod job;

pub use job::{Report, db2iso};

#[cfg(test)]
mod tests;
