//! The log: records of changes and of their undoing, oldest first.
#![tactic(auto)]

mod log;

pub use log::{Log, LogFault};

#[cfg(test)]
mod tests;
