//! The row that a slot showed before the changes that are pending in it, from the records of the log.
#![tactic(auto)]

mod past;

pub use past::{Past, rebuild};

#[cfg(test)]
mod tests;
