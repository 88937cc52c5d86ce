//! Reads the words of the command line: which job they name.
#![tactic(auto)]

mod parts;

pub use parts::{Job, read_words};

#[cfg(test)]
mod tests;
