//! Next-key locks: the name that guards a key value, who is in the way of a new key, and what the new key inherits.
//! Db2 LUW, 'Next-key locking'. No call takes memory.
#![tactic(auto)]

mod guards;
#[cfg(test)]
mod tests;

pub use guards::{blocked, guard_of, inherits};
