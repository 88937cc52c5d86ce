//! The entries of an index, kept in order in pages of 1 to 128.
#![tactic(auto)]

mod cut;
mod index;
mod page;
#[cfg(test)]
mod tests;

pub use cut::compare_keys;
pub use index::KeyIndex;
