//! Makes a script from a number: a mix of sessions on one table of accounts.
#![tactic(auto)]

mod body;
mod generating;
mod writing;

pub use generating::generate;

#[cfg(test)]
mod tests;
