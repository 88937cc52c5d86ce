//! Units of work: for each connection its open unit, with its records and savepoints.
#![tactic(auto)]

mod marks;
mod units;

pub use marks::{Marks, Savepoint};
pub use units::{Units, Work};

#[cfg(test)]
mod tests;
