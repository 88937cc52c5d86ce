//! What conditions, assignments and rows come to: whether a row meets a condition, the row that
//! assignments make of it, whether a required column is NULL, and the index that a condition uses.
#![tactic(auto)]

mod assignments;
mod conditions;
mod laws;
mod plans;

pub use assignments::{AssignFault, assign, nulls};
pub use conditions::{Truth, keep};
pub use laws::{common_ranges_are_intersections, only_numbers_overflow, paths_miss_no_row};
pub use plans::{Path, plan};

#[cfg(test)]
mod tests;
