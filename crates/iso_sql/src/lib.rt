//! Statements: what one statement of a script asks for, and how its text is read.
#![tactic(auto)]

mod assignment;
mod condition;
mod fault;
mod found;
mod level;
mod list;
mod read;
mod reader;
mod rows;
mod scope;
mod short;
mod statement;
mod told;

pub use fault::SqlFault;
pub use found::place_in;
pub use read::{exactly_one_answer, read_statement};
pub use reader::take_statement;
pub use rows::{is_null, placed_row, stored_fault, stored_row, stored_value, stores};
pub use scope::{Scope, gives, name_of, scope_of, table_of, table_place};
pub use statement::{Assignment, Condition, Expr, Items2, Op, Sets, Statement};
pub use told::told_faults_are_least;

#[cfg(test)]
mod tests;
