//! A lock list seen as what each name's line is, kept in an index from names to keys of queues.
#![tactic(auto)]

mod desk;
mod lines;
mod order;
mod reads;
mod register;
mod tasks;
mod weights;
mod work;

pub use desk::Desk;
pub use lines::{Change, Lines};
pub use register::Register;
pub use tasks::{Task, is_within, table_of};
