//! The lock list: the holders and the queue of each lock name, and how many names each connection has.
#![tactic(auto)]

mod covering;
mod list;
mod places;
mod room;
mod snapshot;
#[cfg(test)]
mod tests;

pub use list::LockList;
pub use places::Asking;
pub use room::{LockFault, Room};
