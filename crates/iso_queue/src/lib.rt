//! The holds and waits of lock names: the definitions on lists of them, and the queue of one name.
#![tactic(auto)]

mod lists;
mod queue;
#[cfg(test)]
mod tests;
mod types;

use iso_modes::{LockState, Mode};
use iso_types::{Conn, Name};
pub use queue::Queue;
pub use types::{Asked, Claimed, Hold, Waiter};

/// A line of a snapshot: a holder or a waiter of a name. Db2 LUW, 'MON_GET_LOCKS' (LOCK_STATUS).
#[derive(Clone, Copy)]
pub struct LockLine {
    pub name: Name,
    pub conn: Conn,
    pub mode: Mode,
    pub state: LockState,
}
