//! The steps of the dispatcher: it takes the script's lines, ends waits and deadlocks, and closes the connections. Each adds
//! one entry to the history of the state.
#![tactic(auto)]

mod closing;
mod cores;
mod cycles;
mod deadlocks;
mod dispatching;
mod lines;
mod phases;
mod resting;

pub use closing::{Closing, close_next};
pub use cycles::cyclic;
pub use deadlocks::detect;
pub use dispatching::dispatch;
pub use lines::{Paced, expire, snapshot};
pub use resting::{able, quiet};
