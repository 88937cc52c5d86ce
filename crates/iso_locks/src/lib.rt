//! The steps of locks: each adds one entry to the history of the state.
#![tactic(auto)]

mod blocking;
mod choosing;
mod claiming;
mod freeing;
mod locking;

pub use blocking::block;
pub use claiming::{StepClaim, claim};
pub use freeing::{collapse, free};
pub use locking::{Answer, escalate, lock};
