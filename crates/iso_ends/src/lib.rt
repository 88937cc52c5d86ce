//! The steps that undo, end a unit of work, and answer a statement: each adds one entry to the history of the state.
#![tactic(auto)]

mod answers;
mod doubt;
mod doubts;
mod ending;
mod freshness;
mod parking;
mod purging;
mod reading;
mod savepoints;
mod settling;
mod staleness;
mod stopping;
mod undoing;
mod walking;

pub use answers::{reply, set};
pub use doubt::Doubt;
pub use doubts::Doubts;
pub use ending::{commit, ended, rollback_end};
pub use purging::{purge, purge_among, purgeable, purgeable_among};
pub use savepoints::{back, mark};
pub use staleness::{no_fresh_pair_is_purged, pairs_stay_fresh};
pub use stopping::stopped;
pub use undoing::undo_one;
