//! The state, and what its steps have in common.
#![tactic(auto)]

mod chain;
mod changes;
mod keys;
mod locks;
mod pace;
mod parts;
mod state;
#[cfg(test)]
mod tests;

pub use chain::write_commit;
pub use changes::{desk_of, enter, make_room, move_to, note};
pub use locks::{
    Judged, can_claim, covered, enqueue, grants, hold, is_fresh_on, is_limited, judge, place, take,
    take_kept,
};
pub use pace::Pace;
pub use parts::Parts;
pub use state::State;
