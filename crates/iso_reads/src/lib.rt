//! The steps of reads: each adds one entry to the history of the state.
#![tactic(auto)]

mod asking;
mod finding;
mod guarding;
mod landing;
mod laws;
mod looking;
mod outcomes;
mod plain;
mod slots;
mod stepping;

pub use laws::{pins_are_current, pins_are_settled};
pub use looking::look;
pub use outcomes::Looked;
pub use stepping::{Stepped, next_entry};
