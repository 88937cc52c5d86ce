//! What conduct makes of a connection may stand: in every legal history the step that is due may be made.
#![tactic(auto)]

mod laws;

pub use laws::{due_steps_may_be_made, due_steps_stand};
