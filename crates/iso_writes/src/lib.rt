//! The steps that change rows: each adds one entry to the history of the state.
#![tactic(auto)]

mod changing;
mod coming;
mod hindered;
mod indexes;
mod judging;
mod keying;
mod keys;
mod rivals;
mod slots;
mod steps;
mod taking;
mod writing;

pub use coming::Written;
pub use steps::{delete, insert, update};
pub use writing::refuse;
