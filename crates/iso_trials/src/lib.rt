//! Trials of the steps: every call that adds an entry to the history, and every one that says what the dispatcher may do, is made
//! here by itself, on a state that its history has reached, and its answer is looked at. What a call asks for is decided from
//! the state when it runs: where it is not so the call is not made, and the test fails.
#![tactic(auto)]

mod ends;
mod guards;
mod heads;
mod lines;
mod locks;
mod owns;
mod pace;
mod purges;
mod reads;
#[cfg(test)]
mod tests;
mod trial;
mod writes;

pub use trial::Trial;
