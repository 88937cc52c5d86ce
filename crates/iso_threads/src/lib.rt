//! The run of a script on threads: an agent for each connection on a thread of its own, and the dispatcher on the caller's.
#![tactic(auto)]

mod backs;
mod flags;
mod host;
mod lead;
#[cfg(test)]
mod tests;
mod threads;

pub use threads::run_threads;
