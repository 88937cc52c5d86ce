//! Runs on threads, held at places that are chosen: what no clause of the run says, and any order of its threads leaves open.
#![tactic(auto)]

#[cfg(test)]
mod tests;
