//! Scripts: head lines, body lines, and what each line asks for.
#![tactic(auto)]

mod event;
mod events;
mod fault;
mod keyed;
mod keys;
mod naming;
mod progress;
mod read;
mod reader;
mod rules;
mod script;
mod words;

pub use fault::{LineCause, ScriptFault};
pub use read::exactly_one;
pub use script::{Line, Script, What};

#[cfg(test)]
mod tests;
