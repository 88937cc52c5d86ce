//! A list that only grows, and stretches of it that are kept by themselves.
#![tactic(auto)]

mod parts;
mod pin;
mod segment;
mod store;

pub use pin::Pin;
pub use store::Store;

#[cfg(test)]
mod tests;
