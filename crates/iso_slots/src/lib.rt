//! Tables, records and slots, called from below: every public call of their crates is made here with ample memory, and its
//! answer is looked at. The crate has nothing but tests.
#![tactic(auto)]

#[cfg(test)]
mod chain;
#[cfg(test)]
mod changes;
#[cfg(test)]
mod guards;
#[cfg(test)]
mod logs;
#[cfg(test)]
mod records;
#[cfg(test)]
mod rows;
#[cfg(test)]
mod slots;
#[cfg(test)]
mod tables;
#[cfg(test)]
mod tests;
#[cfg(test)]
mod units;
