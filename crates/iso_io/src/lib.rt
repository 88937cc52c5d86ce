//! Where scripts come from and where output goes: sources and sinks that count their faults, and
//! the calls that read a script and write a text whole.
#![tactic(auto)]

mod memory;
mod script;
mod std_edge;
mod traits;

pub use memory::{SinkMemory, SinkPlain, SourceMemory, SourcePlain};
pub use script::{ReadFault, WriteFault, read_script, write_whole};
pub use std_edge::{SinkStd, SourceStd};
pub use traits::{Failed, Sink, Source};

#[cfg(test)]
mod tests;
