//! Where the program's bytes come from and go to: sources and sinks that count their faults.
#![tactic(auto)]

pub mod laws;
mod memory;
mod sink;
mod source;
mod std_io;
pub mod transfer;

pub use memory::{MemorySink, MemorySource};
pub use sink::{Sink, SinkError};
pub use source::Source;
pub use std_io::{ReaderSource, WriterSink};

#[cfg(test)]
mod tests;
