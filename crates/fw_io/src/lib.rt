//! The outside as bytes: sources and sinks, each with its count of faults, in memory and over the standard library.
#![tactic(auto)]

mod sink;
mod source;
mod steady;

pub use sink::{MemorySink, Sink, Took, WriteFault, WriterSink, write_all};
pub use source::{Calls, Got, MemorySource, ReadAll, ReaderSource, Source, read_all};
pub use steady::{SteadySink, SteadySource};
