//! Bytes read from the front, and bytes added at the end: numbers, the highest byte first, and parts of a known length.
#![tactic(auto)]

mod reader;
mod writer;

pub use reader::Reader;
pub use writer::Writer;
