//! Tests of the outside that need code: calls that end well with ample memory, and sources, sinks, readers and writers that
//! fail in the middle.
#![tactic(auto)]

#[cfg(test)]
mod calling;
#[cfg(test)]
mod failing;
#[cfg(test)]
mod lists;
#[cfg(test)]
mod reading;
