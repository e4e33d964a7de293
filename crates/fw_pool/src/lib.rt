//! What a world of seats has sent and taken: a pool of frames, of which each byte is kept once, and a log that names them by
//! their places.
#![tactic(auto)]

mod counts;
mod due;
mod frames;
mod note;
mod pool;

pub use pool::Pool;
