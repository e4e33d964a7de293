//! What a world of seats sees, whatever its messages are: traces, runs, and the rules of three roles.
//!
//! The definitions stand in `specs/`. `M` are messages, `O` operations, `R` replies.
#![tactic(auto)]

use fw_base::Seat;

/// What a seat is given.
#[derive(Debug, Drop)]
pub enum Input<M, O> {
    /// A message from a seat.
    Heard { from: Seat, message: M },
    Tick,
    /// An operation from the client's user.
    Submitted { op: O },
}

/// A message on its way, or arrived.
#[derive(Debug, Drop)]
pub struct Sent<M> {
    pub from: Seat,
    pub to: Seat,
    pub message: M,
}

/// An input that a seat took; a delivery has the place of its message in the pool.
#[derive(Debug, Drop)]
pub struct Logged<M, O> {
    pub seat: Seat,
    pub input: Input<M, O>,
    pub frame: Option<usize>,
}

/// A reply that a message tells a client.
#[derive(Debug, Drop)]
pub struct Told<R> {
    pub number: u32,
    pub stamp: u32,
    pub reply: R,
}

/// A share: who made it, of which number, and what it says.
#[derive(Debug, Drop)]
pub struct Share<V> {
    pub number: u32,
    pub exec: u32,
    pub value: V,
}
