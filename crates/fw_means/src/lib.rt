//! What the rules of the seats need: frames admitted that come from a linked seat and are valid, digests signed by a hand, the
//! values of a reply joined from shares, and bodies sealed and opened.
#![tactic(auto)]

mod means;

pub use means::{admitted, join, open_reply, seal_op, signed};
