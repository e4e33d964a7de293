//! The hands of the seats of a deployment, and the files that hold them.
#![tactic(auto)]

mod file;
mod hand;
mod held;
mod keys;
mod part;
mod sizes;
mod slots;
mod writing;

pub use file::{read_hand, write_hand};
pub use hand::{Hand, Held, HeldKey};
pub use held::point_of;
pub use slots::{clients_of, slots_of};
