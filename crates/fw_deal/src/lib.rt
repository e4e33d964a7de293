//! The deal: every secret, share and key of a deployment, as a function of its seed; the directory of their digests; and the
//! hands of the seats.
#![tactic(auto)]

mod deal;
mod digests;
mod hands;
mod rows;

pub use deal::{Deal, deal_file};
pub use fw_directory::Directory;
pub use fw_hand::{Hand, read_hand, write_hand};
