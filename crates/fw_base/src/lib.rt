//! A deployment: its sizes, seats, slots and places, and who is linked with whom; counts of faults, and the link.
#![tactic(auto)]

mod limits;
mod link;
mod name;
mod params;
mod seat;
mod slot;

pub use fw_list::{Bytes, Memory};
pub use limits::{MOST_CLIENTS, MOST_FAULTS, MOST_KEYS, MOST_NUMBERS, MOST_STAMPS, MOST_VIEWS};
pub use link::{Done, Heard, IdleLink, Link};
pub use params::{ParamFault, Params};
pub use seat::{Seat, Seats, linked};
pub use slot::{Place, Slot, place_index};
