//! The records that a service starts with, each with one spelling in words and one in bytes. Readers take exactly the
//! spellings, and look at all of a record before they copy anything.
#![tactic(auto)]

mod bytes;
mod fields;
mod limits;
mod names;
mod parts;
mod readers;
mod words;
mod writing;

pub use bytes::read_starts;
pub use limits::MOST_RECORDS;
pub use names::is_new;
pub use words::start_of;
pub use writing::add_starts;
