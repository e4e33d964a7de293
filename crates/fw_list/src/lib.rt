//! Want of memory, and the lists that all layers share: bytes, items in order, and items with the newest first.
#![tactic(auto)]

mod bytes;
mod items;
mod limits;
mod memory;
mod newest;
mod number;

pub use bytes::Bytes;
pub use items::Items;
pub use limits::{BODY_LEN, LONGEST_FRAME, LONGEST_TEXT, ROW_LEN, SIGNATURE_LEN};
pub use memory::Memory;
pub use newest::Newest;
