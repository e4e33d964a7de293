//! What is wrong with an input.

use fw_list::Bytes;

/// The first part of an input that is wrong. Records, faulty seats and steps count from 0.
#[derive(Debug, Drop)]
pub enum InputFault {
    /// The document is no TOML.
    NotToml,
    /// The field of this name is missing, of another kind, or out of its limit, or it is none of a document's.
    Field { name: Bytes },
    /// There are so many keys of one-time signatures, which is more than there may be.
    Keys { keys: u32 },
    Record { index: u32 },
    Faulty { index: u32 },
    Step { index: u32 },
    /// The word names no seat of the deployment, or another seat than the hand file's.
    Seat,
    /// The bytes are no hand file.
    Hand,
}
