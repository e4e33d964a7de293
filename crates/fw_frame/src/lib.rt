//! The nine frames that pass between seats: their bytes, read and written, and what their signatures sign.
#![tactic(auto)]

mod carried;
mod frame;
mod gather;
mod parts;
mod read;
mod shown;
mod texts;
mod write;

pub use frame::{Change, ChangeList, Entry, Frame, Proof, ProofList, Request, Signer, Signers};
pub use parts::{Part, PartList, vote_slot};
pub use shown::{Carried, Shown, Text, TextList};
pub use texts::{entry_digest, text_of_change, text_of_new_view, three_numbers, two_numbers};
