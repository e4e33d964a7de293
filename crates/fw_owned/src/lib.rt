//! Pieces of frames that have their bytes: copied from frames, copied again, lent to frames, and written as frames.
#![tactic(auto)]

mod few;
mod frames;
mod lent;
mod owned;
mod proofs;

pub use few::Few;
pub use lent::{copy_signers, lent_signers, owned_signers};
pub use owned::{
    OwnedAgreed, OwnedChange, OwnedChanges, OwnedEntry, OwnedNewView, OwnedProof, OwnedProofs,
    OwnedPropose, OwnedReply, OwnedRequest, OwnedSigner, OwnedSigners, OwnedVote,
};
pub use proofs::{copy_changes, lent_changes, owned_changes};
