//! Pieces of frames that have their bytes.

use crate::Few;
use fw_list::Bytes;

/// A client's request.
#[derive(Drop)]
pub struct OwnedRequest {
    pub client: u32,
    pub stamp: u32,
    pub body: Bytes,
    pub sig: Bytes,
}

/// What stands at a number of the list.
#[derive(Drop)]
pub enum OwnedEntry {
    Null,
    Request(OwnedRequest),
}

/// The signature of an agreement node.
#[derive(Drop)]
pub struct OwnedSigner {
    pub agree: u32,
    pub sig: Bytes,
}

/// Signatures, ascending by node.
pub type OwnedSigners = Few<OwnedSigner>;

/// A proposal of an entry.
#[derive(Drop)]
pub struct OwnedPropose {
    pub view: u32,
    pub number: u32,
    pub entry: OwnedEntry,
    pub sig: Bytes,
}

/// A vote for the entry of a digest: prepare (phase 0) or commit (phase 1).
#[derive(Drop)]
pub struct OwnedVote {
    pub phase: u32,
    pub view: u32,
    pub number: u32,
    pub agree: u32,
    pub digest: [u8; 32],
    pub sig: Bytes,
}

/// An entry that a quorum has prepared at a number, in a view.
#[derive(Drop)]
pub struct OwnedProof {
    pub view: u32,
    pub number: u32,
    pub entry: OwnedEntry,
    pub signers: OwnedSigners,
}

/// Proofs, ascending by number.
pub type OwnedProofs = Few<OwnedProof>;

/// An agreement node's change to a view, with a proof for each number at which it was prepared.
#[derive(Drop)]
pub struct OwnedChange {
    pub view: u32,
    pub agree: u32,
    pub proofs: OwnedProofs,
    pub sig: Bytes,
}

/// View changes, ascending by node.
pub type OwnedChanges = Few<OwnedChange>;

/// The beginning of a view, from the changes to it.
#[derive(Drop)]
pub struct OwnedNewView {
    pub view: u32,
    pub changes: OwnedChanges,
    pub sig: Bytes,
}

/// An entry with the commit votes of a quorum.
#[derive(Drop)]
pub struct OwnedAgreed {
    pub view: u32,
    pub number: u32,
    pub entry: OwnedEntry,
    pub signers: OwnedSigners,
}

/// The reply to a number: without an answer where the stamp is 0.
#[derive(Drop)]
pub struct OwnedReply {
    pub number: u32,
    pub client: u32,
    pub stamp: u32,
    pub body: Bytes,
    pub values: Bytes,
}
