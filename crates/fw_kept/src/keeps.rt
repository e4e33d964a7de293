//! What an agreement node keeps, and the acts that it chooses.

ghost use Rattle.std.specs.Prelude.{◌≡◌, IfOk, IsTrue};
ghost use Rattle.fw_base.specs.Sizes.{accepted};
ghost use Rattle.fw_rules.specs.Agree.{new_node};
ghost use Rattle.fw_kept.specs.Kept.{node_of, IsFor};

use fw_adopted::Adoptions;
use fw_base::Params;
use fw_heard::Heard;
use fw_known::Known;
use fw_list::{Items, Memory, Newest};
use fw_owned::{
    OwnedAgreed, OwnedChange, OwnedEntry, OwnedNewView, OwnedProof, OwnedPropose, OwnedRequest,
    OwnedSigners,
};
use fw_settled::Settled;
use std::alloc::Global;

/// A prepare vote or a proposal that it made.
#[derive(Drop)]
pub struct Cast {
    pub view: u32,
    pub number: u32,
    pub entry: OwnedEntry,
}

/// A commit vote that it made.
#[derive(Drop)]
pub struct Pledge {
    pub view: u32,
    pub number: u32,
    pub digest: [u8; 32],
}

/// What it keeps: the requests, proposals, view changes and new views that it heard, in order; its view, and whether that has begun; for
/// how many ticks it has waited; what it did, the newest first; the votes that it knows and the entries that it has seen, in order;
/// and the numbers that are agreed or answered.
#[derive(Drop)]
pub struct Keeps {
    pub requests: Items<OwnedRequest>,
    pub proposals: Items<OwnedPropose>,
    pub changes: Heard,
    pub new_views: Items<OwnedNewView>,
    pub view: u32,
    pub active: bool,
    pub idle: u32,
    pub casts: Newest<Cast>,
    pub pledges: Newest<Pledge>,
    pub proofs: Newest<OwnedProof>,
    pub moves: Newest<OwnedChange>,
    pub adopted: Adoptions,
    pub votes: Known,
    pub seen: Items<OwnedEntry>,
    pub settled: Settled,
}

impl Keeps {
    /// Nothing heard and nothing done, in view 0; null is seen.
    pub fn new(alloc: Global, params: &Params) -> Result<Keeps, Memory>
        requires { IsTrue (accepted params.now) }
        ensures new { IfOk result (λ keeps. node_of keeps ≡ new_node) }
        ensures sizes { IfOk result (IsFor params.now) }
    {
        let mut seen = Items::new(alloc);
        seen.push(OwnedEntry::Null)?;
        Ok(Keeps {
            requests: Items::new(alloc),
            proposals: Items::new(alloc),
            changes: Heard::new(alloc, params)?,
            new_views: Items::new(alloc),
            view: 0,
            active: true,
            idle: 0,
            casts: Newest::new(alloc),
            pledges: Newest::new(alloc),
            proofs: Newest::new(alloc),
            moves: Newest::new(alloc),
            adopted: Adoptions::new(alloc),
            votes: Known::new(alloc, params)?,
            seen,
            settled: Settled::new(alloc, params)?,
        })
    }
}

/// What it chooses to do.
#[derive(Drop)]
pub enum Act {
    /// A proposal.
    Offer {
        number: u32,
        entry: OwnedEntry,
    },
    /// A prepare vote.
    Prepare {
        number: u32,
        entry: OwnedEntry,
    },
    /// A commit vote, with its proof.
    Pledge {
        number: u32,
        entry: OwnedEntry,
        signers: OwnedSigners,
    },
    Commit(OwnedAgreed),
    /// An agreed entry goes up.
    Up(OwnedAgreed),
}
