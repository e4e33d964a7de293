//! The votes that an agreement node knows.

ghost use Rattle.std.specs.Prelude.{◌≡◌, ◌∷◌, [], ◌++◌, ℕ, List, length, map, IfOk, OnOk, OnErr, IfSome, IsTrue};
ghost use Rattle.std.specs.Option.{option_map};
ghost use Rattle.fw_base.specs.Sizes.{accepted};
ghost use Rattle.fw_frame.specs.Writing.{IsCountable};
ghost use Rattle.fw_rules.specs.Agree as agree;
ghost use Rattle.fw_pbft.specs.Tallies.{signature_of, seen_signer};
ghost use Rattle.fw_owned.specs.Pieces.{vote_of};
ghost use Rattle.fw_known.specs.Counted.{signature_with};

use fw_base::Params;
use fw_frame::Signers;
use fw_list::Memory;
use fw_owned::OwnedVote;
use fw_pbft::Votes;
use std::alloc::Global;
use std::marker::Model;

/// The votes that it knows, its own among them: in order as they came, and counted.
#[derive(Drop)]
pub struct Known {
    tally: Votes,
    votes: Vec<OwnedVote>,
}

impl Model for Known {
    ghost use Rattle.std.specs.Prelude.{IsTrue};
    ghost use Rattle.fw_base.specs.Sizes.{accepted};
    ghost use Rattle.fw_known.specs.Counted.{KnownVotes, AreCounted};

    ghost Value = { KnownVotes };

    ghost view = { λ k. record { params = k.tally.params; votes = k.votes.items } };

    ghost invariant = { λ k. IsTrue (accepted k.tally.params) × AreCounted k.tally k.votes.items };
}

/// Counts a vote. After want of memory the count is as before.
fn count(tally: &mut Votes, vote: &OwnedVote) -> Result<(), Memory>
    ensures params { tally.new.params ≡ tally.old.params }
    ensures counted { OnOk result ((phase view number signer : ℕ) (digest : List ℕ) → signature_of tally.new phase view number digest signer ≡ signature_with tally.old vote.now phase view number digest signer) }
    ensures err { OnErr result (tally.new ≡ tally.old) }
{
    tally.add(
        vote.phase,
        vote.view,
        vote.number,
        vote.agree,
        &vote.digest,
        vote.sig.items(),
    )?;
    Ok(())
}

impl Known {
    /// No votes so far.
    pub fn new(alloc: Global, params: &Params) -> Result<Known, Memory>
        requires { IsTrue (accepted params.now) }
        ensures { IfOk result (λ known. known ≡ record { params = params.now; votes = [] }) }
    {
        Ok(Known {
            tally: Votes::new(alloc, params)?,
            votes: Vec::new(alloc),
        })
    }

    /// The votes in order.
    pub fn items(&self) -> &[OwnedVote]
        ensures { result.now ≡ self.now.votes }
    {
        self.votes.as_slice()
    }

    /// Adds a vote at the end, and counts it. After want of memory all is as before.
    pub fn push(&mut self, vote: OwnedVote) -> Result<(), Memory>
        ensures ok { OnOk result (self.new ≡ record self.old { votes = self.old.votes ++ vote ∷ [] }) }
        ensures err { OnErr result (self.new ≡ self.old) }
    {
        let len = self.votes.as_slice().len();
        self.votes.push(vote)?;
        let counted = count(&mut self.tally, &self.votes[len]);
        if counted.is_err() {
            self.votes.truncate(len);
        }
        counted
    }

    /// The lowest signers of a vote that are a quorum, each with its first signature on it; none exactly where fewer have cast it.
    pub fn quorum(
        &self,
        phase: u32,
        view: u32,
        number: u32,
        digest: &[u8; 32],
    ) -> Result<Option<Signers<'_>>, Memory>
        ensures found { IfOk result (λ found. (me : agree.Self (List ℕ)) (x : agree.Node) → me.means.params ≡ self.now.params → x.votes ≡ map vote_of self.now.votes → option_map (λ signers. map seen_signer signers) found ≡ agree.vote_quorum me x phase view number digest.now) }
        ensures few { IfOk result (λ found. IfSome found IsCountable) }
    {
        self.tally.quorum(phase, view, number, digest)
    }
}
