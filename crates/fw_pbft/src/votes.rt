//! The votes of agreement nodes, as a list that is looked through.

ghost use Rattle.std.specs.Prelude.{◌≡◌, [], ◌&&◌, ℕ, false, true, not, map, take, length, bytes_eq, Ok, IfOk, OnOk, OnErr, IfSome, IsTrue};
ghost use Rattle.std.specs.List.{find};
ghost use Rattle.std.specs.Option.{option_copied, option_map};
ghost use Rattle.fw_base.specs.Sizes.{accepted, quorum};
ghost use Rattle.fw_pbft.specs.Tallies.{Ballot, ballots_at, has_voted, ballots_with, quorum_of, signer_of, signers_of, is_at, ballot_of, seen_signer};

use fw_base::Params;
use fw_frame::{Signer, Signers};
use fw_list::{Bytes, Items, Memory};
use std::alloc::Global;
use std::marker::Model;

/// A signer's first vote for a digest, at a number, in a view.
#[derive(Drop)]
struct KeptVote {
    phase: u32,
    view: u32,
    number: u32,
    signer: u32,
    digest: [u8; 32],
    sig: Bytes,
}

/// The votes that agreement nodes cast. A signer may vote for several digests, and its first signature on each is kept.
#[derive(Drop)]
pub struct Votes {
    alloc: Global,
    params: Params,
    votes: Items<KeptVote>,
}

impl Model for Votes {
    ghost use Rattle.std.specs.Prelude.{IsTrue, map};
    ghost use Rattle.fw_base.specs.Sizes.{accepted};
    ghost use Rattle.fw_pbft.specs.Tallies.{Tally, ballot_of};

    ghost Value = { Tally };

    ghost view = { λ v. record { params = v.params; ballots = map ballot_of v.votes } };

    ghost invariant = { λ v. IsTrue (accepted v.params) };
}

/// Whether this is a signer's vote for a digest.
fn is_vote(
    vote: &KeptVote,
    phase: u32,
    view: u32,
    number: u32,
    digest: &[u8; 32],
    signer: u32,
) -> bool
    ensures { result ≡ (is_at phase view number signer (ballot_of vote.now) && bytes_eq vote.now.digest digest.now) }
{
    vote.phase == phase
        && vote.view == view
        && vote.number == number
        && vote.signer == signer
        && vote.digest == *digest
}

/// A signer's vote for a digest, if it is among these.
fn vote_of<'a>(
    votes: &'a [KeptVote],
    phase: u32,
    view: u32,
    number: u32,
    digest: &[u8; 32],
    signer: u32,
) -> Option<&'a KeptVote>
    ensures { option_copied result ≡ find (λ v. is_at phase view number signer (ballot_of v) && bytes_eq v.digest digest.now) votes.now }
{
    votes
        .iter()
        .find(|vote| is_vote(vote, phase, view, number, digest, signer))
}

/// A signer with its signature on a vote, if it has cast it.
fn signer_of<'a>(
    votes: &'a Votes,
    phase: u32,
    view: u32,
    number: u32,
    digest: &[u8; 32],
    agree: u32,
) -> Option<Signer<'a>>
    ensures { option_map seen_signer result ≡ signer_of votes.now phase view number digest.now agree }
{
    match vote_of(votes.votes.items(), phase, view, number, digest, agree) {
        Some(vote) => Some(Signer {
            agree,
            sig: vote.sig.items(),
        }),
        None => None,
    }
}

impl Votes {
    /// No votes so far.
    pub fn new(alloc: Global, params: &Params) -> Result<Votes, Memory>
        requires { IsTrue (accepted params.now) }
        ensures params { IfOk result (λ votes. votes.params ≡ params.now) }
        ensures none { IfOk result (λ votes. (phase view number signer : ℕ) → ballots_at votes phase view number signer ≡ []) }
    {
        Ok(Votes {
            alloc,
            params: *params,
            votes: Items::new(alloc),
        })
    }

    /// Counts a vote: prepare (phase 0) or commit (phase 1), with the signer's signature. The answer is true exactly where this signer
    /// had no such vote for this digest; where it had, that needs no memory and changes nothing. After want of memory all is as before.
    pub fn add(
        &mut self,
        phase: u32,
        view: u32,
        number: u32,
        signer: u32,
        digest: &[u8; 32],
        sig: &[u8],
    ) -> Result<bool, Memory>
        ensures params { self.new.params ≡ self.old.params }
        ensures first { IfOk result (λ first. first ≡ not (has_voted self.old phase view number digest.now signer)) }
        ensures kept { OnOk result ((p v n i : ℕ) → ballots_at self.new p v n i ≡ ballots_with self.old (record { phase = phase; view = view; number = number; signer = signer; digest = digest.now; sig = sig.now }) p v n i) }
        ensures again { has_voted self.old phase view number digest.now signer ≡ true → result ≡ Ok false }
        ensures err { OnErr result (self.new ≡ self.old) }
    {
        if vote_of(self.votes.items(), phase, view, number, digest, signer).is_some() {
            return Ok(false);
        }
        self.votes.push(KeptVote {
            phase,
            view,
            number,
            signer,
            digest: *digest,
            sig: Bytes::copy_of(self.alloc, sig)?,
        })?;
        Ok(true)
    }

    /// The lowest signers of a vote, at most as many as a quorum has, each with its first signature on it.
    fn lowest_signers(
        &self,
        phase: u32,
        view: u32,
        number: u32,
        digest: &[u8; 32],
    ) -> Result<Signers<'_>, Memory>
        ensures { IfOk result (λ signers. map seen_signer signers ≡ take (quorum self.now.params) (signers_of self.now phase view number digest.now)) }
    {
        let quorum = self.params.quorum() as usize;
        let mut signers = Signers::new(self.alloc);
        for agree in 0..self.params.agreements() {
            if signers.len() == quorum {
                return Ok(signers);
            }
            if let Some(signer) = signer_of(self, phase, view, number, digest, agree) {
                signers.push(signer)?;
            }
        }
        Ok(signers)
    }

    /// The lowest signers of a vote that are a quorum, each with its first signature on it; none exactly where fewer have cast it.
    pub fn quorum(
        &self,
        phase: u32,
        view: u32,
        number: u32,
        digest: &[u8; 32],
    ) -> Result<Option<Signers<'_>>, Memory>
        ensures found { IfOk result (λ found. option_map (λ signers. map seen_signer signers) found ≡ quorum_of self.now phase view number digest.now) }
        ensures len { IfOk result (λ found. IfSome found (λ signers. length signers ≡ quorum self.now.params)) }
    {
        let signers = self.lowest_signers(phase, view, number, digest)?;
        if signers.len() == self.params.quorum() as usize {
            Ok(Some(signers))
        } else {
            Ok(None)
        }
    }
}
