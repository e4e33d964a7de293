//! The votes of an agreement node, which it signs.

ghost use Rattle.std.specs.Prelude.{◌≡◌, ◌<◌, IfOk};
ghost use Rattle.fw_text.specs.Texts.{hash, Voted};
ghost use Rattle.fw_frame.specs.Parts.{vote_slot};
ghost use Rattle.fw_means.specs.Means.{signed_by};
ghost use Rattle.fw_rules.specs.Agree as agree;
ghost use Rattle.fw_kept.specs.Kept.{self_of};
ghost use Rattle.fw_owned.specs.Pieces.{vote_of};
ghost use Rattle.fw_kept.specs.Acts.{IsNumber};
ghost use Rattle.fw_act.specs.Doing.{IsAgreements};

use fw_digest::digest;
use fw_directory::Directory;
use fw_frame::{two_numbers, vote_slot};
use fw_hand::Hand;
use fw_list::{Bytes, Memory, SIGNATURE_LEN};
use fw_means::signed;
use fw_owned::OwnedVote;
use std::alloc::Global;

/// What a vote signs: its phase, its view, its number, and the digest of its entry.
#[tactic(auto, unfolding(fw_text::specs::Texts::hash, fw_text::specs::Texts::text_bytes))]
fn voted(phase: u32, view: u32, number: u32, entry: &[u8; 32]) -> [u8; 32]
    ensures { result ≡ hash (Voted phase view number entry.now) }
{
    let tag = if phase == 0 { 18 } else { 19 };
    digest(tag, &two_numbers(view, number), entry)
}

/// The signature of a digest for a vote.
fn signature(
    directory: &Directory,
    own: u32,
    hand: &Hand,
    phase: u32,
    view: u32,
    number: u32,
    digest: &[u8; 32],
) -> [u8; SIGNATURE_LEN]
    requires hand { IsAgreements directory.now.params own hand.now }
    requires view { view < directory.now.params.views }
    requires number { IsNumber directory.now.params number }
    ensures { result ≡ signed_by hand.now (vote_slot phase view number own) digest.now }
{
    // (they say in the contract alone which slots the hand has)
    let _directory = directory;
    match signed(hand, vote_slot(phase, view, number, own), digest) {
        Some(values) => values,
        None => unreachable!(),
    }
}

/// Its vote in a view for the entry of a digest: prepare (phase 0) or commit.
pub fn own_vote(
    alloc: Global,
    directory: &Directory,
    own: u32,
    hand: &Hand,
    phase: u32,
    view: u32,
    number: u32,
    entry: &[u8; 32],
) -> Result<OwnedVote, Memory>
    requires hand { IsAgreements directory.now.params own hand.now }
    requires view { view < directory.now.params.views }
    requires number { IsNumber directory.now.params number }
    ensures { IfOk result (λ vote. vote_of vote ≡ agree.own_vote (self_of directory.now hand.now own) phase view number entry.now) }
{
    let digest = voted(phase, view, number, entry);
    let sig = signature(directory, own, hand, phase, view, number, &digest);
    Ok(OwnedVote {
        phase,
        view,
        number,
        agree: own,
        digest: *entry,
        sig: Bytes::copy_of(alloc, &sig)?,
    })
}
