//! The frames of lies that agreement nodes sign: proposals, votes and view changes.

ghost use Rattle.std.specs.Prelude.{◌≡◌, ◌<◌, [], IfOk, IsTrue};
ghost use Rattle.fw_list.specs.Numbers.{within};
ghost use Rattle.fw_base.specs.Sizes.{accepted, agreements};
ghost use Rattle.fw_text.specs.Texts.{hash, Voted, Changed};
ghost use Rattle.fw_frame.specs.Parts.{entry_digest, vote_slot};
ghost use Rattle.fw_frame.specs.Spelling.{frame_bytes};
ghost use Rattle.fw_step.specs.Fitting.{entry_fits};
ghost use Rattle.fw_lies.specs.Signing.{signature_of};
ghost use Rattle.fw_lies.specs.Lying.{entry_of, proposal_of, vote_of, change_of};

use crate::requests::{entry_of, lent_entry};
use crate::signing::values_for;
use fw_base::Slot;
use fw_deal::Deal;
use fw_digest::digest;
use fw_frame::{Change, Frame, entry_digest, three_numbers, two_numbers, vote_slot};
use fw_list::{Bytes, Items, Memory, SIGNATURE_LEN};
use fw_step::LieRequest;
use std::alloc::Global;

/// The digest of a vote's text.
#[tactic(auto, unfolding(fw_text::specs::Texts::hash, fw_text::specs::Texts::text_bytes))]
fn vote_digest(phase: u32, view: u32, number: u32, entry: &[u8; 32]) -> [u8; 32]
    ensures { result ≡ hash (Voted phase view number entry.now) }
{
    let tag = if phase == 0 { 18 } else { 19 };
    digest(tag, &two_numbers(view, number), entry)
}

/// The digest of the text of a view change without proofs.
#[tactic(auto, unfolding(fw_text::specs::Texts::hash, fw_text::specs::Texts::text_bytes))]
fn change_digest(view: u32, agree: u32) -> [u8; 32]
    ensures { result ≡ hash (Changed view agree []) }
{
    digest(20, &three_numbers(view, agree, 0), &[])
}

/// The signature of an agreement node's vote for the entry of a digest.
fn vote_values(
    deal: &Deal,
    phase: u32,
    view: u32,
    number: u32,
    agree: u32,
    entry: &[u8; 32],
) -> [u8; SIGNATURE_LEN]
    requires view { view < deal.now.origin.params.views }
    requires number { IsTrue (within 1 number deal.now.origin.params.numbers) }
    requires agree { agree < agreements deal.now.origin.params }
    ensures { result ≡ signature_of deal.now.origin (vote_slot phase view number agree) 0 (Voted phase view number entry.now) }
{
    let digest = vote_digest(phase, view, number, entry);
    values_for(deal, vote_slot(phase, view, number, agree), 0, &digest)
}

/// The bytes of the frame of a proposal, signed by the primary of its view.
pub(crate) fn proposal_bytes(
    alloc: Global,
    deal: &Deal,
    view: u32,
    number: u32,
    entry: &[LieRequest],
) -> Result<Bytes, Memory>
    requires sizes { IsTrue (accepted deal.now.origin.params) }
    requires view { view < deal.now.origin.params.views }
    requires number { IsTrue (within 1 number deal.now.origin.params.numbers) }
    requires fits { IsTrue (entry_fits deal.now.origin.params entry.now) }
    ensures { IfOk result (λ bytes. bytes ≡ frame_bytes (proposal_of deal.now.origin view number (entry_of deal.now.origin entry.now))) }
{
    let made = entry_of(alloc, deal, entry)?;
    let entry = lent_entry(&made);
    let digest = entry_digest(&entry);
    let primary = view % deal.directory().params().agreements();
    let sig = vote_values(deal, 0, view, number, primary, &digest);
    let frame = Frame::Propose {
        view,
        number,
        entry,
        sig: &sig,
    };
    frame.write(alloc)
}

/// The bytes of the frame of an agreement node's vote.
pub(crate) fn vote_bytes(
    alloc: Global,
    deal: &Deal,
    agree: u32,
    phase: u32,
    view: u32,
    number: u32,
    entry: &[LieRequest],
) -> Result<Bytes, Memory>
    requires sizes { IsTrue (accepted deal.now.origin.params) }
    requires agree { agree < agreements deal.now.origin.params }
    requires view { view < deal.now.origin.params.views }
    requires number { IsTrue (within 1 number deal.now.origin.params.numbers) }
    requires fits { IsTrue (entry_fits deal.now.origin.params entry.now) }
    ensures { IfOk result (λ bytes. bytes ≡ frame_bytes (vote_of deal.now.origin phase view number (entry_digest hash (entry_of deal.now.origin entry.now)) agree)) }
{
    let made = entry_of(alloc, deal, entry)?;
    let digest = entry_digest(&lent_entry(&made));
    let sig = vote_values(deal, phase, view, number, agree, &digest);
    let frame = Frame::Vote {
        phase,
        view,
        number,
        agree,
        digest: &digest,
        sig: &sig,
    };
    frame.write(alloc)
}

/// The bytes of the frame of an agreement node's view change without proofs.
pub(crate) fn change_bytes(
    alloc: Global,
    deal: &Deal,
    agree: u32,
    view: u32,
) -> Result<Bytes, Memory>
    requires agree { agree < agreements deal.now.origin.params }
    requires view { view < deal.now.origin.params.views }
    ensures { IfOk result (λ bytes. bytes ≡ frame_bytes (change_of deal.now.origin view agree)) }
{
    let digest = change_digest(view, agree);
    let sig = values_for(deal, Slot::Change { view, agree }, 0, &digest);
    let change = Change {
        view,
        agree,
        proofs: Items::new(alloc),
        sig: &sig,
    };
    change.write(alloc)
}
