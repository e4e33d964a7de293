//! The acts of an agreement node.

ghost use Rattle.std.specs.Prelude.{◌≡◌, ◌++◌, ◌<◌, ◌^◌, ℕ, List, IfOk, OnOk, OnErr, IsTrue, length, map};
ghost use Rattle.fw_base.specs.declared.params.Params.{Params};
ghost use Rattle.fw_base.specs.Sizes.{accepted};
ghost use Rattle.fw_kept.specs.declared.keeps.Act.TheVariants.{Commit, Up};
ghost use Rattle.fw_hand.specs.Hands.{PlainHand};
ghost use Rattle.fw_frame.specs.View.{Proposes, Agrees};
ghost use Rattle.fw_means.specs.Means.{written};
ghost use Rattle.fw_rules.specs.Agree as agree;
ghost use Rattle.fw_kept.specs.Kept.{self_of, node_of, act_of, IsFor};
ghost use Rattle.fw_owned.specs.Pieces.{entry_of, signer_of, agreed_of};
ghost use Rattle.fw_kept.specs.Acts.{IsNumber, IsDoable, IsOpen};
ghost use Rattle.fw_act.specs.Doing.{IsAgreements};

use crate::sending::{send_to_others, send_to_row0};
use crate::signing::own_vote;
use fw_directory::Directory;
use fw_frame::{Frame, entry_digest};
use fw_hand::Hand;
use fw_kept::{Act, Cast, Keeps, Pledge};
use fw_list::{Bytes, Memory};
use fw_node::Outbox;
use fw_owned::{OwnedAgreed, OwnedEntry, OwnedProof, OwnedSigners};
use std::alloc::Global;

/// The frame of a proposal.
fn proposal_frame(
    alloc: Global,
    view: u32,
    number: u32,
    entry: &OwnedEntry,
    sig: &[u8],
) -> Result<Bytes, Memory>
    ensures { IfOk result (λ bytes. bytes ≡ written (Proposes (record { view = view; number = number; entry = entry_of entry.now; sig = sig.now }))) }
{
    Frame::Propose {
        view,
        number,
        entry: entry.lent(),
        sig,
    }
    .write(alloc)
}

/// Proposes an entry. After want of memory the outbox is as before.
fn offers(
    alloc: Global,
    directory: &Directory,
    own: u32,
    hand: &Hand,
    keeps: &mut Keeps,
    number: u32,
    entry: OwnedEntry,
    out: &mut Outbox,
) -> Result<(), Memory>
    requires hand { IsAgreements directory.now.params own hand.now }
    requires view { keeps.old.view < directory.now.params.views }
    requires number { IsNumber directory.now.params number }
    ensures kept { OnOk result (node_of keeps.new ≡ (agree.performs (self_of directory.now hand.now own) (node_of keeps.old) (agree.Offer number (entry_of entry))).0) }
    ensures sent { OnOk result (out.new ≡ out.old ++ (agree.performs (self_of directory.now hand.now own) (node_of keeps.old) (agree.Offer number (entry_of entry))).1) }
    ensures sizes { (p : Params) → IsFor p keeps.old → IsFor p keeps.new }
    ensures err { OnErr result (out.new ≡ out.old) }
{
    let view = keeps.view;
    let digest = entry_digest(&entry.lent());
    let vote = own_vote(alloc, directory, own, hand, 0, view, number, &digest)?;
    let bytes = proposal_frame(alloc, view, number, &entry, vote.sig.items())?;
    keeps.seen.push(entry.copy(alloc)?)?;
    keeps.votes.push(vote)?;
    keeps.casts.push(Cast {
        view,
        number,
        entry,
    })?;
    send_to_others(alloc, directory, own, bytes.items(), out)
}

/// Makes a prepare vote. After want of memory the outbox is as before.
fn prepares(
    alloc: Global,
    directory: &Directory,
    own: u32,
    hand: &Hand,
    keeps: &mut Keeps,
    number: u32,
    entry: OwnedEntry,
    out: &mut Outbox,
) -> Result<(), Memory>
    requires hand { IsAgreements directory.now.params own hand.now }
    requires view { keeps.old.view < directory.now.params.views }
    requires number { IsNumber directory.now.params number }
    ensures kept { OnOk result (node_of keeps.new ≡ (agree.performs (self_of directory.now hand.now own) (node_of keeps.old) (agree.Prepare number (entry_of entry))).0) }
    ensures sent { OnOk result (out.new ≡ out.old ++ (agree.performs (self_of directory.now hand.now own) (node_of keeps.old) (agree.Prepare number (entry_of entry))).1) }
    ensures sizes { (p : Params) → IsFor p keeps.old → IsFor p keeps.new }
    ensures err { OnErr result (out.new ≡ out.old) }
{
    let view = keeps.view;
    let digest = entry_digest(&entry.lent());
    let vote = own_vote(alloc, directory, own, hand, 0, view, number, &digest)?;
    let bytes = vote.frame(alloc)?;
    keeps.votes.push(vote)?;
    keeps.casts.push(Cast {
        view,
        number,
        entry,
    })?;
    send_to_others(alloc, directory, own, bytes.items(), out)
}

/// Makes a commit vote, and keeps its proof. After want of memory the outbox is as before.
fn pledges(
    alloc: Global,
    directory: &Directory,
    own: u32,
    hand: &Hand,
    keeps: &mut Keeps,
    number: u32,
    entry: OwnedEntry,
    signers: OwnedSigners,
    out: &mut Outbox,
) -> Result<(), Memory>
    requires hand { IsAgreements directory.now.params own hand.now }
    requires view { keeps.old.view < directory.now.params.views }
    requires number { IsNumber directory.now.params number }
    ensures kept { OnOk result (node_of keeps.new ≡ (agree.performs (self_of directory.now hand.now own) (node_of keeps.old) (agree.Pledge_to number (entry_of entry) (map signer_of signers))).0) }
    ensures sent { OnOk result (out.new ≡ out.old ++ (agree.performs (self_of directory.now hand.now own) (node_of keeps.old) (agree.Pledge_to number (entry_of entry) (map signer_of signers))).1) }
    ensures sizes { (p : Params) → IsFor p keeps.old → IsFor p keeps.new }
    ensures err { OnErr result (out.new ≡ out.old) }
{
    let view = keeps.view;
    let digest = entry_digest(&entry.lent());
    let vote = own_vote(alloc, directory, own, hand, 1, view, number, &digest)?;
    let bytes = vote.frame(alloc)?;
    keeps.votes.push(vote)?;
    keeps.pledges.push(Pledge {
        view,
        number,
        digest,
    })?;
    keeps.proofs.push(OwnedProof {
        view,
        number,
        entry,
        signers,
    })?;
    send_to_others(alloc, directory, own, bytes.items(), out)
}

/// Sends what is agreed at the next number up. After want of memory the outbox is as before.
fn sends_up(
    alloc: Global,
    directory: &Directory,
    keeps: &mut Keeps,
    agreed: &OwnedAgreed,
    out: &mut Outbox,
) -> Result<(), Memory>
    requires sizes { IsTrue (accepted directory.now.params) }
    requires open { IsOpen keeps.old (Up agreed.now) }
    ensures kept { OnOk result ((hand : PlainHand) (own : ℕ) → node_of keeps.new ≡ (agree.performs (self_of directory.now hand own) (node_of keeps.old) (agree.Up (agreed_of agreed.now))).0) }
    ensures sent { OnOk result ((hand : PlainHand) (own : ℕ) → out.new ≡ out.old ++ (agree.performs (self_of directory.now hand own) (node_of keeps.old) (agree.Up (agreed_of agreed.now))).1) }
    ensures sizes { (p : Params) → IsFor p keeps.old → IsFor p keeps.new }
    ensures err { OnErr result (out.new ≡ out.old) }
{
    match keeps.settled.agreed_frame(agreed.number) {
        Some(frame) => send_to_row0(alloc, directory, frame, out)?,
        None => unreachable!(),
    }
    keeps.settled.goes_up(agreed.number);
    Ok(())
}

/// Keeps what is agreed, and begins to wait anew.
fn commits(keeps: &mut Keeps, agreed: OwnedAgreed) -> Result<(), Memory>
    requires { IsOpen keeps.old (Commit agreed) }
    ensures kept { OnOk result ((me : agree.Self (List ℕ)) → node_of keeps.new ≡ (agree.performs me (node_of keeps.old) (agree.Commit (agreed_of agreed))).0) }
    ensures sizes { (p : Params) → IsFor p keeps.old → IsFor p keeps.new }
{
    keeps.settled.commit(agreed)?;
    keeps.idle = 0;
    Ok(())
}

/// Does what was chosen. With Ok what it keeps and what it sends are as the rule of an agreement node has it; after want of memory the
/// outbox is as before, and what it keeps is unknown.
pub fn performs(
    alloc: Global,
    directory: &Directory,
    own: u32,
    hand: &Hand,
    keeps: &mut Keeps,
    act: Act,
    out: &mut Outbox,
) -> Result<(), Memory>
    requires hand { IsAgreements directory.now.params own hand.now }
    requires act { IsDoable directory.now.params act }
    requires open { IsOpen keeps.old act }
    requires for_sizes { IsFor directory.now.params keeps.old }
    ensures kept { OnOk result (node_of keeps.new ≡ (agree.performs (self_of directory.now hand.now own) (node_of keeps.old) (act_of act)).0) }
    ensures sent { OnOk result (out.new ≡ out.old ++ (agree.performs (self_of directory.now hand.now own) (node_of keeps.old) (act_of act)).1) }
    ensures sizes { (p : Params) → IsFor p keeps.old → IsFor p keeps.new }
    ensures err { OnErr result (out.new ≡ out.old) }
{
    match act {
        Act::Offer { number, entry } => {
            offers(alloc, directory, own, hand, keeps, number, entry, out)
        }
        Act::Prepare { number, entry } => {
            prepares(alloc, directory, own, hand, keeps, number, entry, out)
        }
        Act::Pledge {
            number,
            entry,
            signers,
        } => pledges(
            alloc, directory, own, hand, keeps, number, entry, signers, out,
        ),
        Act::Commit(agreed) => commits(keeps, agreed),
        Act::Up(agreed) => sends_up(alloc, directory, keeps, &agreed, out),
    }
}
