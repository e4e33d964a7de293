//! The view change and the new view that an agreement node signs.

ghost use Rattle.std.specs.Prelude.{◌≡◌, ◌<◌, ℕ, nat_eq, if◌then◌else◌, map, IfOk};
ghost use Rattle.std.specs.Option.{option_copied, option_map};
ghost use Rattle.fw_base.specs.declared.slot.Slot.TheVariants as slots;
ghost use Rattle.fw_hand.specs.Hands.{PlainHand};
ghost use Rattle.fw_means.specs.Means.{signed_by};
ghost use Rattle.fw_rules.specs.Agree as rules;
ghost use Rattle.fw_rules.specs.Views as views;
ghost use Rattle.fw_owned.specs.Pieces.{proof_of, change_of, new_view_of};
ghost use Rattle.fw_kept.specs.Kept.{self_of, node_of};
ghost use Rattle.fw_act.specs.Doing.{IsAgreements};

use fw_base::Slot;
use fw_directory::Directory;
use fw_frame::{text_of_change, text_of_new_view};
use fw_hand::Hand;
use fw_kept::Keeps;
use fw_list::{Bytes, Memory, Newest, SIGNATURE_LEN};
use fw_means::signed;
use fw_owned::{
    OwnedChange, OwnedChanges, OwnedNewView, OwnedProof, OwnedProofs, copy_changes, lent_changes,
};
use std::alloc::Global;

/// The better of the best so far and a proof that is newer: of a number, the newer one where its view isn't smaller.
fn better<'a>(
    best: Option<&'a OwnedProof>,
    proof: &'a OwnedProof,
    number: u32,
) -> Option<&'a OwnedProof>
    ensures { option_map proof_of (option_copied result) ≡ (if nat_eq proof.now.number number then rules.better (proof_of proof.now) (option_map proof_of (option_copied best.entry)) else option_map proof_of (option_copied best.entry)) }
{
    if proof.number != number {
        return best;
    }
    match best {
        Some(known) if proof.view < known.view => best,
        _ => Some(proof),
    }
}

/// Of the proofs of a number, the newest of the greatest view.
fn best_proof(proofs: &Newest<OwnedProof>, number: u32) -> Option<&OwnedProof>
    ensures { option_map proof_of (option_copied result) ≡ rules.best (rules.proofs_of number (map proof_of proofs.now)) }
{
    let mut best = None;
    for proof in proofs.oldest_first() {
        best = better(best, proof, number);
    }
    best
}

/// The proof of the greatest view for each number at which it was prepared.
fn best_proofs(alloc: Global, directory: &Directory, keeps: &Keeps) -> Result<OwnedProofs, Memory>
    ensures { IfOk result (λ proofs. (hand : PlainHand) (own : ℕ) → map proof_of proofs ≡ views.best_proofs (self_of directory.now hand own) (node_of keeps.now)) }
{
    let mut proofs = OwnedProofs::new(alloc);
    for k in 0..directory.params().numbers {
        if let Some(proof) = best_proof(&keeps.proofs, k + 1) {
            proofs.push(proof.copy(alloc)?)?;
        }
    }
    Ok(proofs)
}

/// The signature of a digest for its view change to a view.
fn change_signature(
    directory: &Directory,
    own: u32,
    hand: &Hand,
    view: u32,
    digest: &[u8; 32],
) -> [u8; SIGNATURE_LEN]
    requires hand { IsAgreements directory.now.params own hand.now }
    requires view { view < directory.now.params.views }
    ensures { result ≡ signed_by hand.now (slots.Change view own) digest.now }
{
    // (they say in the contract alone which slots the hand has)
    let _directory = directory;
    match signed(hand, Slot::Change { view, agree: own }, digest) {
        Some(values) => values,
        None => unreachable!(),
    }
}

/// The signature of a digest for the new view of a view that it makes.
fn new_view_signature(
    directory: &Directory,
    own: u32,
    hand: &Hand,
    view: u32,
    digest: &[u8; 32],
) -> [u8; SIGNATURE_LEN]
    requires hand { IsAgreements directory.now.params own hand.now }
    requires view { view < directory.now.params.views }
    ensures { result ≡ signed_by hand.now (slots.NewView view own) digest.now }
{
    // (they say in the contract alone which slots the hand has)
    let _directory = directory;
    match signed(hand, Slot::NewView { view, agree: own }, digest) {
        Some(values) => values,
        None => unreachable!(),
    }
}

/// Its view change to a view, with the proof of the greatest view for each number at which it was prepared.
pub(crate) fn own_change(
    alloc: Global,
    directory: &Directory,
    own: u32,
    hand: &Hand,
    keeps: &Keeps,
    view: u32,
) -> Result<OwnedChange, Memory>
    requires hand { IsAgreements directory.now.params own hand.now }
    requires view { view < directory.now.params.views }
    ensures { IfOk result (λ change. change_of change ≡ views.own_change (self_of directory.now hand.now own) (node_of keeps.now) view) }
{
    let mut change = OwnedChange {
        view,
        agree: own,
        proofs: best_proofs(alloc, directory, keeps)?,
        sig: Bytes::new(alloc),
    };
    let text = text_of_change(alloc, &change.lent(alloc)?)?;
    let sig = change_signature(directory, own, hand, view, &text.digest);
    change.sig = Bytes::copy_of(alloc, &sig)?;
    Ok(change)
}

/// The new view of a view that it makes of these view changes.
pub(crate) fn own_new_view(
    alloc: Global,
    directory: &Directory,
    own: u32,
    hand: &Hand,
    view: u32,
    changes: &OwnedChanges,
) -> Result<OwnedNewView, Memory>
    requires hand { IsAgreements directory.now.params own hand.now }
    requires view { view < directory.now.params.views }
    ensures { IfOk result (λ new_view. new_view_of new_view ≡ views.own_new_view (self_of directory.now hand.now own) view (map change_of changes.now)) }
{
    let lent = lent_changes(alloc, changes)?;
    let text = text_of_new_view(alloc, view, lent.items())?;
    let sig = new_view_signature(directory, own, hand, view, &text.digest);
    Ok(OwnedNewView {
        view,
        changes: copy_changes(alloc, changes)?,
        sig: Bytes::copy_of(alloc, &sig)?,
    })
}
