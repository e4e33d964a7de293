//! Proofs and view changes: copied from frames, copied again, and lent to frames.

ghost use Rattle.std.specs.Prelude.{◌≡◌, map, All, IfOk};
ghost use Rattle.fw_frame.specs.Plain.{plain_proof, plain_change};
ghost use Rattle.fw_frame.specs.View.{viewed_proof, viewed_change};
ghost use Rattle.fw_frame.specs.Writing.{IsCountable, IsWritableProof, IsWritableChange};
ghost use Rattle.fw_owned.specs.Pieces.{proof_of, change_of};

use crate::lent::{copy_signers, lent_signers, owned_signers};
use crate::{OwnedChange, OwnedChanges, OwnedEntry, OwnedProof, OwnedProofs};
use fw_frame::{Change, ChangeList, Proof, ProofList};
use fw_list::{Bytes, Memory};
use std::alloc::Global;

impl OwnedProof {
    /// A copy of a frame's proof.
    pub fn copy_of(alloc: Global, proof: &Proof<'_>) -> Result<OwnedProof, Memory>
        requires { IsWritableProof proof.now }
        ensures { IfOk result (λ copy. proof_of copy ≡ viewed_proof (plain_proof proof.now)) }
    {
        Ok(OwnedProof {
            view: proof.view,
            number: proof.number,
            entry: OwnedEntry::copy_of(alloc, &proof.entry)?,
            signers: owned_signers(alloc, proof.signers.items())?,
        })
    }

    /// A copy.
    pub fn copy(&self, alloc: Global) -> Result<OwnedProof, Memory>
        ensures { IfOk result (λ copy. copy ≡ self.now) }
    {
        Ok(OwnedProof {
            view: self.view,
            number: self.number,
            entry: self.entry.copy(alloc)?,
            signers: copy_signers(alloc, &self.signers)?,
        })
    }

    /// The same, lent to a frame.
    pub fn lent(&self, alloc: Global) -> Result<Proof<'_>, Memory>
        ensures same { IfOk result (λ lent. viewed_proof (plain_proof lent) ≡ proof_of self.now) }
        ensures writable { IfOk result IsWritableProof }
    {
        Ok(Proof {
            view: self.view,
            number: self.number,
            entry: self.entry.lent(),
            signers: lent_signers(alloc, &self.signers)?,
        })
    }
}

/// A copy of these proofs.
fn copy_proofs(alloc: Global, proofs: &OwnedProofs) -> Result<OwnedProofs, Memory>
    ensures { IfOk result (λ copy. copy ≡ proofs.now) }
{
    let mut copy = OwnedProofs::new(alloc);
    for proof in proofs.items() {
        copy.push(proof.copy(alloc)?)?;
    }
    Ok(copy)
}

/// A frame's proofs, copied.
fn owned_proofs(alloc: Global, proofs: &[Proof<'_>]) -> Result<OwnedProofs, Memory>
    requires few { IsCountable proofs.now }
    requires writable { All IsWritableProof proofs.now }
    ensures { IfOk result (λ copy. map proof_of copy ≡ map viewed_proof (map plain_proof proofs.now)) }
{
    let mut copy = OwnedProofs::new(alloc);
    for proof in proofs {
        copy.push(OwnedProof::copy_of(alloc, proof)?)?;
    }
    Ok(copy)
}

/// These proofs, lent to a frame.
fn lent_proofs(alloc: Global, proofs: &OwnedProofs) -> Result<ProofList<'_>, Memory>
    ensures same { IfOk result (λ lent. map viewed_proof (map plain_proof lent) ≡ map proof_of proofs.now) }
    ensures few { IfOk result IsCountable }
    ensures writable { IfOk result (All IsWritableProof) }
{
    let mut lent = ProofList::new(alloc);
    for proof in proofs.items() {
        lent.push(proof.lent(alloc)?)?;
    }
    Ok(lent)
}

impl OwnedChange {
    /// A copy of a frame's view change.
    pub fn copy_of(alloc: Global, change: &Change<'_>) -> Result<OwnedChange, Memory>
        requires { IsWritableChange change.now }
        ensures { IfOk result (λ copy. change_of copy ≡ viewed_change (plain_change change.now)) }
    {
        Ok(OwnedChange {
            view: change.view,
            agree: change.agree,
            proofs: owned_proofs(alloc, change.proofs.items())?,
            sig: Bytes::copy_of(alloc, change.sig)?,
        })
    }

    /// A copy.
    pub fn copy(&self, alloc: Global) -> Result<OwnedChange, Memory>
        ensures { IfOk result (λ copy. copy ≡ self.now) }
    {
        Ok(OwnedChange {
            view: self.view,
            agree: self.agree,
            proofs: copy_proofs(alloc, &self.proofs)?,
            sig: Bytes::copy_of(alloc, self.sig.items())?,
        })
    }

    /// The same, lent to a frame.
    pub fn lent(&self, alloc: Global) -> Result<Change<'_>, Memory>
        ensures same { IfOk result (λ lent. viewed_change (plain_change lent) ≡ change_of self.now) }
        ensures writable { IfOk result IsWritableChange }
    {
        Ok(Change {
            view: self.view,
            agree: self.agree,
            proofs: lent_proofs(alloc, &self.proofs)?,
            sig: self.sig.items(),
        })
    }
}

/// A copy of these view changes.
pub fn copy_changes(alloc: Global, changes: &OwnedChanges) -> Result<OwnedChanges, Memory>
    ensures { IfOk result (λ copy. copy ≡ changes.now) }
{
    let mut copy = OwnedChanges::new(alloc);
    for change in changes.items() {
        copy.push(change.copy(alloc)?)?;
    }
    Ok(copy)
}

/// A frame's view changes, copied.
pub fn owned_changes(alloc: Global, changes: &[Change<'_>]) -> Result<OwnedChanges, Memory>
    requires few { IsCountable changes.now }
    requires writable { All IsWritableChange changes.now }
    ensures { IfOk result (λ copy. map change_of copy ≡ map viewed_change (map plain_change changes.now)) }
{
    let mut copy = OwnedChanges::new(alloc);
    for change in changes {
        copy.push(OwnedChange::copy_of(alloc, change)?)?;
    }
    Ok(copy)
}

/// These view changes, lent to a frame.
pub fn lent_changes(alloc: Global, changes: &OwnedChanges) -> Result<ChangeList<'_>, Memory>
    ensures same { IfOk result (λ lent. map viewed_change (map plain_change lent) ≡ map change_of changes.now) }
    ensures few { IfOk result IsCountable }
    ensures writable { IfOk result (All IsWritableChange) }
{
    let mut lent = ChangeList::new(alloc);
    for change in changes.items() {
        lent.push(change.lent(alloc)?)?;
    }
    Ok(lent)
}
