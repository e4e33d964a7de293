//! View changes and new views that are made with dealt values.

use crate::entries::entry_of;
use crate::fault::{Fault, number, word};
use crate::signing::values_on;
use crate::stage::Stage;
use fw_base::{Seat, Slot};
use fw_digest::digest;
use fw_frame::{Frame, entry_digest, text_of_change, text_of_new_view, two_numbers};
use fw_list::Bytes;
use fw_op::Words;
use fw_owned::{
    OwnedChange, OwnedChanges, OwnedEntry, OwnedNewView, OwnedProof, OwnedProofs, OwnedSigner,
    OwnedSigners, copy_changes, lent_changes,
};

/// The most items that a list has here.
const MOST: usize = 64;

impl Stage {
    /// The values that are dealt for a slot on the sides of a digest's bits.
    fn signature(&self, slot: Slot, digest: &[u8; 32]) -> Result<Bytes, Fault> {
        let values = values_on(self.deal(), slot, 0, digest)?;
        Ok(Bytes::copy_of(self.alloc(), &values)?)
    }

    /// The prepare votes in a view of the first agreement nodes, as many as decide, for an entry at a number.
    fn prepare_votes(
        &self,
        view: u32,
        number: u32,
        entry: &OwnedEntry,
    ) -> Result<OwnedSigners, Fault> {
        // (the text of a prepare vote has tag 18)
        let digest = digest(18, &two_numbers(view, number), &entry_digest(&entry.lent()));
        let mut signers = OwnedSigners::new(self.alloc());
        for agree in 0..self.deal().directory().params().quorum() {
            let slot = Slot::Prepare {
                view,
                number,
                agree,
            };
            let sig = self.signature(slot, &digest)?;
            if signers.items().len() >= MOST {
                return Err(Fault::NoLine);
            }
            signers.push(OwnedSigner { agree, sig })?;
        }
        Ok(signers)
    }

    /// The entry of a request's name, or of `null`.
    fn entry(&self, name: &str) -> Result<OwnedEntry, Fault> {
        if name == "null" {
            return Ok(OwnedEntry::Null);
        }
        let params = self.deal().directory().params();
        match entry_of(self.alloc(), params, self.frame(name)?.items())? {
            Some(entry) => Ok(OwnedEntry::copy_of(self.alloc(), &entry)?),
            None => Err(Fault::NoLine),
        }
    }

    /// `N REQUEST`, behind a view: the proof that the request was prepared there at number N.
    fn proof(&self, view: u32, words: &mut Words<'_>) -> Result<OwnedProof, Fault> {
        let number = number(words)?;
        let entry = self.entry(word(words)?)?;
        let signers = self.prepare_votes(view, number, &entry)?;
        Ok(OwnedProof {
            view,
            number,
            entry,
            signers,
        })
    }

    /// `W N REQUEST` any number of times: the proofs of requests that were prepared in views W at numbers N.
    fn proofs(&self, words: &mut Words<'_>) -> Result<OwnedProofs, Fault> {
        let mut proofs = OwnedProofs::new(self.alloc());
        for _ in 0..MOST {
            let Ok(view) = number(words) else {
                return Ok(proofs);
            };
            let proof = self.proof(view, words)?;
            if proofs.items().len() >= MOST {
                return Err(Fault::NoLine);
            }
            proofs.push(proof)?;
        }
        Ok(proofs)
    }

    /// `aI`: an agreement node's number.
    fn agreement(&self, words: &mut Words<'_>) -> Result<u32, Fault> {
        match Seat::read(self.deal().directory().params(), word(words)?) {
            Some(Seat::Agree(agree)) => Ok(agree),
            _ => Err(Fault::NoLine),
        }
    }

    /// `V aI` and proofs: the view change of an agreement node to view V.
    pub fn change(&self, words: &mut Words<'_>) -> Result<Bytes, Fault> {
        let view = number(words)?;
        let agree = self.agreement(words)?;
        let mut change = OwnedChange {
            view,
            agree,
            proofs: self.proofs(words)?,
            sig: Bytes::new(self.alloc()),
        };
        let text = text_of_change(self.alloc(), &change.lent(self.alloc())?)?;
        change.sig = self.signature(Slot::Change { view, agree }, &text.digest)?;
        Ok(change.frame(self.alloc())?)
    }

    /// The view change whose frame these bytes are.
    fn read_change(&self, bytes: &[u8]) -> Result<OwnedChange, Fault> {
        let params = self.deal().directory().params();
        match Frame::read(self.alloc(), params, bytes)? {
            Some(Frame::Change(change)) => Ok(OwnedChange::copy_of(self.alloc(), &change)?),
            _ => Err(Fault::NoLine),
        }
    }

    /// The view changes of these names.
    fn changes(&self, words: &mut Words<'_>) -> Result<OwnedChanges, Fault> {
        let mut changes = OwnedChanges::new(self.alloc());
        for _ in 0..MOST {
            let Some(name) = words.next() else {
                return Ok(changes);
            };
            let change = self.read_change(self.frame(name)?.items())?;
            if changes.items().len() >= MOST {
                return Err(Fault::NoLine);
            }
            changes.push(change)?;
        }
        Ok(changes)
    }

    /// `V aI CHANGE ..`: the new view V of these view changes, signed by an agreement node.
    pub fn new_view(&self, words: &mut Words<'_>) -> Result<Bytes, Fault> {
        let view = number(words)?;
        let agree = self.agreement(words)?;
        let changes = self.changes(words)?;
        let lent = lent_changes(self.alloc(), &changes)?;
        let text = text_of_new_view(self.alloc(), view, lent.items())?;
        let sig = self.signature(Slot::NewView { view, agree }, &text.digest)?;
        let new_view = OwnedNewView {
            view,
            changes: copy_changes(self.alloc(), &changes)?,
            sig,
        };
        Ok(new_view.frame(self.alloc())?)
    }
}
