//! Signatures made with dealt values.

use crate::fault::Fault;
use fw_base::{Place, Slot};
use fw_deal::Deal;
use fw_digest::digest;
use fw_frame::{Entry, Frame, Signer, entry_digest, two_numbers};
use fw_list::{Bytes, Items, SIGNATURE_LEN};
use fw_text::bit_of;
use std::alloc::Global;

/// The values that are dealt for a slot at a point on the sides of a digest's bits, where there is such a slot and point.
pub fn values_on(
    deal: &Deal,
    slot: Slot,
    point: u32,
    digest: &[u8; 32],
) -> Result<[u8; SIGNATURE_LEN], Fault> {
    let mut values = [0; SIGNATURE_LEN];
    for bit in 0..256 {
        let place = Place {
            slot,
            bit,
            side: u32::from(bit_of(digest, bit as usize)),
            point,
        };
        if !place.fits(deal.directory().params()) {
            return Err(Fault::NoLine);
        }
        let at = 32 * bit as usize;
        values[at..at + 32].copy_from_slice(&deal.dealt(&place));
    }
    Ok(values)
}

/// The commit votes in view 0 of the first agreement nodes, as many as decide, for an entry at a number.
fn commit_votes(
    alloc: Global,
    deal: &Deal,
    number: u32,
    entry: &Entry<'_>,
) -> Result<Items<Bytes>, Fault> {
    // (the text of a commit vote has tag 19)
    let digest = digest(19, &two_numbers(0, number), &entry_digest(entry));
    let mut votes = Items::new(alloc);
    for agree in 0..deal.directory().params().quorum() {
        let slot = Slot::Commit {
            view: 0,
            number,
            agree,
        };
        votes.push(Bytes::copy_of(alloc, &values_on(deal, slot, 0, &digest)?)?)?;
    }
    Ok(votes)
}

/// The agreed frame of an entry at a number, in view 0.
pub fn agreed(alloc: Global, deal: &Deal, number: u32, entry: Entry<'_>) -> Result<Bytes, Fault> {
    let votes = commit_votes(alloc, deal, number, &entry)?;
    let mut signers = Items::new(alloc);
    for (k, vote) in votes.items().iter().enumerate() {
        let agree = u32::try_from(k).unwrap_or(0);
        let sig = vote.items();
        signers.push(Signer { agree, sig })?;
    }
    if signers.len() > 7 {
        return Err(Fault::NoLine);
    }
    let agreed = Frame::Agreed {
        view: 0,
        number,
        entry,
        signers,
    };
    Ok(agreed.write(alloc)?)
}
