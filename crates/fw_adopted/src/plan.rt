//! What a new view chooses, number by number.

ghost use Rattle.std.specs.Prelude.{◌≡◌, IfOk, map, max};
ghost use Rattle.std.specs.Option.{option_copied, option_map};
ghost use Rattle.fw_list.specs.Lists.{numbers_from};
ghost use Rattle.fw_view.specs.Choices.{chosen_proof, proof_at};
ghost use Rattle.fw_rules.specs.Agree.{top, greatest, entry_or_null, choice};
ghost use Rattle.fw_owned.specs.Pieces.{entry_of, proof_of, change_of};

use fw_list::{Items, Memory};
use fw_owned::{OwnedChange, OwnedChanges, OwnedEntry, OwnedProof, lent_changes};
use fw_view::{Chosen, choice};
use std::alloc::Global;

/// The greatest number of these proofs, or the number given where that is greater.
fn top_with(most: u32, proofs: &[OwnedProof]) -> u32
    ensures { result ≡ max most (greatest (map (λ q. q.number) proofs.now)) }
{
    let mut most = most;
    for proof in proofs {
        if proof.number > most {
            most = proof.number;
        }
    }
    most
}

/// The greatest number that has a proof, or 0.
pub(crate) fn top_of(changes: &[OwnedChange]) -> u32
    ensures { result ≡ top (map change_of changes.now) }
{
    let mut most = 0;
    for change in changes {
        most = top_with(most, change.proofs.items());
    }
    most
}

/// The proof at these places.
fn proof_at(changes: &[OwnedChange], change: u32, proof: u32) -> Option<&OwnedProof>
    ensures { option_map proof_of (option_copied result) ≡ proof_at (map change_of changes.now) change proof }
{
    match changes.get(change as usize) {
        Some(found) => found.proofs.items().get(proof as usize),
        None => None,
    }
}

/// A copy of the entry that was chosen.
fn entry_at(alloc: Global, changes: &[OwnedChange], chosen: Chosen) -> Result<OwnedEntry, Memory>
    ensures { IfOk result (λ entry. entry_of entry ≡ entry_or_null (chosen_proof (map change_of changes.now) chosen)) }
{
    let Chosen::Proof { change, proof } = chosen else {
        return Ok(OwnedEntry::Null);
    };
    match proof_at(changes, change, proof) {
        Some(found) => found.entry.copy(alloc),
        None => Ok(OwnedEntry::Null),
    }
}

/// The choice for each number up to this one.
pub(crate) fn plan_of(
    alloc: Global,
    changes: &OwnedChanges,
    last: u32,
) -> Result<Items<OwnedEntry>, Memory>
    ensures { IfOk result (λ entries. map entry_of entries ≡ map (choice (map change_of changes.now)) (numbers_from 1 last)) }
{
    let lent = lent_changes(alloc, changes)?;
    let mut entries = Items::new(alloc);
    for k in 0..last {
        let chosen = choice(lent.items(), k + 1);
        entries.push(entry_at(alloc, changes.items(), chosen)?)?;
    }
    Ok(entries)
}
