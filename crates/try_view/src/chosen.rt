//! What a new view proposes at a number, in words.

ghost use Rattle.std.specs.Prelude.{All};
ghost use Rattle.fw_frame.specs.Writing.{IsCountable, IsWritableChange};

use crate::notation::said;
use fw_frame::{Change, Entry, Proof};
use fw_list::Memory;
use fw_view::{Chosen, choice};
use std::alloc::Global;

/// The proof at these places.
fn proof_at<'a, 'b>(changes: &'b [Change<'a>], change: u32, proof: u32) -> Option<&'b Proof<'a>> {
    changes.get(change as usize)?.proofs.at(proof as usize)
}

/// `null`, or `cC.S`.
fn entry_text(alloc: Global, entry: &Entry<'_>) -> Result<String, Memory> {
    match entry {
        Entry::Null => said(alloc, "null"),
        Entry::Request(request) => {
            let client = request.client;
            let stamp = request.stamp;
            Ok(format!(in alloc; "c{client}.{stamp}")?)
        }
    }
}

/// The choice for a number: `null`, or the places and the entry of a proof.
pub fn chosen_text(alloc: Global, changes: &[Change<'_>], number: u32) -> Result<String, Memory>
    requires few { IsCountable changes.now }
    requires writable { All IsWritableChange changes.now }
{
    let Chosen::Proof { change, proof } = choice(changes, number) else {
        return said(alloc, "null");
    };
    let Some(found) = proof_at(changes, change, proof) else {
        return said(alloc, "no such proof");
    };
    let entry = entry_text(alloc, &found.entry)?;
    Ok(format!(in alloc; "change {change} proof {proof} {entry}")?)
}
