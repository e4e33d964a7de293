//! View changes that are made here, without signatures, since those who count and choose look at none.

ghost use Rattle.std.specs.Prelude.{All, IfOk, IfSome};
ghost use Rattle.fw_frame.specs.Writing.{IsCountable, IsWritableProof, IsWritableChange};

use crate::notation::{number, words_of};
use fw_frame::{Change, ChangeList, Entry, Proof, ProofList, Request, Signers};
use fw_list::Memory;
use std::alloc::Global;

/// How many proofs or view changes a line may have.
const MOST: usize = 1000;

/// `null`, or `cC.S`: a request of this client and stamp, with no body.
fn entry_of(word: &str) -> Option<Entry<'static>> {
    if word == "null" {
        return Some(Entry::Null);
    }
    let (client, stamp) = word.strip_prefix('c')?.split_once('.')?;
    Some(Entry::Request(Request {
        client: number(client)?,
        stamp: number(stamp)?,
        body: b"",
        sig: b"",
    }))
}

/// `VIEW:NUMBER:ENTRY`: a proof with no votes.
fn proof_of(alloc: Global, word: &str) -> Option<Proof<'static>>
    ensures { IfSome result IsWritableProof }
{
    let (view, rest) = word.split_once(':')?;
    let (place, entry) = rest.split_once(':')?;
    Some(Proof {
        view: number(view)?,
        number: number(place)?,
        entry: entry_of(entry)?,
        signers: Signers::new(alloc),
    })
}

/// A node's change to a view, with the proofs of these words.
pub fn change(
    alloc: Global,
    view: u32,
    agree: u32,
    words: &[&str],
) -> Result<Option<Change<'static>>, Memory>
    ensures { IfOk result (λ made. IfSome made IsWritableChange) }
{
    if words.len() > MOST {
        return Ok(None);
    }
    let mut proofs = ProofList::new(alloc);
    for word in words {
        let Some(proof) = proof_of(alloc, word) else {
            return Ok(None);
        };
        proofs.push(proof)?;
    }
    Ok(Some(Change {
        view,
        agree,
        proofs,
        sig: b"",
    }))
}

/// `AGREE PROOF ..`: a node's change to view 1.
fn listed(alloc: Global, part: &str) -> Result<Option<Change<'static>>, Memory>
    ensures { IfOk result (λ made. IfSome made IsWritableChange) }
{
    let words = words_of(alloc, part)?;
    let Some((agree, proofs)) = words.as_slice().split_first() else {
        return Ok(None);
    };
    let Some(agree) = number(agree) else {
        return Ok(None);
    };
    change(alloc, 1, agree, proofs)
}

/// The view changes of these parts, in order.
pub fn changes(alloc: Global, parts: &[&str]) -> Result<Option<ChangeList<'static>>, Memory>
    ensures few { IfOk result (λ made. IfSome made IsCountable) }
    ensures writable { IfOk result (λ made. IfSome made (All IsWritableChange)) }
{
    if parts.len() > MOST {
        return Ok(None);
    }
    let mut changes = ChangeList::new(alloc);
    for part in parts {
        let Some(change) = listed(alloc, part)? else {
            return Ok(None);
        };
        changes.push(change)?;
    }
    Ok(Some(changes))
}
