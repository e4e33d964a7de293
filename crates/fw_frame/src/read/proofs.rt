//! Proofs of a view change, at the front of bytes.

ghost use Rattle.std.specs.Prelude.{◌≡◌, ◌<◌, ◌≤◌, ◌&&◌, IsTrue, IfOk, OnErr, nat_eq, nat_le, option_map, map};
ghost use Rattle.std.specs.List.{flat_map};
ghost use Rattle.fw_list.specs.Numbers.{within};
ghost use Rattle.fw_base.specs.Sizes.{accepted, quorum};
ghost use Rattle.fw_frame.specs.Plain.{plain_proof};
ghost use Rattle.fw_frame.specs.Ranges.{proof_fits, proofs_fit};
ghost use Rattle.fw_wire.specs.Reading.{FindsWhere};
ghost use Rattle.fw_frame.specs.Reading.{list_fits};
ghost use Rattle.fw_frame.specs.Spelling.{proof_bytes, proofs_bytes};
ghost use Rattle.fw_frame.specs.Needing.{StartsItem, StartsProof, StartsProofs};

use super::entry::entry;
use super::fields::{at_most, below, place};
use super::signers::signers;
use crate::{Proof, ProofList};
use fw_base::Params;
use fw_list::Memory;
use fw_wire::Reader;
use std::alloc::Global;

/// A proof in a change to a view, of a number from one on.
fn proof<'a>(
    alloc: Global,
    params: &Params,
    reader: &mut Reader<'a>,
    view: u32,
    least: u32,
) -> Result<Option<Proof<'a>>, Memory>
    requires accepted { IsTrue (accepted params.now) }
    requires view { 0 < view }
    requires least { 1 ≤ least }
    ensures found { IfOk result (λ found. FindsWhere proof_bytes (λ q. nat_le least q.number && proof_fits params.now view q) reader.old (option_map plain_proof found) reader.new) }
    ensures memory { OnErr result (StartsProof params.now view reader.old) }
{
    let Some(earlier) = below(reader, view) else {
        return Ok(None);
    };
    let Some(number) = place(params, reader, least) else {
        return Ok(None);
    };
    let Some(entry) = entry(params, reader) else {
        return Ok(None);
    };
    let Some(signers) = signers(alloc, params, reader)? else {
        return Ok(None);
    };
    Ok(Some(Proof {
        view: earlier,
        number,
        entry,
        signers,
    }))
}

/// Proofs, ascending by number.
fn proof_list<'a>(
    alloc: Global,
    params: &Params,
    reader: &mut Reader<'a>,
    view: u32,
    count: u32,
) -> Result<Option<ProofList<'a>>, Memory>
    requires accepted { IsTrue (accepted params.now) }
    requires view { 0 < view }
    ensures found { IfOk result (λ found. FindsWhere (flat_map proof_bytes) (list_fits (λ q. q.number) (proof_fits params.now view) count) reader.old (option_map (map plain_proof) found) reader.new) }
    ensures memory { OnErr result (StartsItem proof_bytes (proof_fits params.now view) (StartsProof params.now view) reader.old) }
{
    let mut proofs = ProofList::new(alloc);
    let mut least = 1;
    for _ in 0..count {
        let Some(proof) = proof(alloc, params, reader, view, least)? else {
            return Ok(None);
        };
        least = proof.number + 1;
        proofs.push(proof)?;
    }
    Ok(Some(proofs))
}

/// The proofs of a change to a view.
pub fn proofs<'a>(
    alloc: Global,
    params: &Params,
    reader: &mut Reader<'a>,
    view: u32,
) -> Result<Option<ProofList<'a>>, Memory>
    requires accepted { IsTrue (accepted params.now) }
    requires view { 0 < view }
    ensures found { IfOk result (λ found. FindsWhere proofs_bytes (proofs_fit params.now view) reader.old (option_map (map plain_proof) found) reader.new) }
    ensures memory { OnErr result (StartsProofs params.now view reader.old) }
{
    let Some(count) = at_most(reader, params.numbers) else {
        return Ok(None);
    };
    proof_list(alloc, params, reader, view, count)
}
