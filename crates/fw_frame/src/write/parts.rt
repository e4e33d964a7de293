//! Writing what frames are made of.

ghost use Rattle.std.specs.Prelude.{◌≡◌, ◌++◌, OnOk, map};
ghost use Rattle.fw_frame.specs.Plain.{plain_request, plain_entry, plain_signer, plain_proof, plain_change};
ghost use Rattle.fw_frame.specs.Spelling.{request_bytes, entry_bytes, signer_bytes, signers_bytes, proof_bytes, proofs_bytes, change_bytes, changes_bytes};
ghost use Rattle.fw_frame.specs.Writing.{IsCountable, IsWritableProof, IsWritableChange};
ghost use Rattle.std.specs.Prelude.{All};

use crate::{Change, ChangeList, Entry, Proof, ProofList, Request, Signer, Signers};
use fw_list::Memory;
use fw_wire::Writer;

/// Adds a request.
pub fn request(out: &mut Writer, request: &Request<'_>) -> Result<(), Memory>
    ensures { OnOk result (out.new ≡ out.old ++ request_bytes (plain_request request.now)) }
{
    out.u32(request.client)?;
    out.u32(request.stamp)?;
    out.fixed(request.body)?;
    out.fixed(request.sig)
}

/// Adds an entry.
pub fn entry(out: &mut Writer, entry: &Entry<'_>) -> Result<(), Memory>
    ensures { OnOk result (out.new ≡ out.old ++ entry_bytes (plain_entry entry.now)) }
{
    match entry {
        Entry::Null => out.u32(0),
        Entry::Request(asked) => {
            out.u32(1)?;
            request(out, asked)
        }
    }
}

fn signer(out: &mut Writer, signer: &Signer<'_>) -> Result<(), Memory>
    ensures { OnOk result (out.new ≡ out.old ++ signer_bytes (plain_signer signer.now)) }
{
    out.u32(signer.agree)?;
    out.fixed(signer.sig)
}

/// Adds signatures behind their count.
pub fn signers(out: &mut Writer, signers: &Signers<'_>) -> Result<(), Memory>
    requires { IsCountable signers.now }
    ensures { OnOk result (out.new ≡ out.old ++ signers_bytes (map plain_signer signers.now)) }
{
    out.u32(signers.len() as u32)?;
    for one in signers.items() {
        signer(out, one)?;
    }
    Ok(())
}

fn proof(out: &mut Writer, proof: &Proof<'_>) -> Result<(), Memory>
    requires { IsWritableProof proof.now }
    ensures { OnOk result (out.new ≡ out.old ++ proof_bytes (plain_proof proof.now)) }
{
    out.u32(proof.view)?;
    out.u32(proof.number)?;
    entry(out, &proof.entry)?;
    signers(out, &proof.signers)
}

fn proofs(out: &mut Writer, proofs: &ProofList<'_>) -> Result<(), Memory>
    requires count { IsCountable proofs.now }
    requires all { All IsWritableProof proofs.now }
    ensures { OnOk result (out.new ≡ out.old ++ proofs_bytes (map plain_proof proofs.now)) }
{
    out.u32(proofs.len() as u32)?;
    for one in proofs.items() {
        proof(out, one)?;
    }
    Ok(())
}

/// Adds a view change.
pub fn change(out: &mut Writer, change: &Change<'_>) -> Result<(), Memory>
    requires { IsWritableChange change.now }
    ensures { OnOk result (out.new ≡ out.old ++ change_bytes (plain_change change.now)) }
{
    out.u32(change.view)?;
    out.u32(change.agree)?;
    proofs(out, &change.proofs)?;
    out.fixed(change.sig)
}

/// Adds view changes behind their count.
pub fn changes(out: &mut Writer, changes: &ChangeList<'_>) -> Result<(), Memory>
    requires count { IsCountable changes.now }
    requires all { All IsWritableChange changes.now }
    ensures { OnOk result (out.new ≡ out.old ++ changes_bytes (map plain_change changes.now)) }
{
    out.u32(changes.len() as u32)?;
    for one in changes.items() {
        change(out, one)?;
    }
    Ok(())
}
