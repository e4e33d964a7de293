//! The walk over a frame that gathers its parts and its texts.

ghost use Rattle.std.specs.Prelude.{◌≡◌, ◌<◌, [], ◌∷◌, map, IfOk, OnOk, IsTrue};
ghost use Rattle.std.specs.List.{flat_map};
ghost use Rattle.fw_base.specs.Sizes.{agreements, accepted};
ghost use Rattle.fw_base.specs.declared.params.Params.{Params};
ghost use Rattle.fw_text.specs.Texts.{hash};
ghost use Rattle.fw_frame.specs.Plain.{plain, plain_request, plain_entry, plain_signer, plain_proof, plain_change};
ghost use Rattle.fw_frame.specs.Parts.{texts, with_digest, digested_parts, plain_part, request_text, request_piece, entry_digest, entry_piece, signer_pieces, proof_pieces, change_pieces, new_view_pieces};
ghost use Rattle.fw_frame.specs.Gathered.{Gathers, GathersFrame, is_voting, is_answer};

use crate::parts::{Gathered, PartList, add_signed, add_unsigned, copy_of_text, vote_slot};
use crate::texts::{
    text_of_answer, text_of_change, text_of_new_view, text_of_nothing, text_of_request,
    text_of_vote,
};
use crate::{Change, Entry, Frame, Proof, Request, Signer, TextList};
use fw_base::{Params, Slot};
use fw_list::{Items, Memory};
use std::alloc::Global;

/// A request: its digest is answered.
fn gather_request<'a>(
    alloc: Global,
    request: &Request<'a>,
    out: &mut Gathered<'a>,
) -> Result<[u8; 32], Memory>
    ensures digest { IfOk result (λ digest. digest ≡ hash (request_text (plain_request request.now))) }
    ensures gathered { OnOk result (Gathers out.old out.new (request_piece (plain_request request.now) ∷ [])) }
{
    let text = text_of_request(alloc, request)?;
    let digest = text.digest;
    let slot = Slot::Request {
        client: request.client,
        stamp: request.stamp,
    };
    add_signed(out, slot, 0, text, request.sig)?;
    Ok(digest)
}

/// An entry: its digest is answered.
fn gather_entry<'a>(
    alloc: Global,
    entry: &Entry<'a>,
    out: &mut Gathered<'a>,
) -> Result<[u8; 32], Memory>
    ensures digest { IfOk result (λ digest. digest ≡ entry_digest hash (plain_entry entry.now)) }
    ensures gathered { OnOk result (Gathers out.old out.new (entry_piece (plain_entry entry.now) ∷ [])) }
{
    match entry {
        Entry::Null => {
            let text = text_of_nothing(alloc)?;
            let digest = text.digest;
            add_unsigned(out, text)?;
            Ok(digest)
        }
        Entry::Request(request) => gather_request(alloc, request, out),
    }
}

/// Votes for the entry of a digest, whose text is hashed once.
#[tactic(auto, using(crate::proofs::Gathering::gathers_nothing, crate::proofs::Gathering::gathers_more))]
fn gather_votes<'a>(
    alloc: Global,
    phase: u32,
    view: u32,
    number: u32,
    entry: &[u8],
    signers: &[Signer<'a>],
    out: &mut Gathered<'a>,
) -> Result<(), Memory>
    ensures { OnOk result (Gathers out.old out.new (signer_pieces phase view number entry.now (map plain_signer signers.now))) }
{
    let text = text_of_vote(alloc, phase, view, number, entry)?;
    for signer in signers {
        let slot = vote_slot(phase, view, number, signer.agree);
        let copy = copy_of_text(alloc, &text)?;
        add_signed(out, slot, 0, copy, signer.sig)?;
    }
    Ok(())
}

/// An entry, and votes for it.
#[tactic(auto, using(crate::proofs::Gathering::gathers_nothing, crate::proofs::Gathering::gathers_more))]
fn gather_entry_votes<'a>(
    alloc: Global,
    phase: u32,
    view: u32,
    number: u32,
    entry: &Entry<'a>,
    signers: &[Signer<'a>],
    out: &mut Gathered<'a>,
) -> Result<(), Memory>
    ensures { OnOk result (Gathers out.old out.new (entry_piece (plain_entry entry.now) ∷ signer_pieces phase view number (entry_digest hash (plain_entry entry.now)) (map plain_signer signers.now))) }
{
    let digest = gather_entry(alloc, entry, out)?;
    gather_votes(alloc, phase, view, number, &digest, signers, out)
}

/// Proofs in a view change.
#[tactic(auto, using(crate::proofs::Gathering::gathers_nothing, crate::proofs::Gathering::gathers_more))]
fn gather_proofs<'a>(
    alloc: Global,
    proofs: &[Proof<'a>],
    out: &mut Gathered<'a>,
) -> Result<(), Memory>
    ensures { OnOk result (Gathers out.old out.new (flat_map (proof_pieces hash) (map plain_proof proofs.now))) }
{
    for proof in proofs {
        let signers = proof.signers.items();
        gather_entry_votes(
            alloc,
            0,
            proof.view,
            proof.number,
            &proof.entry,
            signers,
            out,
        )?;
    }
    Ok(())
}

/// A view change: its proofs, and its own signature.
#[tactic(auto, using(crate::proofs::Gathering::gathers_nothing, crate::proofs::Gathering::gathers_more))]
fn gather_change<'a>(
    alloc: Global,
    change: &Change<'a>,
    out: &mut Gathered<'a>,
) -> Result<(), Memory>
    ensures { OnOk result (Gathers out.old out.new (change_pieces hash (plain_change change.now))) }
{
    gather_proofs(alloc, change.proofs.items(), out)?;
    let text = text_of_change(alloc, change)?;
    let slot = Slot::Change {
        view: change.view,
        agree: change.agree,
    };
    add_signed(out, slot, 0, text, change.sig)
}

/// View changes in a new view.
#[tactic(auto, using(crate::proofs::Gathering::gathers_nothing, crate::proofs::Gathering::gathers_more))]
fn gather_changes<'a>(
    alloc: Global,
    changes: &[Change<'a>],
    out: &mut Gathered<'a>,
) -> Result<(), Memory>
    ensures { OnOk result (Gathers out.old out.new (flat_map (change_pieces hash) (map plain_change changes.now))) }
{
    for change in changes {
        gather_change(alloc, change, out)?;
    }
    Ok(())
}

/// A new view: its view changes, and the signature of its primary.
#[tactic(auto, using(crate::proofs::Gathering::gathers_more))]
fn gather_new_view<'a>(
    alloc: Global,
    view: u32,
    primary: u32,
    changes: &[Change<'a>],
    sig: &'a [u8],
    out: &mut Gathered<'a>,
) -> Result<(), Memory>
    ensures { OnOk result (Gathers out.old out.new (new_view_pieces hash view primary (map plain_change changes.now) sig.now)) }
{
    gather_changes(alloc, changes, out)?;
    let text = text_of_new_view(alloc, view, changes)?;
    let slot = Slot::NewView {
        view,
        agree: primary,
    };
    add_signed(out, slot, 0, text, sig)
}

/// A proposal, a vote or an agreed entry, where there are so many agreement nodes.
fn gather_voting<'a>(
    alloc: Global,
    frame: &Frame<'a>,
    nodes: u32,
    out: &mut Gathered<'a>,
) -> Result<(), Memory>
    requires kind { IsTrue (is_voting (plain frame.now)) }
    requires nodes { 0 < nodes }
    ensures { OnOk result (GathersFrame nodes out.old out.new (plain frame.now)) }
{
    match frame {
        Frame::Propose {
            view,
            number,
            entry,
            sig,
        } => {
            let agree = *view % nodes;
            let signers = [Signer { agree, sig }];
            gather_entry_votes(alloc, 0, *view, *number, entry, &signers, out)
        }
        Frame::Vote {
            phase,
            view,
            number,
            agree,
            digest,
            sig,
        } => {
            let signers = [Signer { agree: *agree, sig }];
            gather_votes(alloc, *phase, *view, *number, digest, &signers, out)
        }
        Frame::Agreed {
            view,
            number,
            entry,
            signers,
        } => gather_entry_votes(alloc, 1, *view, *number, entry, signers.items(), out),
        _ => unreachable!(),
    }
}

/// A share of a reply, or a reply.
fn gather_answer<'a>(
    alloc: Global,
    frame: &Frame<'a>,
    nodes: u32,
    out: &mut Gathered<'a>,
) -> Result<(), Memory>
    requires { IsTrue (is_answer (plain frame.now)) }
    ensures { OnOk result (GathersFrame nodes out.old out.new (plain frame.now)) }
{
    match frame {
        Frame::Share {
            number,
            exec,
            client,
            stamp,
            body,
            shares,
        } => {
            let point = exec.checked_add(1).ok_or(Memory)?;
            let text = text_of_answer(alloc, *number, *client, *stamp, body)?;
            add_signed(out, Slot::Reply { number: *number }, point, text, shares)
        }
        Frame::Reply {
            number,
            client,
            stamp,
            body,
            secrets,
        } => {
            let text = text_of_answer(alloc, *number, *client, *stamp, body)?;
            add_signed(out, Slot::Reply { number: *number }, 0, text, secrets)
        }
        _ => unreachable!(),
    }
}

/// Any frame, where there are so many agreement nodes.
fn gather_frame<'a>(
    alloc: Global,
    frame: &Frame<'a>,
    nodes: u32,
    out: &mut Gathered<'a>,
) -> Result<(), Memory>
    requires { 0 < nodes }
    ensures { OnOk result (GathersFrame nodes out.old out.new (plain frame.now)) }
{
    match frame {
        Frame::Request(request) => {
            gather_request(alloc, request, out)?;
            Ok(())
        }
        Frame::Change(change) => gather_change(alloc, change, out),
        Frame::NewView { view, changes, sig } => {
            gather_new_view(alloc, *view, *view % nodes, changes.items(), sig, out)
        }
        Frame::Propose { .. } | Frame::Vote { .. } | Frame::Agreed { .. } => {
            gather_voting(alloc, frame, nodes, out)
        }
        Frame::Share { .. } | Frame::Reply { .. } => gather_answer(alloc, frame, nodes, out),
        Frame::Want { .. } => Ok(()),
    }
}

/// The parts and the texts of a frame, where there are so many agreement nodes.
fn gather<'a>(alloc: Global, frame: &Frame<'a>, nodes: u32) -> Result<Gathered<'a>, Memory>
    requires { 0 < nodes }
    ensures texts { IfOk result (λ all. (p : Params) → agreements p ≡ nodes → all.texts ≡ map (with_digest hash) (texts p hash (plain frame.now))) }
    ensures parts { IfOk result (λ all. (p : Params) → agreements p ≡ nodes → map plain_part all.parts ≡ digested_parts p hash (plain frame.now)) }
{
    let mut out = Gathered {
        parts: Items::new(alloc),
        texts: Items::new(alloc),
    };
    gather_frame(alloc, frame, nodes, &mut out)?;
    Ok(out)
}

impl<'a> Frame<'a> {
    /// The texts of the frame, in its order: that of each signature or list of shares at its place, and that of a null
    /// entry at the entry's end. Where a list's count has no room in four bytes, the answer is want of memory.
    pub fn texts(&self, alloc: Global) -> Result<TextList, Memory>
        ensures { IfOk result (λ list. (p : Params) → list ≡ map (with_digest hash) (texts p hash (plain self.now))) }
    {
        // Who is the primary stands in no text.
        let Gathered { parts: _, texts } = gather(alloc, self, 1)?;
        Ok(texts)
    }

    /// The signatures and lists of shares of the frame, in its order, each with the digest that it signs. Where a count
    /// or a point has no room in four bytes, the answer is want of memory.
    pub fn parts(&self, alloc: Global, params: &Params) -> Result<PartList<'a>, Memory>
        requires { IsTrue (accepted params.now) }
        ensures { IfOk result (λ list. map plain_part list ≡ digested_parts params.now hash (plain self.now)) }
    {
        let Gathered { parts, texts: _ } = gather(alloc, self, params.agreements())?;
        Ok(parts)
    }
}
