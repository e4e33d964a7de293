//! The pieces of a frame, checked in its order up to the first that is not valid.

ghost use Rattle.std.specs.Prelude.{◌≡◌, ◌≤◌, ◌<◌, ◌+◌, ◌*◌, [], ◌∷◌, List, ℕ, map, length, IsTrue};
ghost use Rattle.std.specs.List.{flat_map, list_all};
ghost use Rattle.fw_list.specs.declared.limits.TheConstants.{SIGNATURE_LEN};
ghost use Rattle.fw_base.specs.Sizes.{accepted, agreements, executors, primary};
ghost use Rattle.fw_base.specs.declared.slot.Slot.TheVariants as slots;
ghost use Rattle.fw_base.specs.Places.{slot_fits, last_point};
ghost use Rattle.fw_text.specs.Texts.{Text, Voted, Answered, hash};
ghost use Rattle.fw_frame.specs.Frames.{NewView};
ghost use Rattle.fw_frame.specs.Plain.{plain, plain_request, plain_entry, plain_signer, plain_proof, plain_change};
ghost use Rattle.fw_frame.specs.Parts.{Signed, entry_digest, request_piece, entry_piece, signer_pieces, proof_pieces, change_pieces, new_view_pieces, pieces};
ghost use Rattle.fw_frame.specs.Ranges.{number_fits, request_fits, entry_fits, proof_fits, change_fits, frame_fits, values_fit};
ghost use Rattle.fw_frame.specs.Gathered.{is_voting, is_answer};
ghost use Rattle.fw_valid.specs.Checks.{Checks, AreVotes};

use crate::digests::{
    Answer, answer_digest, change_digest, new_view_digest, request_digest, vote_digest,
};
use fw_base::Slot;
use fw_digest::Steps;
use fw_directory::Directory;
use fw_frame::{Change, Entry, Frame, Proof, Request, Signer, entry_digest, vote_slot};
use fw_lamport::verify;
use std::sync::ledger::Ledger;

/// One signature or list of shares, of the slot at a point.
fn check_part<L: Ledger>(
    directory: &Directory,
    slot: Slot,
    point: u32,
    digest: &[u8; 32],
    values: &[u8],
    steps: &mut Steps<L>,
) -> bool
    requires slot { IsTrue (slot_fits directory.now.params slot) }
    requires point { point ≤ last_point directory.now.params slot }
    requires values { length values.now ≡ SIGNATURE_LEN }
    ensures { (text : Text) → digest.now ≡ hash text → Checks directory.now 256 result steps.old steps.new (Signed (record { slot = slot; point = point; text = text; values = values.now }) ∷ []) }
{
    verify(
        directory.rows(slot, point),
        slot,
        point,
        digest,
        values,
        steps,
    )
}

/// A request.
fn check_request<L: Ledger>(
    directory: &Directory,
    request: &Request<'_>,
    steps: &mut Steps<L>,
) -> bool
    requires { IsTrue (request_fits directory.now.params (plain_request request.now)) }
    ensures { Checks directory.now 257 result steps.old steps.new (request_piece (plain_request request.now) ∷ []) }
{
    let digest = request_digest(request, steps);
    let slot = Slot::Request {
        client: request.client,
        stamp: request.stamp,
    };
    check_part(directory, slot, 0, &digest, request.sig, steps)
}

/// An entry.
fn check_entry<L: Ledger>(directory: &Directory, entry: &Entry<'_>, steps: &mut Steps<L>) -> bool
    requires { IsTrue (entry_fits directory.now.params (plain_entry entry.now)) }
    ensures { Checks directory.now 257 result steps.old steps.new (entry_piece (plain_entry entry.now) ∷ []) }
{
    match entry {
        Entry::Null => true,
        Entry::Request(request) => check_request(directory, request, steps),
    }
}

/// Signatures of votes for the entry of a digest, whose text has another digest.
fn check_signers<L: Ledger>(
    directory: &Directory,
    phase: u32,
    view: u32,
    number: u32,
    digest: &[u8; 32],
    signers: &[Signer<'_>],
    steps: &mut Steps<L>,
) -> bool
    requires { AreVotes directory.now.params view number (map plain_signer signers.now) }
    ensures { (entry : List ℕ) → digest.now ≡ hash (Voted phase view number entry) → Checks directory.now 256 result steps.old steps.new (signer_pieces phase view number entry (map plain_signer signers.now)) }
{
    for signer in signers {
        let slot = vote_slot(phase, view, number, signer.agree);
        if !check_part(directory, slot, 0, digest, signer.sig, steps) {
            return false;
        }
    }
    true
}

/// Votes for the entry of a digest. Their text is hashed once.
fn check_votes<L: Ledger>(
    directory: &Directory,
    phase: u32,
    view: u32,
    number: u32,
    entry: &[u8],
    signers: &[Signer<'_>],
    steps: &mut Steps<L>,
) -> bool
    requires { AreVotes directory.now.params view number (map plain_signer signers.now) }
    ensures { Checks directory.now 257 result steps.old steps.new (signer_pieces phase view number entry.now (map plain_signer signers.now)) }
{
    let digest = vote_digest(phase, view, number, entry, steps);
    check_signers(directory, phase, view, number, &digest, signers, steps)
}

/// An entry, and votes for it.
fn check_entry_votes<L: Ledger>(
    directory: &Directory,
    phase: u32,
    view: u32,
    number: u32,
    entry: &Entry<'_>,
    signers: &[Signer<'_>],
    steps: &mut Steps<L>,
) -> bool
    requires entry { IsTrue (entry_fits directory.now.params (plain_entry entry.now)) }
    requires votes { AreVotes directory.now.params view number (map plain_signer signers.now) }
    ensures { Checks directory.now 257 result steps.old steps.new (entry_piece (plain_entry entry.now) ∷ signer_pieces phase view number (entry_digest hash (plain_entry entry.now)) (map plain_signer signers.now)) }
{
    if !check_entry(directory, entry, steps) {
        return false;
    }
    let digest = entry_digest(entry);
    check_votes(directory, phase, view, number, &digest, signers, steps)
}

/// Proofs in a view change.
fn check_proofs<L: Ledger>(
    directory: &Directory,
    proofs: &[Proof<'_>],
    steps: &mut Steps<L>,
) -> bool
    requires { IsTrue (list_all (proof_fits directory.now.params directory.now.params.views) (map plain_proof proofs.now)) }
    ensures { Checks directory.now 257 result steps.old steps.new (flat_map (proof_pieces hash) (map plain_proof proofs.now)) }
{
    for proof in proofs {
        let signers = proof.signers.items();
        if !check_entry_votes(
            directory,
            0,
            proof.view,
            proof.number,
            &proof.entry,
            signers,
            steps,
        ) {
            return false;
        }
    }
    true
}

/// A view change: its proofs, and its own signature.
fn check_change<L: Ledger>(directory: &Directory, change: &Change<'_>, steps: &mut Steps<L>) -> bool
    requires sizes { IsTrue (accepted directory.now.params) }
    requires fits { IsTrue (change_fits directory.now.params (plain_change change.now)) }
    ensures { Checks directory.now 257 result steps.old steps.new (change_pieces hash (plain_change change.now)) }
{
    if !check_proofs(directory, change.proofs.items(), steps) {
        return false;
    }
    let digest = change_digest(change, steps);
    let slot = Slot::Change {
        view: change.view,
        agree: change.agree,
    };
    check_part(directory, slot, 0, &digest, change.sig, steps)
}

/// View changes in a new view.
fn check_changes<L: Ledger>(
    directory: &Directory,
    changes: &[Change<'_>],
    steps: &mut Steps<L>,
) -> bool
    requires sizes { IsTrue (accepted directory.now.params) }
    requires fits { IsTrue (list_all (change_fits directory.now.params) (map plain_change changes.now)) }
    ensures { Checks directory.now 257 result steps.old steps.new (flat_map (change_pieces hash) (map plain_change changes.now)) }
{
    for change in changes {
        if !check_change(directory, change, steps) {
            return false;
        }
    }
    true
}

/// A new view, where there are so many agreement nodes: its view changes, and the signature of its primary.
fn check_new_view<L: Ledger>(
    directory: &Directory,
    view: u32,
    nodes: u32,
    changes: &[Change<'_>],
    sig: &[u8],
    steps: &mut Steps<L>,
) -> bool
    requires sizes { IsTrue (accepted directory.now.params) }
    requires nodes { nodes ≡ agreements directory.now.params }
    requires fits { IsTrue (frame_fits directory.now.params (NewView view (map plain_change changes.now) sig.now)) }
    ensures { Checks directory.now 260 result steps.old steps.new (new_view_pieces hash view (primary directory.now.params view) (map plain_change changes.now) sig.now) }
{
    if !check_changes(directory, changes, steps) {
        return false;
    }
    let digest = new_view_digest(view, changes, steps);
    let agree = view % nodes;
    let slot = Slot::NewView { view, agree };
    check_part(directory, slot, 0, &digest, sig, steps)
}

/// A proposal, a vote or an agreed entry, where there are so many agreement nodes.
fn check_voting<L: Ledger>(
    directory: &Directory,
    frame: &Frame<'_>,
    nodes: u32,
    steps: &mut Steps<L>,
) -> bool
    requires nodes { nodes ≡ agreements directory.now.params }
    requires kind { IsTrue (is_voting (plain frame.now)) }
    requires fits { IsTrue (frame_fits directory.now.params (plain frame.now)) }
    ensures { Checks directory.now 257 result steps.old steps.new (pieces directory.now.params hash (plain frame.now)) }
{
    match frame {
        Frame::Propose {
            view,
            number,
            entry,
            sig,
        } => {
            let agree = *view % nodes;
            let signers = [Signer { agree, sig }];
            check_entry_votes(directory, 0, *view, *number, entry, &signers, steps)
        }
        Frame::Vote {
            phase,
            view,
            number,
            agree,
            digest,
            sig,
        } => {
            let signers = [Signer { agree: *agree, sig }];
            check_votes(directory, *phase, *view, *number, digest, &signers, steps)
        }
        Frame::Agreed {
            view,
            number,
            entry,
            signers,
        } => check_entry_votes(directory, 1, *view, *number, entry, signers.items(), steps),
        _ => unreachable!(),
    }
}

/// Shares of a reply, at a point, or its secrets.
fn check_answered<L: Ledger>(
    directory: &Directory,
    answer: &Answer<'_>,
    point: u32,
    values: &[u8],
    steps: &mut Steps<L>,
) -> bool
    requires number { IsTrue (number_fits directory.now.params answer.now.number) }
    requires point { point ≤ executors directory.now.params }
    requires values { IsTrue (values_fit values.now) }
    ensures { Checks directory.now 257 result steps.old steps.new (Signed (record { slot = slots.Reply answer.now.number; point = point; text = Answered answer.now.number answer.now.client answer.now.stamp answer.now.body.now; values = values.now }) ∷ []) }
{
    let digest = answer_digest(answer, steps);
    let slot = Slot::Reply {
        number: answer.number,
    };
    check_part(directory, slot, point, &digest, values, steps)
}

/// A share of a reply, or a reply.
fn check_answer<L: Ledger>(directory: &Directory, frame: &Frame<'_>, steps: &mut Steps<L>) -> bool
    requires sizes { IsTrue (accepted directory.now.params) }
    requires kind { IsTrue (is_answer (plain frame.now)) }
    requires fits { IsTrue (frame_fits directory.now.params (plain frame.now)) }
    ensures { Checks directory.now 257 result steps.old steps.new (pieces directory.now.params hash (plain frame.now)) }
{
    match frame {
        Frame::Share {
            number,
            exec,
            client,
            stamp,
            body,
            shares,
        } => {
            let point = *exec + 1;
            let answer = Answer {
                number: *number,
                client: *client,
                stamp: *stamp,
                body,
            };
            check_answered(directory, &answer, point, shares, steps)
        }
        Frame::Reply {
            number,
            client,
            stamp,
            body,
            secrets,
        } => {
            let answer = Answer {
                number: *number,
                client: *client,
                stamp: *stamp,
                body,
            };
            check_answered(directory, &answer, 0, secrets, steps)
        }
        _ => unreachable!(),
    }
}

/// Whether each signature and each list of shares of the frame is valid.
pub fn check_frame<L: Ledger>(
    directory: &Directory,
    frame: &Frame<'_>,
    steps: &mut Steps<L>,
) -> bool
    requires { IsTrue (frame_fits directory.now.params (plain frame.now)) }
    ensures { Checks directory.now 260 result steps.old steps.new (pieces directory.now.params hash (plain frame.now)) }
{
    let nodes = directory.params().agreements();
    match frame {
        Frame::Request(request) => check_request(directory, request, steps),
        Frame::Change(change) => check_change(directory, change, steps),
        Frame::NewView { view, changes, sig } => {
            check_new_view(directory, *view, nodes, changes.items(), sig, steps)
        }
        Frame::Propose { .. } | Frame::Vote { .. } | Frame::Agreed { .. } => {
            check_voting(directory, frame, nodes, steps)
        }
        Frame::Share { .. } | Frame::Reply { .. } => check_answer(directory, frame, steps),
        Frame::Want { .. } => true,
    }
}
