//! The request of a client as a frame, and where it goes.

ghost use Rattle.std.specs.Prelude.{◌≡◌, ◌≤◌, ◌++◌, ◌∷◌, [], true, Some, map, OnOk, OnErr, IfOk, IsTrue};
ghost use Rattle.fw_base.specs.declared.slot.Slot.TheVariants as slots;
ghost use Rattle.fw_text.specs.Texts.{hash, Asked};
ghost use Rattle.fw_op.specs.Ops.{op_fits};
ghost use Rattle.fw_directory.specs.Directories.{PlainDirectory};
ghost use Rattle.fw_hand.specs.Hands.{key_in};
ghost use Rattle.fw_means.specs.Means.{signed_by};
ghost use Rattle.fw_client.specs.Kept.{sent_of};
ghost use Rattle.fw_client.specs.Standing.{IsClients, speech_of};

use crate::submissions::Submissions;
use fw_base::{Params, Slot};
use fw_digest::digest;
use fw_frame::{Frame, Request, two_numbers};
use fw_hand::Hand;
use fw_list::{Bytes, Memory, SIGNATURE_LEN};
use fw_means::{seal_op, signed};
use fw_node::{Outbox, agreement_seats};
use fw_op::Op;
use fw_seal::{Body, BodyKey};
use std::alloc::Global;

/// The keys of the client whose hand this is.
pub(crate) fn key_of(hand: &Hand, client: u32) -> &BodyKey
    requires { map (λ k. k.client) hand.now.keys ≡ client ∷ [] }
    ensures { key_in hand.now.keys client ≡ Some result.now }
{
    match hand.key(client) {
        Some(key) => key,
        None => unreachable!(),
    }
}

/// The digest of a request's text.
#[tactic(auto, unfolding(fw_text::specs::Texts::hash, fw_text::specs::Texts::text_bytes))]
fn digest_of(client: u32, stamp: u32, body: &Body) -> [u8; 32]
    ensures { result ≡ hash (Asked client stamp body.now.bytes) }
{
    digest(16, &two_numbers(client, stamp), &body.bytes)
}

/// The signature of a client under a stamp.
fn signature(
    params: &Params,
    client: u32,
    hand: &Hand,
    stamp: u32,
    digest: &[u8; 32],
) -> [u8; SIGNATURE_LEN]
    requires hand { IsClients params.now client hand.now }
    requires first { 1 ≤ stamp }
    requires last { stamp ≤ params.now.stamps }
    ensures { result ≡ signed_by hand.now (slots.Request client stamp) digest.now }
{
    // (they say in the contract alone which slots the hand has)
    let _params = params;
    match signed(hand, Slot::Request { client, stamp }, digest) {
        Some(values) => values,
        None => unreachable!(),
    }
}

/// The frame of a client's request under a stamp.
pub(crate) fn request(
    alloc: Global,
    params: &Params,
    client: u32,
    hand: &Hand,
    stamp: u32,
    op: &Op,
) -> Result<Bytes, Memory>
    requires hand { IsClients params.now client hand.now }
    requires first { 1 ≤ stamp }
    requires last { stamp ≤ params.now.stamps }
    requires op { IsTrue (op_fits 8 op.now) }
    ensures { IfOk result (λ bytes. (d : PlainDirectory) → bytes ≡ (speech_of client hand.now d).request stamp op.now) }
{
    let body = seal_op(alloc, key_of(hand, client), client, stamp, op)?;
    let digest = digest_of(client, stamp, &body);
    let sig = signature(params, client, hand, stamp, &digest);
    let request = Request {
        client,
        stamp,
        body: &body.bytes,
        sig: &sig,
    };
    Frame::Request(request).write(alloc)
}

/// Sends the newest request to all agreement nodes. After want of memory the outbox is as before.
pub(crate) fn send_newest(
    alloc: Global,
    params: &Params,
    client: u32,
    hand: &Hand,
    submissions: &Submissions,
    out: &mut Outbox,
) -> Result<(), Memory>
    requires hand { IsClients params.now client hand.now }
    requires most { submissions.now.most ≡ params.now.stamps }
    ensures sent { OnOk result ((d : PlainDirectory) → d.params ≡ params.now → out.new ≡ out.old ++ sent_of true (speech_of client hand.now d) submissions.now.keeps) }
    ensures err { OnErr result (out.new ≡ out.old) }
{
    let Some((stamp, op)) = submissions.newest() else {
        return Ok(());
    };
    let bytes = request(alloc, params, client, hand, stamp, op)?;
    let to = agreement_seats(alloc, params)?;
    out.send_to_all(alloc, to.items(), bytes.items())
}
