//! What an agreement node keeps of the frames that it hears, and what it sends of replies.

ghost use Rattle.std.specs.Prelude.{◌≡◌, ◌++◌, ◌∷◌, [], ℕ, OnOk, OnErr, map, IsTrue};
ghost use Rattle.std.specs.List.{list_any};
ghost use Rattle.fw_base.specs.declared.params.Params.{Params};
ghost use Rattle.fw_base.specs.Sizes.{accepted};
ghost use Rattle.fw_hand.specs.Hands.{PlainHand};
ghost use Rattle.fw_directory.specs.Directories.{PlainDirectory};
ghost use Rattle.fw_frame.specs.Plain.{plain_request, plain_entry};
ghost use Rattle.fw_frame.specs.View.{Replies, viewed_request, viewed_entry, viewed_answers};
ghost use Rattle.fw_means.specs.Means.{written};
ghost use Rattle.fw_rules.specs.Agree as agree;
ghost use Rattle.fw_kept.specs.Kept.{self_of, node_of, IsFor};
ghost use Rattle.fw_owned.specs.Pieces.{request_of, reply_of};
ghost use Rattle.fw_act.specs.Doing.{with_vote};

use fw_base::Seat;
use fw_directory::Directory;
use fw_frame::{Entry, Request, entry_digest};
use fw_kept::Keeps;
use fw_list::{Bytes, Memory};
use fw_node::{Outbox, Sent};
use fw_owned::{OwnedEntry, OwnedPropose, OwnedReply, OwnedRequest, OwnedVote};
use std::alloc::Global;

/// Whether a request is this one, whatever its signature is.
fn is_same(request: &Request<'_>, other: &OwnedRequest) -> bool
    ensures { result ≡ agree.same_request (viewed_request (plain_request request.now)) (request_of other.now) }
{
    request.client == other.client
        && request.stamp == other.stamp
        && request.body == other.body.items()
}

/// Whether a request is among these.
fn is_among(requests: &[OwnedRequest], request: &Request<'_>) -> bool
    ensures { result ≡ list_any (agree.same_request (viewed_request (plain_request request.now))) (map request_of requests.now) }
{
    for one in requests {
        if is_same(request, one) {
            return true;
        }
    }
    false
}

/// Remembers a request that it doesn't remember yet.
pub fn remembers_request(
    alloc: Global,
    keeps: &mut Keeps,
    request: &Request<'_>,
) -> Result<(), Memory>
    ensures kept { OnOk result (node_of keeps.new ≡ agree.remembers_request (node_of keeps.old) (viewed_request (plain_request request.now))) }
    ensures sizes { (p : Params) → IsFor p keeps.old → IsFor p keeps.new }
{
    if is_among(keeps.requests.items(), request) {
        return Ok(());
    }
    let entry = OwnedEntry::Request(OwnedRequest::copy_of(alloc, request)?);
    keeps.seen.push(entry)?;
    keeps.requests.push(OwnedRequest::copy_of(alloc, request)?)
}

/// Keeps a proposal, which counts as the prepare vote of its view's primary.
pub fn hears_proposal(
    alloc: Global,
    directory: &Directory,
    keeps: &mut Keeps,
    view: u32,
    number: u32,
    entry: &Entry<'_>,
    sig: &[u8],
) -> Result<(), Memory>
    requires { IsTrue (accepted directory.now.params) }
    ensures kept { OnOk result ((hand : PlainHand) (own : ℕ) → node_of keeps.new ≡ agree.hears_proposal (self_of directory.now hand own) (node_of keeps.old) (record { view = view; number = number; entry = viewed_entry (plain_entry entry.now); sig = sig.now })) }
    ensures sizes { (p : Params) → IsFor p keeps.old → IsFor p keeps.new }
{
    let digest = entry_digest(entry);
    keeps.votes.push(OwnedVote {
        phase: 0,
        view,
        number,
        agree: view % directory.params().agreements(),
        digest,
        sig: Bytes::copy_of(alloc, sig)?,
    })?;
    keeps.seen.push(OwnedEntry::copy_of(alloc, entry)?)?;
    keeps.proposals.push(OwnedPropose {
        view,
        number,
        entry: OwnedEntry::copy_of(alloc, entry)?,
        sig: Bytes::copy_of(alloc, sig)?,
    })
}

/// Keeps a vote.
pub fn hears_vote(
    alloc: Global,
    keeps: &mut Keeps,
    phase: u32,
    view: u32,
    number: u32,
    agree: u32,
    digest: &[u8; 32],
    sig: &[u8],
) -> Result<(), Memory>
    ensures kept { OnOk result (node_of keeps.new ≡ with_vote (node_of keeps.old) (record { phase = phase; view = view; number = number; agree = agree; digest = digest.now; sig = sig.now })) }
    ensures sizes { (p : Params) → IsFor p keeps.old → IsFor p keeps.new }
{
    keeps.votes.push(OwnedVote {
        phase,
        view,
        number,
        agree,
        digest: *digest,
        sig: Bytes::copy_of(alloc, sig)?,
    })
}

/// Sends a reply that it holds to a seat. After want of memory the outbox is as before.
pub fn resends(
    alloc: Global,
    reply: &OwnedReply,
    from: Seat,
    out: &mut Outbox,
) -> Result<(), Memory>
    ensures sent { OnOk result (out.new ≡ out.old ++ (from, written (Replies (reply_of reply.now))) ∷ []) }
    ensures err { OnErr result (out.new ≡ out.old) }
{
    let bytes = reply.frame(alloc)?;
    out.push(Sent { to: from, bytes })
}

/// Holds the first reply of a number, and sends it to the client of its answer; one of a number of which a reply is held changes
/// nothing, and needs no memory. After want of memory the outbox is as before.
pub fn hears_reply(
    alloc: Global,
    keeps: &mut Keeps,
    number: u32,
    client: u32,
    stamp: u32,
    body: &[u8],
    values: &[u8],
    out: &mut Outbox,
) -> Result<(), Memory>
    ensures kept { OnOk result ((d : PlainDirectory) (hand : PlainHand) (own : ℕ) → node_of keeps.new ≡ (agree.hears_reply (self_of d hand own) (node_of keeps.old) (record { number = number; answers = viewed_answers client stamp body.now; values = values.now })).0) }
    ensures sent { OnOk result ((d : PlainDirectory) (hand : PlainHand) (own : ℕ) → out.new ≡ out.old ++ (agree.hears_reply (self_of d hand own) (node_of keeps.old) (record { number = number; answers = viewed_answers client stamp body.now; values = values.now })).1) }
    ensures sizes { (p : Params) → IsFor p keeps.old → IsFor p keeps.new }
    ensures err { OnErr result (out.new ≡ out.old) }
{
    if keeps.settled.reply_at(number).is_some() {
        return Ok(());
    }
    let reply = OwnedReply {
        number,
        client,
        stamp,
        body: Bytes::copy_of(alloc, body)?,
        values: Bytes::copy_of(alloc, values)?,
    };
    if stamp == 0 {
        keeps.settled.hold(reply)?;
        return Ok(());
    }
    let bytes = reply.frame(alloc)?;
    keeps.settled.hold(reply)?;
    out.push(Sent {
        to: Seat::Client(client),
        bytes,
    })
}
