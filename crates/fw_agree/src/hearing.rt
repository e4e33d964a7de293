//! What an agreement node hears.

ghost use Rattle.std.specs.Prelude.{◌≡◌, ℕ, false, length, OnOk, OnErr, IfOk, IsTrue};
ghost use Rattle.fw_base.specs.declared.seat.Seat.TheVariants.{Agree, Filter, Client};
ghost use Rattle.fw_base.specs.declared.params.Params.{Params};
ghost use Rattle.fw_base.specs.Sizes.{accepted};
ghost use Rattle.fw_directory.specs.Directories.{PlainDirectory};
ghost use Rattle.fw_hand.specs.Hands.{PlainHand};
ghost use Rattle.fw_frame.specs.Plain.{plain, plain_request};
ghost use Rattle.fw_frame.specs.View.{viewed, viewed_request, viewed_answers};
ghost use Rattle.fw_node.specs.Histories.{Out};
ghost use Rattle.fw_rules.specs.Agree as agree;
ghost use Rattle.fw_rules.specs.Views as views;
ghost use Rattle.fw_kept.specs.Kept.{self_of, node_of, IsFor};
ghost use Rattle.fw_agree.specs.Steps.{at, behind, behind_some, if_heard, IsSeen};

use fw_act::{hears_proposal, hears_reply, hears_vote, remembers_request, resends};
use fw_base::Seat;
use fw_choose::reply_to;
use fw_directory::Directory;
use fw_frame::{Frame, Request};
use fw_hears::{hears_change, hears_new_view};
use fw_kept::Keeps;
use fw_list::Memory;
use fw_node::Outbox;
use std::alloc::Global;

/// Takes a request: one that is answered already gets that reply again, and any other is remembered.
fn hears_request(
    alloc: Global,
    directory: &Directory,
    keeps: &mut Keeps,
    from: Seat,
    request: &Request<'_>,
    out: &mut Outbox,
) -> Result<(), Memory>
    ensures step { OnOk result ((hand : PlainHand) (own : ℕ) → let me = self_of directory.now hand own in let r = viewed_request (plain_request request.now) in at keeps.new out.new ≡ behind out.old (agree.hears_request me (node_of keeps.old) from r (agree.reply_to me (node_of keeps.old) r.client r.stamp))) }
    ensures sizes { (p : Params) → IsFor p keeps.old → IsFor p keeps.new }
    ensures err { OnErr result (out.new ≡ out.old) }
{
    match reply_to(directory, keeps, request.client, request.stamp) {
        Some(reply) => resends(alloc, reply, from, out),
        None => remembers_request(alloc, keeps, request),
    }
}

/// Takes a reply: the first of its number is held, and goes to the client of its answer.
fn holds(
    alloc: Global,
    keeps: &mut Keeps,
    number: u32,
    client: u32,
    stamp: u32,
    body: &[u8],
    values: &[u8],
    out: &mut Outbox,
) -> Result<(), Memory>
    ensures step { OnOk result ((d : PlainDirectory) (hand : PlainHand) (own : ℕ) → at keeps.new out.new ≡ behind out.old (agree.hears_reply (self_of d hand own) (node_of keeps.old) (record { number = number; answers = viewed_answers client stamp body.now; values = values.now }))) }
    ensures sizes { (p : Params) → IsFor p keeps.old → IsFor p keeps.new }
    ensures err { OnErr result (out.new ≡ out.old) }
{
    hears_reply(alloc, keeps, number, client, stamp, body, values, out)
}

/// Takes a frame from a client. Whether it is one that is heard; any other changes nothing.
fn hears_client(
    alloc: Global,
    directory: &Directory,
    keeps: &mut Keeps,
    client: u32,
    frame: &Frame<'_>,
    out: &mut Outbox,
) -> Result<bool, Memory>
    ensures step { IfOk result (λ heard. (hand : PlainHand) (own : ℕ) → behind_some out.old (views.hears_all (self_of directory.now hand own) (node_of keeps.old) (Client client) (viewed (plain frame.now))) ≡ if_heard heard (at keeps.new out.new)) }
    ensures ignored { IfOk result (λ heard. heard ≡ false → at keeps.new out.new ≡ at keeps.old out.old) }
    ensures sizes { (p : Params) → IsFor p keeps.old → IsFor p keeps.new }
    ensures err { OnErr result (out.new ≡ out.old) }
{
    match frame {
        Frame::Request(request) => {
            hears_request(alloc, directory, keeps, Seat::Client(client), request, out)?;
            Ok(true)
        }
        _ => Ok(false),
    }
}

/// A digest that a frame names.
fn whole_digest(bytes: &[u8]) -> [u8; 32]
    requires { length bytes.now ≡ 32 }
    ensures { result ≡ bytes.now }
{
    let mut digest = [0; 32];
    digest.copy_from_slice(bytes);
    digest
}

/// Takes a frame from an agreement node. Whether it is one that is heard; any other changes nothing.
fn hears_agreement(
    alloc: Global,
    directory: &Directory,
    keeps: &mut Keeps,
    frame: &Frame<'_>,
) -> Result<bool, Memory>
    requires sizes { IsTrue (accepted directory.now.params) }
    requires for_sizes { IsFor directory.now.params keeps.old }
    requires seen { IsSeen directory.now.params (viewed (plain frame.now)) }
    ensures step { IfOk result (λ heard. (hand : PlainHand) (own i : ℕ) (out : Out) → behind_some out (views.hears_all (self_of directory.now hand own) (node_of keeps.old) (Agree i) (viewed (plain frame.now))) ≡ if_heard heard (at keeps.new out)) }
    ensures ignored { IfOk result (λ heard. heard ≡ false → node_of keeps.new ≡ node_of keeps.old) }
    ensures sizes { (p : Params) → IsFor p keeps.old → IsFor p keeps.new }
{
    match frame {
        Frame::Propose {
            view,
            number,
            entry,
            sig,
        } => {
            hears_proposal(alloc, directory, keeps, *view, *number, entry, sig)?;
            Ok(true)
        }
        Frame::Vote {
            phase,
            view,
            number,
            agree,
            digest,
            sig,
        } => {
            let digest = whole_digest(digest);
            hears_vote(alloc, keeps, *phase, *view, *number, *agree, &digest, sig)?;
            Ok(true)
        }
        Frame::Change(change) => {
            hears_change(alloc, keeps, change)?;
            Ok(true)
        }
        Frame::NewView { view, changes, sig } => {
            hears_new_view(alloc, keeps, *view, changes.items(), sig)?;
            Ok(true)
        }
        _ => Ok(false),
    }
}

/// Takes a frame from a filter of row 0. Whether it is one that is heard; any other changes nothing.
fn hears_filter(
    alloc: Global,
    keeps: &mut Keeps,
    frame: &Frame<'_>,
    out: &mut Outbox,
) -> Result<bool, Memory>
    ensures step { IfOk result (λ heard. (d : PlainDirectory) (hand : PlainHand) (own c : ℕ) → behind_some out.old (views.hears_all (self_of d hand own) (node_of keeps.old) (Filter 0 c) (viewed (plain frame.now))) ≡ if_heard heard (at keeps.new out.new)) }
    ensures ignored { IfOk result (λ heard. heard ≡ false → at keeps.new out.new ≡ at keeps.old out.old) }
    ensures sizes { (p : Params) → IsFor p keeps.old → IsFor p keeps.new }
    ensures err { OnErr result (out.new ≡ out.old) }
{
    match frame {
        Frame::Reply {
            number,
            client,
            stamp,
            body,
            secrets,
        } => {
            holds(alloc, keeps, *number, *client, *stamp, body, secrets, out)?;
            Ok(true)
        }
        _ => Ok(false),
    }
}

/// Takes a frame from a seat. Whether it is one that an agreement node hears; any other changes nothing. After want of
/// memory the outbox is as before.
pub(crate) fn hears(
    alloc: Global,
    directory: &Directory,
    keeps: &mut Keeps,
    from: Seat,
    frame: &Frame<'_>,
    out: &mut Outbox,
) -> Result<bool, Memory>
    requires sizes { IsTrue (accepted directory.now.params) }
    requires for_sizes { IsFor directory.now.params keeps.old }
    requires seen { IsSeen directory.now.params (viewed (plain frame.now)) }
    ensures step { IfOk result (λ heard. (hand : PlainHand) (own : ℕ) → behind_some out.old (views.hears_all (self_of directory.now hand own) (node_of keeps.old) from (viewed (plain frame.now))) ≡ if_heard heard (at keeps.new out.new)) }
    ensures ignored { IfOk result (λ heard. heard ≡ false → at keeps.new out.new ≡ at keeps.old out.old) }
    ensures sizes { (p : Params) → IsFor p keeps.old → IsFor p keeps.new }
    ensures err { OnErr result (out.new ≡ out.old) }
{
    match from {
        Seat::Client(client) => hears_client(alloc, directory, keeps, client, frame, out),
        Seat::Agree(_) => hears_agreement(alloc, directory, keeps, frame),
        Seat::Filter(0, _) => hears_filter(alloc, keeps, frame, out),
        _ => Ok(false),
    }
}
