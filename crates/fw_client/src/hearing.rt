//! What a client hears.

ghost use Rattle.std.specs.Prelude.{◌≡◌, ◌<◌, ◌≤◌, ◌^◌, ◌∷◌, [], length, map, IfOk};
ghost use Rattle.fw_list.specs.declared.limits.TheConstants.{BODY_LEN};
ghost use Rattle.fw_trace.specs.Client as clients;
ghost use Rattle.fw_trace.specs.declared.Input.TheVariants.{Heard};
ghost use Rattle.fw_frame.specs.Plain.{plain};
ghost use Rattle.fw_frame.specs.View.{viewed, viewed_answers};
ghost use Rattle.fw_rules.specs.Choices.{first_some};
ghost use Rattle.fw_rules.specs.Deployed.{bodies_of};
ghost use Rattle.fw_rules.specs.Roles.{told_in, told_one};
ghost use Rattle.fw_client.specs.Kept.{after};
ghost use Rattle.fw_client.specs.Standing.{IsClients, speech_of};
ghost use Rattle.fw_client.specs.Hearing.{IsOpenable};

use crate::asking::key_of;
use crate::submissions::{Accepted, Submissions};
use fw_base::Seat;
use fw_digest::Steps;
use fw_directory::Directory;
use fw_frame::Frame;
use fw_hand::Hand;
use fw_list::Memory;
use fw_means::{admitted, open_reply};
use std::alloc::Global;
use std::sync::ledger::Ledger;

/// The reply to this client that an answer at a number opens to; none where it is another's, or there is no answer.
fn opened(
    alloc: Global,
    client: u32,
    hand: &Hand,
    number: u32,
    to: u32,
    stamp: u32,
    body: &[u8],
) -> Result<Option<Accepted>, Memory>
    requires keys { map (λ k. k.client) hand.now.keys ≡ client ∷ [] }
    requires number { number < 2 ^ 31 }
    requires body { 1 ≤ stamp → length body.now ≡ BODY_LEN }
    ensures { IfOk result (λ told. told ≡ first_some (told_one (bodies_of hand.now) client number) (viewed_answers to stamp body.now)) }
{
    if stamp == 0 {
        return Ok(None);
    }
    if to != client {
        return Ok(None);
    }
    match open_reply(alloc, key_of(hand, client), client, number, body)? {
        Some(reply) => Ok(Some(Accepted {
            number,
            stamp,
            reply,
        })),
        None => Ok(None),
    }
}

/// The reply to this client that a frame from a seat tells.
fn told(
    alloc: Global,
    client: u32,
    hand: &Hand,
    from: Seat,
    frame: &Frame<'_>,
) -> Result<Option<Accepted>, Memory>
    requires keys { map (λ k. k.client) hand.now.keys ≡ client ∷ [] }
    requires frame { IsOpenable (viewed (plain frame.now)) }
    ensures { IfOk result (λ told. told ≡ told_in (bodies_of hand.now) client from (viewed (plain frame.now))) }
{
    match (from, frame) {
        (
            Seat::Agree(_),
            Frame::Reply {
                number,
                client: to,
                stamp,
                body,
                ..
            },
        ) => { opened(alloc, client, hand, *number, *to, *stamp, body) }
        _ => Ok(None),
    }
}

/// Takes a frame from a seat: a reply with the pending stamp is accepted. Whether the next submission is asked then.
pub(crate) fn hear<L: Ledger>(
    alloc: Global,
    client: u32,
    hand: &Hand,
    submissions: &mut Submissions,
    directory: &Directory,
    from: Seat,
    bytes: &[u8],
    steps: &mut Steps<L>,
) -> Result<bool, Memory>
    requires { IsClients directory.now.params client hand.now }
    ensures most { submissions.new.most ≡ submissions.old.most }
    ensures step { IfOk result (λ asks. let sp = speech_of client hand.now directory.now in clients.client_next sp submissions.old.keeps (Heard from bytes.now) ≡ after asks sp submissions.new.keeps) }
{
    let Some(checked) = admitted(alloc, directory, Seat::Client(client), from, bytes, steps)? else {
        return Ok(false);
    };
    match told(alloc, client, hand, from, checked.frame())? {
        Some(told) => submissions.hear(told),
        None => Ok(false),
    }
}
