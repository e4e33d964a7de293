//! The answers of lies, and the frames that carry them.

ghost use Rattle.std.specs.Prelude.{◌≡◌, ◌≤◌, ◌<◌, Some, IfOk, IsTrue};
ghost use Rattle.fw_list.specs.Numbers.{within};
ghost use Rattle.fw_base.specs.Sizes.{accepted, executors};
ghost use Rattle.fw_text.specs.Texts.{hash, Answered};
ghost use Rattle.fw_frame.specs.Spelling.{frame_bytes};
ghost use Rattle.fw_step.specs.Fitting.{answered_fits, answer_fits};
ghost use Rattle.fw_lies.specs.Lying.{said_of, answer_of, answer_values, share_of, reply_of};
ghost use Rattle.fw_lies.specs.Made.{plain_answer};

use crate::bodies::reply_body;
use crate::signing::values_for;
use fw_base::Slot;
use fw_deal::Deal;
use fw_digest::digest;
use fw_frame::{Frame, three_numbers};
use fw_list::{BODY_LEN, Bytes, Memory, SIGNATURE_LEN};
use fw_seal::Body;
use fw_step::LieReply;
use std::alloc::Global;

/// An answer that was made.
#[derive(Drop)]
pub(crate) struct Answer {
    pub client: u32,
    pub stamp: u32,
    pub body: Body,
}

/// The answer of a lie to a client.
fn said(alloc: Global, deal: &Deal, number: u32, reply: &LieReply) -> Result<Answer, Memory>
    requires sizes { IsTrue (accepted deal.now.origin.params) }
    requires number { IsTrue (within 1 number deal.now.origin.params.numbers) }
    requires fits { IsTrue (answered_fits deal.now.origin.params reply.now) }
    ensures { IfOk result (λ a. plain_answer a ≡ said_of deal.now.origin number (Some reply.now)) }
{
    let client = reply.client;
    let body = reply_body(alloc, deal.key(client), client, number, &reply.reply)?;
    Ok(Answer {
        client,
        stamp: reply.stamp,
        body,
    })
}

/// The answer of a lie.
fn answer_of(alloc: Global, deal: &Deal, number: u32, answer: &[LieReply]) -> Result<Answer, Memory>
    requires sizes { IsTrue (accepted deal.now.origin.params) }
    requires number { IsTrue (within 1 number deal.now.origin.params.numbers) }
    requires fits { IsTrue (answer_fits deal.now.origin.params answer.now) }
    ensures { IfOk result (λ a. plain_answer a ≡ answer_of deal.now.origin number answer.now) }
{
    match answer.first() {
        Some(reply) => said(alloc, deal, number, reply),
        None => Ok(Answer {
            client: 0,
            stamp: 0,
            body: Body {
                bytes: [0; BODY_LEN],
            },
        }),
    }
}

/// The digest of a reply's text.
#[tactic(auto, unfolding(fw_text::specs::Texts::hash, fw_text::specs::Texts::text_bytes))]
fn answer_digest(number: u32, answer: &Answer) -> [u8; 32]
    ensures { result ≡ hash (Answered number answer.now.client answer.now.stamp answer.now.body.bytes) }
{
    let head = three_numbers(number, answer.client, answer.stamp);
    digest(22, &head, &answer.body.bytes)
}

/// What is dealt for a reply at a point, for an answer.
fn answer_values(deal: &Deal, number: u32, point: u32, answer: &Answer) -> [u8; SIGNATURE_LEN]
    requires number { IsTrue (within 1 number deal.now.origin.params.numbers) }
    requires point { point ≤ executors deal.now.origin.params }
    ensures { result ≡ answer_values deal.now.origin number point (plain_answer answer.now) }
{
    let digest = answer_digest(number, answer);
    values_for(deal, Slot::Reply { number }, point, &digest)
}

/// The bytes of the frame of an executor's share.
pub(crate) fn share_bytes(
    alloc: Global,
    deal: &Deal,
    exec: u32,
    number: u32,
    answer: &[LieReply],
) -> Result<Bytes, Memory>
    requires sizes { IsTrue (accepted deal.now.origin.params) }
    requires exec { exec < executors deal.now.origin.params }
    requires number { IsTrue (within 1 number deal.now.origin.params.numbers) }
    requires fits { IsTrue (answer_fits deal.now.origin.params answer.now) }
    ensures { IfOk result (λ bytes. bytes ≡ frame_bytes (share_of deal.now.origin number (answer_of deal.now.origin number answer.now) exec)) }
{
    let answer = answer_of(alloc, deal, number, answer)?;
    let shares = answer_values(deal, number, exec + 1, &answer);
    let frame = Frame::Share {
        number,
        exec,
        client: answer.client,
        stamp: answer.stamp,
        body: &answer.body.bytes,
        shares: &shares,
    };
    frame.write(alloc)
}

/// The bytes of the frame of a reply.
pub(crate) fn reply_bytes(
    alloc: Global,
    deal: &Deal,
    number: u32,
    answer: &[LieReply],
) -> Result<Bytes, Memory>
    requires sizes { IsTrue (accepted deal.now.origin.params) }
    requires number { IsTrue (within 1 number deal.now.origin.params.numbers) }
    requires fits { IsTrue (answer_fits deal.now.origin.params answer.now) }
    ensures { IfOk result (λ bytes. bytes ≡ frame_bytes (reply_of deal.now.origin number (answer_of deal.now.origin number answer.now))) }
{
    let answer = answer_of(alloc, deal, number, answer)?;
    let secrets = answer_values(deal, number, 0, &answer);
    let frame = Frame::Reply {
        number,
        client: answer.client,
        stamp: answer.stamp,
        body: &answer.body.bytes,
        secrets: &secrets,
    };
    frame.write(alloc)
}
