//! The bodies of what a liar asks and answers.

ghost use Rattle.std.specs.Prelude.{◌≡◌, ◌<◌, ◌^◌, IfOk, IsTrue};
ghost use Rattle.fw_op.specs.Replies.{reply_fits, has_bytes};
ghost use Rattle.fw_step.specs.Fitting.{lie_op_fits};
ghost use Rattle.fw_ref.specs.Bodies.{body_of};
ghost use Rattle.fw_lies.specs.Lying.{asked_body, spoiled};

use fw_list::{BODY_LEN, Memory};
use fw_means::seal_op;
use fw_op::{Op, Reply};
use fw_seal::{Body, BodyKey, Direction, seal};
use fw_step::LieOp;
use std::alloc::Global;

/// The body with the lowest bit of its last byte changed.
#[tactic(auto, unfolding(crate::specs::Lying::spoiled))]
fn spoiled(body: Body) -> Body
    ensures { result.bytes ≡ spoiled body.bytes }
{
    let mut bytes = body.bytes;
    bytes[BODY_LEN - 1] ^= 1;
    Body { bytes }
}

/// The body of what a liar asks under a client's stamp.
pub(crate) fn asked_body(
    alloc: Global,
    key: &BodyKey,
    client: u32,
    stamp: u32,
    op: &LieOp,
) -> Result<Body, Memory>
    requires fits { IsTrue (lie_op_fits 8 op.now) }
    requires stamp { stamp < 2 ^ 31 }
    ensures { IfOk result (λ body. body.bytes ≡ asked_body key.now client stamp op.now) }
{
    match op {
        LieOp::Op(op) => seal_op(alloc, key, client, stamp, op),
        LieOp::Bad => {
            let body = seal_op(alloc, key, client, stamp, &Op::Count)?;
            Ok(spoiled(body))
        }
    }
}

/// The body of a reply to a client at a number.
pub(crate) fn reply_body(
    alloc: Global,
    key: &BodyKey,
    client: u32,
    number: u32,
    reply: &Reply,
) -> Result<Body, Memory>
    requires fits { IsTrue (reply_fits 8 reply.now) }
    requires said { IsTrue (has_bytes reply.now) }
    requires number { number < 2 ^ 31 }
    ensures { IfOk result (λ body. body.bytes ≡ body_of key.now client number reply.now) }
{
    let text = reply.bytes(alloc)?;
    Ok(seal(key, Direction::Reply, client, number, text.items()))
}
