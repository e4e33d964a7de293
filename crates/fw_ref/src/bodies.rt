//! Bodies of requests opened, and bodies of replies sealed.

ghost use Rattle.std.specs.Prelude.{◌≡◌, ◌<◌, ◌^◌, length, IfOk, IsTrue};
ghost use Rattle.fw_frame.specs.Plain.{plain_request};
ghost use Rattle.fw_list.specs.declared.limits.TheConstants.{BODY_LEN};
ghost use Rattle.fw_op.specs.Replies.{reply_fits};
ghost use Rattle.fw_ref.specs.Bodies.{op_of, body_of};

use fw_frame::Request;
use fw_list::{BODY_LEN, LONGEST_TEXT, Memory};
use fw_op::{Op, Reply};
use fw_seal::{Body, BodyKey, Direction, seal, unseal};
use std::alloc::Global;

/// The operation that a request asks, or none where its body opens to none.
pub(crate) fn op_of(
    alloc: Global,
    key: &BodyKey,
    request: &Request<'_>,
) -> Result<Option<Op>, Memory>
    requires stamp { request.now.stamp < 2 ^ 31 }
    requires body { length request.now.body.now ≡ BODY_LEN }
    ensures { IfOk result (λ op. op ≡ op_of key.now (plain_request request.now)) }
{
    let mut body = Body {
        bytes: [0; BODY_LEN],
    };
    body.bytes.copy_from_slice(request.body);
    let mut text = [0; LONGEST_TEXT];
    match unseal(
        key,
        Direction::Request,
        request.client,
        request.stamp,
        &body,
        &mut text,
    ) {
        Some(len) => Op::read_bytes(alloc, &text[..len as usize]),
        None => Ok(None),
    }
}

/// The body of a reply to a client at a number.
pub(crate) fn body_of(
    alloc: Global,
    key: &BodyKey,
    client: u32,
    number: u32,
    reply: &Reply,
) -> Result<Body, Memory>
    requires number { number < 2 ^ 31 }
    requires fits { IsTrue (reply_fits 8 reply.now) }
    ensures { IfOk result (λ body. body.bytes ≡ body_of key.now client number reply.now) }
{
    if let Reply::Null = reply {
        return Ok(Body {
            bytes: [0; BODY_LEN],
        });
    }
    let text = reply.bytes(alloc)?;
    Ok(seal(key, Direction::Reply, client, number, text.items()))
}
