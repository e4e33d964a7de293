//! What requests ask and replies answer, read from words and sealed.

ghost use Rattle.std.specs.Prelude.{◌≡◌, ◌≤◌, ◌<◌, IfOk};
ghost use Rattle.fw_op.specs.Replies.{has_bytes};

use crate::fault::{Fault, number, word};
use fw_deal::Deal;
use fw_list::BODY_LEN;
use fw_means::seal_op;
use fw_op::{Op, Reply, Words, client_of};
use fw_seal::{Body, Direction, seal};
use std::alloc::Global;

/// A client and one of its stamps, and whether the body is spoiled: with the lowest bit of its last byte changed it doesn't open.
#[derive(Clone, Copy)]
struct Head {
    client: u32,
    stamp: u32,
    spoiled: bool,
}

/// A body under a client and a stamp: what a request asks, or what a reply answers.
#[derive(Drop)]
pub struct Sealed {
    pub client: u32,
    pub stamp: u32,
    pub body: [u8; BODY_LEN],
}

impl Head {
    /// `cC S` or `spoiled cC S`, of which the first word is this.
    fn of(deal: &Deal, first: &str, words: &mut Words<'_>) -> Result<Head, Fault>
        ensures client { IfOk result (λ head. head.client < deal.now.origin.params.clients) }
        ensures stamp { IfOk result (λ head. head.stamp ≤ 65535) }
    {
        let spoiled = first == "spoiled";
        let name = if spoiled { word(words)? } else { first };
        let client = client_of(name, deal.directory().params().clients).ok_or(Fault::NoLine)?;
        let stamp = number(words)?;
        Ok(Head {
            client,
            stamp,
            spoiled,
        })
    }

    /// With this body, which may be spoiled.
    fn with(self, body: Body) -> Sealed {
        let mut bytes = body.bytes;
        if self.spoiled {
            bytes[BODY_LEN - 1] ^= 1;
        }
        Sealed {
            client: self.client,
            stamp: self.stamp,
            body: bytes,
        }
    }
}

/// What a client asks: `cC S OPERATION`.
pub fn asked(alloc: Global, deal: &Deal, words: &mut Words<'_>) -> Result<Sealed, Fault> {
    let first = word(words)?;
    let head = Head::of(deal, first, words)?;
    let op = Op::from_words(alloc, 8, words)?.ok_or(Fault::NoLine)?;
    let key = deal.key(head.client);
    let body = seal_op(alloc, key, head.client, head.stamp, &op)?;
    Ok(head.with(body))
}

/// Whether a reply has bytes.
fn is_said(reply: &Reply) -> bool
    ensures { result ≡ has_bytes reply.now }
{
    !matches!(reply, Reply::Null)
}

/// What is answered at a number: `null`, or `cC S REPLY`.
pub fn answered(
    alloc: Global,
    deal: &Deal,
    number: u32,
    words: &mut Words<'_>,
) -> Result<Sealed, Fault>
    requires { number ≤ 65535 }
{
    let first = word(words)?;
    if first == "null" {
        return Ok(Sealed {
            client: 0,
            stamp: 0,
            body: [0; BODY_LEN],
        });
    }
    let head = Head::of(deal, first, words)?;
    let reply = Reply::from_words(alloc, 8, words)?.ok_or(Fault::NoLine)?;
    if !is_said(&reply) {
        return Err(Fault::NoLine);
    }
    let text = reply.bytes(alloc)?;
    let key = deal.key(head.client);
    let body = seal(key, Direction::Reply, head.client, number, text.items());
    Ok(head.with(body))
}
