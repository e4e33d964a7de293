//! The shares that are kept.

ghost use Rattle.std.specs.Prelude.{◌≡◌, ◌<◌, ◌&&◌, nat_eq, map, IfOk};
ghost use Rattle.std.specs.List.{list_any};
ghost use Rattle.fw_frame.specs.View.{viewed_answers};
ghost use Rattle.fw_trace.specs.Filter as filters;
ghost use Rattle.fw_rules.specs.Roles.{is_equal, same_answers};
ghost use Rattle.fw_share.specs.Shares.{answers_of, valued};

use fw_list::{Bytes, Memory};
use std::alloc::Global;

/// The answer to a client's request: its body is sealed.
#[derive(Drop)]
pub struct Answer {
    pub client: u32,
    pub stamp: u32,
    pub body: Bytes,
}

/// An executor's share of the reply to a number. Without an answer it is a share of the null reply.
#[derive(Drop)]
pub struct KeptShare {
    pub number: u32,
    pub exec: u32,
    pub answer: Option<Answer>,
    pub values: Bytes,
}

/// The answer that a frame gives: none where its stamp is 0.
pub(crate) fn answer_of(
    alloc: Global,
    client: u32,
    stamp: u32,
    body: &[u8],
) -> Result<Option<Answer>, Memory>
    ensures { IfOk result (λ answer. answers_of answer ≡ viewed_answers client stamp body.now) }
{
    if stamp == 0 {
        return Ok(None);
    }
    let body = Bytes::copy_of(alloc, body)?;
    Ok(Some(Answer {
        client,
        stamp,
        body,
    }))
}

/// Whether two answers are the same.
fn is_same(one: &Option<Answer>, other: &Option<Answer>) -> bool
    ensures { result ≡ same_answers (answers_of one.now) (answers_of other.now) }
{
    match (one, other) {
        (None, None) => true,
        (Some(one), Some(other)) => {
            one.client == other.client
                && one.stamp == other.stamp
                && one.body.items() == other.body.items()
        }
        _ => false,
    }
}

/// Whether one share has the number and the answer of another.
pub(crate) fn is_like(share: &KeptShare, other: &KeptShare) -> bool
    ensures { result ≡ is_equal other.now.number (valued other.now) (valued share.now) }
{
    share.number == other.number && is_same(&share.answer, &other.answer)
}

/// Whether this is the executor's share of a number.
fn is_share(share: &KeptShare, number: u32, exec: u32) -> bool
    ensures { result ≡ (nat_eq share.now.number number && nat_eq share.now.exec exec) }
{
    share.number == number && share.exec == exec
}

/// Whether one of these is such a share.
fn is_any_share(kept: &[KeptShare], number: u32, exec: u32) -> bool
    ensures { result ≡ list_any (λ share. nat_eq share.number number && nat_eq share.exec exec) kept.now }
{
    kept.iter().any(|share| is_share(share, number, exec))
}

/// Whether the executor's share of a number is kept.
pub(crate) fn has_share(kept: &[KeptShare], number: u32, exec: u32) -> bool
    ensures { result ≡ filters.has_share (map valued kept.now) number exec }
{
    is_any_share(kept, number, exec)
}
