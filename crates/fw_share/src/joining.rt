//! A reply, joined from shares.

ghost use Rattle.std.specs.Prelude.{◌≡◌, ◌≤◌, ◌+◌, ◌∷◌, ◌++◌, [], false, map, length, All, IfOk, OnOk, IsTrue};
ghost use Rattle.fw_base.specs.Sizes.{accepted};
ghost use Rattle.fw_trace.specs.Filter as filters;
ghost use Rattle.fw_frame.specs.Frames as frames;
ghost use Rattle.fw_frame.specs.Spelling.{frame_bytes};
ghost use Rattle.fw_frame.specs.View.{Replies};
ghost use Rattle.fw_means.specs.Means.{written};
ghost use Rattle.fw_share.specs.Shares.{IsWhole, AreFirsts, answers_of, valued};
ghost use Rattle.fw_share.specs.Combining.{equal_to, made_by};

use crate::kept::{KeptShare, is_like};
use fw_base::Params;
use fw_frame::Frame;
use fw_list::{BODY_LEN, Bytes, Items, Memory, SIGNATURE_LEN};
use fw_means::join;
use std::alloc::Global;

/// The points of shares, and their values.
#[derive(Drop)]
struct EqualShares<'a> {
    points: Bytes,
    values: Items<&'a [u8]>,
}

impl<'a> EqualShares<'a> {
    /// One more share.
    fn add(&mut self, share: &'a KeptShare) -> Result<(), Memory>
        requires { share.now.exec ≤ 7 }
        ensures points { OnOk result (self.new.points ≡ self.old.points ++ (share.now.exec + 1) ∷ []) }
        ensures values { OnOk result (map (λ v. v.now) self.new.values ≡ map (λ v. v.now) self.old.values ++ share.now.values ∷ []) }
    {
        self.points.push(share.exec as u8 + 1)?;
        self.values.push(share.values.items())
    }
}

/// Those of these shares that say what this one says.
fn equals<'a>(
    alloc: Global,
    params: &Params,
    kept: &'a [KeptShare],
    share: &KeptShare,
) -> Result<EqualShares<'a>, Memory>
    requires sizes { IsTrue (accepted params.now) }
    requires whole { All (IsWhole params.now) (map valued kept.now) }
    ensures points { IfOk result (λ equals. equals.points ≡ map (λ s. s.exec + 1) (equal_to (valued share.now) (map valued kept.now))) }
    ensures values { IfOk result (λ equals. map (λ v. v.now) equals.values ≡ map (λ s. s.value.1) (equal_to (valued share.now) (map valued kept.now))) }
{
    // (they say in the contract alone which executors there are)
    let _params = params;
    let mut equals = EqualShares {
        points: Bytes::new(alloc),
        values: Items::new(alloc),
    };
    for one in kept {
        if is_like(one, share) {
            equals.add(one)?;
        }
    }
    Ok(equals)
}

/// The bytes of a reply's frame.
fn reply_bytes(
    alloc: Global,
    number: u32,
    client: u32,
    stamp: u32,
    body: &[u8],
    secrets: &[u8],
) -> Result<Bytes, Memory>
    ensures { IfOk result (λ bytes. bytes ≡ frame_bytes (frames.Reply number client stamp body.now secrets.now)) }
{
    let reply = Frame::Reply {
        number,
        client,
        stamp,
        body,
        secrets,
    };
    reply.write(alloc)
}

/// The bytes of the reply that says what a share says, with these secrets.
#[tactic(auto, unfolding(fw_frame::specs::View::null_body))]
fn reply(alloc: Global, share: &KeptShare, secrets: &[u8]) -> Result<Bytes, Memory>
    ensures { IfOk result (λ bytes. bytes ≡ written (Replies (record { number = share.now.number; answers = answers_of share.now.answer; values = secrets.now }))) }
{
    match &share.answer {
        Some(answer) => {
            reply_bytes(
                alloc,
                share.number,
                answer.client,
                answer.stamp,
                answer.body.items(),
                secrets,
            )
        }
        None => reply_bytes(alloc, share.number, 0, 0, &[0; BODY_LEN], secrets),
    }
}

/// The reply's bytes, where a share is the g + 1st that says what it says.
pub(crate) fn reply_with(
    alloc: Global,
    params: &Params,
    kept: &[KeptShare],
    share: &KeptShare,
) -> Result<Option<Bytes>, Memory>
    requires sizes { IsTrue (accepted params.now) }
    requires whole { All (IsWhole params.now) (map valued kept.now) }
    requires new { IsWhole params.now (valued share.now) }
    requires firsts { AreFirsts (map valued kept.now) }
    requires first { filters.has_share (map valued kept.now) share.now.number share.now.exec ≡ false }
    ensures { IfOk result (λ made. made ≡ made_by params.now (map valued kept.now) (valued share.now)) }
{
    let mut equals = equals(alloc, params, kept, share)?;
    equals.add(share)?;
    if equals.values.len() != params.g as usize + 1 {
        return Ok(None);
    }
    let mut secrets = [0; SIGNATURE_LEN];
    join(equals.points.items(), equals.values.items(), &mut secrets);
    Ok(Some(reply(alloc, share, &secrets)?))
}
