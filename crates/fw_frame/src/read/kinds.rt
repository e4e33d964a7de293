//! The fields of a frame of each kind, at the front of bytes.

ghost use Rattle.std.specs.Prelude.{◌≡◌, ◌-◌, IsTrue, ◌&&◌, ◌||◌, IfOk, OnErr, nat_eq, nat_le, option_map};
ghost use Rattle.std.specs.List.{list_all};
ghost use Rattle.fw_base.specs.Sizes.{accepted};
ghost use Rattle.fw_frame.specs.Plain.{plain};
ghost use Rattle.fw_wire.specs.Reading.{FindsWhere};
ghost use Rattle.fw_frame.specs.Reading.{kind_fits, fields_bytes, answer_bytes, answered_fits};
ghost use Rattle.fw_frame.specs.declared.read.kinds.Answered.{Answered};
ghost use Rattle.fw_frame.specs.Needing.{StartsChange, StartsNewView, StartsAgreed};

use super::changes::{change as one_change, changes};
use super::entry::{entry, request as one_request};
use super::fields::{agreement, at_most, begun, below, executor, number, part};
use super::signers::signers;
use crate::Frame;
use fw_base::Params;
use fw_list::{BODY_LEN, Memory, SIGNATURE_LEN};
use fw_wire::Reader;
use std::alloc::Global;

/// How many bytes a digest has.
const DIGEST: usize = 32;

/// The fields of a request.
pub fn request<'a>(params: &Params, reader: &mut Reader<'a>) -> Option<Frame<'a>>
    requires { IsTrue (accepted params.now) }
    ensures { FindsWhere fields_bytes (kind_fits params.now 1) reader.old (option_map plain result) reader.new }
{
    let request = one_request(params, reader)?;
    Some(Frame::Request(request))
}

/// The fields of a proposal.
pub fn propose<'a>(params: &Params, reader: &mut Reader<'a>) -> Option<Frame<'a>>
    requires { IsTrue (accepted params.now) }
    ensures { FindsWhere fields_bytes (kind_fits params.now 2) reader.old (option_map plain result) reader.new }
{
    let view = below(reader, params.views)?;
    let number = number(reader, 1, params.numbers)?;
    let entry = entry(params, reader)?;
    let sig = part(reader, SIGNATURE_LEN)?;
    Some(Frame::Propose {
        view,
        number,
        entry,
        sig,
    })
}

/// The fields of a vote.
pub fn vote<'a>(params: &Params, reader: &mut Reader<'a>) -> Option<Frame<'a>>
    requires { IsTrue (accepted params.now) }
    ensures { FindsWhere fields_bytes (kind_fits params.now 3) reader.old (option_map plain result) reader.new }
{
    let phase = at_most(reader, 1)?;
    let view = below(reader, params.views)?;
    let number = number(reader, 1, params.numbers)?;
    let agree = agreement(params, reader)?;
    let digest = part(reader, DIGEST)?;
    let sig = part(reader, SIGNATURE_LEN)?;
    Some(Frame::Vote {
        phase,
        view,
        number,
        agree,
        digest,
        sig,
    })
}

/// The fields of a view change.
pub fn change<'a>(
    alloc: Global,
    params: &Params,
    reader: &mut Reader<'a>,
) -> Result<Option<Frame<'a>>, Memory>
    requires { IsTrue (accepted params.now) }
    ensures found { IfOk result (λ found. FindsWhere fields_bytes (kind_fits params.now 4) reader.old (option_map plain found) reader.new) }
    ensures memory { OnErr result (StartsChange params.now 1 (params.now.views - 1) reader.old) }
{
    let Some(change) = one_change(alloc, params, reader, 1, params.views - 1, 0)? else {
        return Ok(None);
    };
    Ok(Some(Frame::Change(change)))
}

/// The fields of a new view.
pub fn new_view<'a>(
    alloc: Global,
    params: &Params,
    reader: &mut Reader<'a>,
) -> Result<Option<Frame<'a>>, Memory>
    requires { IsTrue (accepted params.now) }
    ensures found { IfOk result (λ found. FindsWhere fields_bytes (kind_fits params.now 5) reader.old (option_map plain found) reader.new) }
    ensures memory { OnErr result (StartsNewView params.now reader.old) }
{
    let Some(view) = begun(params, reader) else {
        return Ok(None);
    };
    let Some(changes) = changes(alloc, params, reader, view)? else {
        return Ok(None);
    };
    let Some(sig) = part(reader, SIGNATURE_LEN) else {
        return Ok(None);
    };
    Ok(Some(Frame::NewView { view, changes, sig }))
}

/// The fields of an agreed entry.
pub fn agreed<'a>(
    alloc: Global,
    params: &Params,
    reader: &mut Reader<'a>,
) -> Result<Option<Frame<'a>>, Memory>
    requires { IsTrue (accepted params.now) }
    ensures found { IfOk result (λ found. FindsWhere fields_bytes (kind_fits params.now 6) reader.old (option_map plain found) reader.new) }
    ensures memory { OnErr result (StartsAgreed params.now reader.old) }
{
    let Some(view) = below(reader, params.views) else {
        return Ok(None);
    };
    let Some(number) = number(reader, 1, params.numbers) else {
        return Ok(None);
    };
    let Some(entry) = entry(params, reader) else {
        return Ok(None);
    };
    let Some(signers) = signers(alloc, params, reader)? else {
        return Ok(None);
    };
    Ok(Some(Frame::Agreed {
        view,
        number,
        entry,
        signers,
    }))
}

/// Whom a reply is for, and its body.
#[derive(Clone, Copy)]
struct Answered<'a> {
    client: u32,
    stamp: u32,
    body: &'a [u8],
}

fn is_zero(bytes: &[u8]) -> bool
    ensures { result ≡ list_all (nat_eq 0) bytes.now }
{
    bytes.iter().all(|b| *b == 0)
}

/// Whether all is zero, if the stamp is.
fn is_whole(client: u32, stamp: u32, body: &[u8]) -> bool
    ensures { result ≡ (nat_le 1 stamp || nat_eq client 0 && list_all (nat_eq 0) body.now) }
{
    if stamp > 0 {
        return true;
    }
    if client > 0 {
        return false;
    }
    is_zero(body)
}

/// A client, a stamp and a body: those of a request, or all zero.
fn answer<'a>(params: &Params, reader: &mut Reader<'a>) -> Option<Answered<'a>>
    requires { IsTrue (accepted params.now) }
    ensures { FindsWhere answer_bytes (answered_fits params.now) reader.old (option_map (λ a. (a.client, (a.stamp, a.body.now))) result) reader.new }
{
    let client = below(reader, params.clients)?;
    let stamp = at_most(reader, params.stamps)?;
    let body = part(reader, BODY_LEN)?;
    if !is_whole(client, stamp, body) {
        return None;
    }
    Some(Answered {
        client,
        stamp,
        body,
    })
}

/// The fields of an executor's share.
pub fn share<'a>(params: &Params, reader: &mut Reader<'a>) -> Option<Frame<'a>>
    requires { IsTrue (accepted params.now) }
    ensures { FindsWhere fields_bytes (kind_fits params.now 7) reader.old (option_map plain result) reader.new }
{
    let number = number(reader, 1, params.numbers)?;
    let exec = executor(params, reader)?;
    let to = answer(params, reader)?;
    let shares = part(reader, SIGNATURE_LEN)?;
    Some(Frame::Share {
        number,
        exec,
        client: to.client,
        stamp: to.stamp,
        body: to.body,
        shares,
    })
}

/// The fields of a reply.
pub fn reply<'a>(params: &Params, reader: &mut Reader<'a>) -> Option<Frame<'a>>
    requires { IsTrue (accepted params.now) }
    ensures { FindsWhere fields_bytes (kind_fits params.now 8) reader.old (option_map plain result) reader.new }
{
    let number = number(reader, 1, params.numbers)?;
    let to = answer(params, reader)?;
    let secrets = part(reader, SIGNATURE_LEN)?;
    Some(Frame::Reply {
        number,
        client: to.client,
        stamp: to.stamp,
        body: to.body,
        secrets,
    })
}

/// The field of a want.
pub fn want<'a>(params: &Params, reader: &mut Reader<'a>) -> Option<Frame<'a>>
    ensures { FindsWhere fields_bytes (kind_fits params.now 9) reader.old (option_map plain result) reader.new }
{
    let number = number(reader, 1, params.numbers)?;
    Some(Frame::Want { number })
}
