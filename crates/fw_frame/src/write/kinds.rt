//! Writing a frame of each kind.

ghost use Rattle.std.specs.Prelude.{◌≡◌, ◌++◌, OnOk, map, All};
ghost use Rattle.fw_frame.specs.Frames as plain_frame;
ghost use Rattle.fw_frame.specs.Plain.{plain_request, plain_entry, plain_signer, plain_change};
ghost use Rattle.fw_frame.specs.Spelling.{frame_bytes};
ghost use Rattle.fw_frame.specs.Writing.{IsCountable, IsWritableChange};

use super::parts;
use crate::{Change, ChangeList, Entry, Request, Signers};
use fw_list::Memory;
use fw_wire::Writer;

/// Adds a request.
pub fn request(out: &mut Writer, request: &Request<'_>) -> Result<(), Memory>
    ensures { OnOk result (out.new ≡ out.old ++ frame_bytes (plain_frame.Request (plain_request request.now))) }
{
    out.u8(1)?;
    parts::request(out, request)
}

/// Adds a proposal.
pub fn propose(
    out: &mut Writer,
    view: u32,
    number: u32,
    entry: &Entry<'_>,
    sig: &[u8],
) -> Result<(), Memory>
    ensures { OnOk result (out.new ≡ out.old ++ frame_bytes (plain_frame.Propose view number (plain_entry entry.now) sig.now)) }
{
    out.u8(2)?;
    out.u32(view)?;
    out.u32(number)?;
    parts::entry(out, entry)?;
    out.fixed(sig)
}

/// Adds a vote.
pub fn vote(
    out: &mut Writer,
    phase: u32,
    view: u32,
    number: u32,
    agree: u32,
    digest: &[u8],
    sig: &[u8],
) -> Result<(), Memory>
    ensures { OnOk result (out.new ≡ out.old ++ frame_bytes (plain_frame.Vote phase view number agree digest.now sig.now)) }
{
    out.u8(3)?;
    out.u32(phase)?;
    out.u32(view)?;
    out.u32(number)?;
    out.u32(agree)?;
    out.fixed(digest)?;
    out.fixed(sig)
}

/// Adds a view change.
pub fn change(out: &mut Writer, change: &Change<'_>) -> Result<(), Memory>
    requires { IsWritableChange change.now }
    ensures { OnOk result (out.new ≡ out.old ++ frame_bytes (plain_frame.Change (plain_change change.now))) }
{
    out.u8(4)?;
    parts::change(out, change)
}

/// Adds a new view.
pub fn new_view(
    out: &mut Writer,
    view: u32,
    changes: &ChangeList<'_>,
    sig: &[u8],
) -> Result<(), Memory>
    requires count { IsCountable changes.now }
    requires all { All IsWritableChange changes.now }
    ensures { OnOk result (out.new ≡ out.old ++ frame_bytes (plain_frame.NewView view (map plain_change changes.now) sig.now)) }
{
    out.u8(5)?;
    out.u32(view)?;
    parts::changes(out, changes)?;
    out.fixed(sig)
}

/// Adds an agreed entry.
pub fn agreed(
    out: &mut Writer,
    view: u32,
    number: u32,
    entry: &Entry<'_>,
    signers: &Signers<'_>,
) -> Result<(), Memory>
    requires { IsCountable signers.now }
    ensures { OnOk result (out.new ≡ out.old ++ frame_bytes (plain_frame.Agreed view number (plain_entry entry.now) (map plain_signer signers.now))) }
{
    out.u8(6)?;
    out.u32(view)?;
    out.u32(number)?;
    parts::entry(out, entry)?;
    parts::signers(out, signers)
}

/// Adds an executor's share.
pub fn share(
    out: &mut Writer,
    number: u32,
    exec: u32,
    client: u32,
    stamp: u32,
    body: &[u8],
    shares: &[u8],
) -> Result<(), Memory>
    ensures { OnOk result (out.new ≡ out.old ++ frame_bytes (plain_frame.Share number exec client stamp body.now shares.now)) }
{
    out.u8(7)?;
    out.u32(number)?;
    out.u32(exec)?;
    out.u32(client)?;
    out.u32(stamp)?;
    out.fixed(body)?;
    out.fixed(shares)
}

/// Adds a reply.
pub fn reply(
    out: &mut Writer,
    number: u32,
    client: u32,
    stamp: u32,
    body: &[u8],
    secrets: &[u8],
) -> Result<(), Memory>
    ensures { OnOk result (out.new ≡ out.old ++ frame_bytes (plain_frame.Reply number client stamp body.now secrets.now)) }
{
    out.u8(8)?;
    out.u32(number)?;
    out.u32(client)?;
    out.u32(stamp)?;
    out.fixed(body)?;
    out.fixed(secrets)
}

/// Adds a want.
pub fn want(out: &mut Writer, number: u32) -> Result<(), Memory>
    ensures { OnOk result (out.new ≡ out.old ++ frame_bytes (plain_frame.Want number)) }
{
    out.u8(9)?;
    out.u32(number)
}
