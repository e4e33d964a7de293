//! Writing a frame.

mod kinds;
mod parts;

ghost use Rattle.std.specs.Prelude.{◌≡◌, ◌++◌, IfOk, OnOk};
ghost use Rattle.fw_frame.specs.Frames as plain_frame;
ghost use Rattle.fw_frame.specs.Plain.{plain, plain_change};
ghost use Rattle.fw_frame.specs.Spelling.{frame_bytes};
ghost use Rattle.fw_frame.specs.Writing.{IsWritable, IsWritableChange};

use crate::{Change, Frame};
use fw_list::{Bytes, Memory};
use fw_wire::Writer;
use std::alloc::Global;

/// Adds a frame.
fn frame(out: &mut Writer, frame: &Frame<'_>) -> Result<(), Memory>
    requires { IsWritable frame.now }
    ensures { OnOk result (out.new ≡ out.old ++ frame_bytes (plain frame.now)) }
{
    match frame {
        Frame::Request(request) => kinds::request(out, request),
        Frame::Propose {
            view,
            number,
            entry,
            sig,
        } => kinds::propose(out, *view, *number, entry, sig),
        Frame::Vote {
            phase,
            view,
            number,
            agree,
            digest,
            sig,
        } => kinds::vote(out, *phase, *view, *number, *agree, digest, sig),
        Frame::Change(change) => kinds::change(out, change),
        Frame::NewView { view, changes, sig } => kinds::new_view(out, *view, changes, sig),
        Frame::Agreed {
            view,
            number,
            entry,
            signers,
        } => kinds::agreed(out, *view, *number, entry, signers),
        Frame::Share {
            number,
            exec,
            client,
            stamp,
            body,
            shares,
        } => kinds::share(out, *number, *exec, *client, *stamp, body, shares),
        Frame::Reply {
            number,
            client,
            stamp,
            body,
            secrets,
        } => kinds::reply(out, *number, *client, *stamp, body, secrets),
        Frame::Want { number } => kinds::want(out, *number),
    }
}

impl Frame<'_> {
    /// The frame's bytes. Those of a frame of the deployment are read as the same frame.
    pub fn write(&self, alloc: Global) -> Result<Bytes, Memory>
        requires { IsWritable self.now }
        ensures { IfOk result (λ b. b ≡ frame_bytes (plain self.now)) }
    {
        let mut out = Writer::new(alloc);
        frame(&mut out, self)?;
        Ok(out.finish())
    }
}

impl Change<'_> {
    /// The bytes of the frame that carries this view change.
    pub fn write(&self, alloc: Global) -> Result<Bytes, Memory>
        requires { IsWritableChange self.now }
        ensures { IfOk result (λ b. b ≡ frame_bytes (plain_frame.Change (plain_change self.now))) }
    {
        let mut out = Writer::new(alloc);
        kinds::change(&mut out, self)?;
        Ok(out.finish())
    }
}
