//! Reading a frame.

mod changes;
mod entry;
mod fields;
mod kinds;
mod proofs;
mod signers;

ghost use Rattle.std.specs.Prelude.{◌≡◌, ◌∷◌, IsTrue, IfOk, OnErr, IfSome, Some, option_map};
ghost use Rattle.fw_base.specs.Sizes.{accepted};
ghost use Rattle.fw_frame.specs.Frames.{PlainFrame};
ghost use Rattle.fw_frame.specs.Plain.{plain};
ghost use Rattle.fw_frame.specs.Ranges.{IsFrame, frame_fits};
ghost use Rattle.fw_wire.specs.Reading.{FindsWhere};
ghost use Rattle.fw_frame.specs.Reading.{kind_fits, fields_bytes};
ghost use Rattle.fw_frame.specs.Spelling.{frame_bytes};
ghost use Rattle.fw_frame.specs.Writing.{IsWritable};
ghost use Rattle.fw_frame.specs.Needing.{HasLists};
ghost use Rattle.fw_frame.specs.Undoing.{frame_in};

use crate::Frame;
use fw_base::Params;
use fw_list::Memory;
use fw_wire::Reader;
use std::alloc::Global;

/// The fields of a frame of this kind.
fn of_kind<'a>(
    alloc: Global,
    params: &Params,
    reader: &mut Reader<'a>,
    kind: u8,
) -> Result<Option<Frame<'a>>, Memory>
    requires { IsTrue (accepted params.now) }
    ensures found { IfOk result (λ found. FindsWhere fields_bytes (kind_fits params.now kind) reader.old (option_map plain found) reader.new) }
    ensures memory { OnErr result (HasLists params.now (kind ∷ reader.old)) }
{
    match kind {
        1 => Ok(kinds::request(params, reader)),
        2 => Ok(kinds::propose(params, reader)),
        3 => Ok(kinds::vote(params, reader)),
        4 => kinds::change(alloc, params, reader),
        5 => kinds::new_view(alloc, params, reader),
        6 => kinds::agreed(alloc, params, reader),
        7 => Ok(kinds::share(params, reader)),
        8 => Ok(kinds::reply(params, reader)),
        9 => Ok(kinds::want(params, reader)),
        _ => Ok(None),
    }
}

/// The frame at the front.
fn frame<'a>(
    alloc: Global,
    params: &Params,
    reader: &mut Reader<'a>,
) -> Result<Option<Frame<'a>>, Memory>
    requires { IsTrue (accepted params.now) }
    ensures found { IfOk result (λ found. FindsWhere frame_bytes (frame_fits params.now) reader.old (option_map plain found) reader.new) }
    ensures memory { OnErr result (HasLists params.now reader.old) }
{
    let Some(kind) = reader.u8() else {
        return Ok(None);
    };
    of_kind(alloc, params, reader, kind)
}

impl<'a> Frame<'a> {
    /// The frame that these bytes are, which borrows them: the only one.
    pub fn read(
        alloc: Global,
        params: &Params,
        bytes: &'a [u8],
    ) -> Result<Option<Frame<'a>>, Memory>
        requires { IsTrue (accepted params.now) }
        ensures found { IfOk result (λ r. IfSome r (λ f. IsFrame params.now bytes.now (plain f))) }
        // What is read can be written.
        ensures writable { IfOk result (λ r. IfSome r IsWritable) }
        ensures each { IfOk result (λ r. (f : PlainFrame) → IsFrame params.now bytes.now f → option_map plain r ≡ Some f) }
        // What is found is a function of the bytes.
        ensures value { IfOk result (λ found. option_map plain found ≡ frame_in params.now bytes.now) }
        // Other bytes than these need no memory.
        ensures memory { OnErr result (HasLists params.now bytes.now) }
    {
        let mut reader = Reader::new(bytes);
        let Some(frame) = frame(alloc, params, &mut reader)? else {
            return Ok(None);
        };
        if !reader.is_empty() {
            return Ok(None);
        }
        Ok(Some(frame))
    }
}
