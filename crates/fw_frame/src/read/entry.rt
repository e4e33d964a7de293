//! Requests and entries, at the front of bytes.

ghost use Rattle.std.specs.Prelude.{IsTrue, option_map};
ghost use Rattle.fw_base.specs.Sizes.{accepted};
ghost use Rattle.fw_frame.specs.Plain.{plain_request, plain_entry};
ghost use Rattle.fw_frame.specs.Ranges.{request_fits, entry_fits};
ghost use Rattle.fw_wire.specs.Reading.{FindsWhere};
ghost use Rattle.fw_frame.specs.Spelling.{request_bytes, entry_bytes};

use super::fields::{below, number, part};
use crate::{Entry, Request};
use fw_base::Params;
use fw_list::{BODY_LEN, SIGNATURE_LEN};
use fw_wire::Reader;

/// A client's request.
pub fn request<'a>(params: &Params, reader: &mut Reader<'a>) -> Option<Request<'a>>
    requires { IsTrue (accepted params.now) }
    ensures { FindsWhere request_bytes (request_fits params.now) reader.old (option_map plain_request result) reader.new }
{
    let client = below(reader, params.clients)?;
    let stamp = number(reader, 1, params.stamps)?;
    let body = part(reader, BODY_LEN)?;
    let sig = part(reader, SIGNATURE_LEN)?;
    Some(Request {
        client,
        stamp,
        body,
        sig,
    })
}

/// A request, or null.
pub fn entry<'a>(params: &Params, reader: &mut Reader<'a>) -> Option<Entry<'a>>
    requires { IsTrue (accepted params.now) }
    ensures { FindsWhere entry_bytes (entry_fits params.now) reader.old (option_map plain_entry result) reader.new }
{
    let kind = number(reader, 0, 1)?;
    if kind == 0 {
        return Some(Entry::Null);
    }
    let request = request(params, reader)?;
    Some(Entry::Request(request))
}
