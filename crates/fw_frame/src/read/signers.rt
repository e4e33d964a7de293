//! Signatures of a quorum, at the front of bytes.

ghost use Rattle.std.specs.Prelude.{◌≡◌, ◌<◌, ◌≤◌, ◌&&◌, IsTrue, IfOk, OnErr, nat_eq, nat_le, option_map, map};
ghost use Rattle.std.specs.List.{flat_map};
ghost use Rattle.fw_list.specs.Numbers.{within};
ghost use Rattle.fw_base.specs.Sizes.{accepted, quorum};
ghost use Rattle.fw_frame.specs.Plain.{plain_signer};
ghost use Rattle.fw_frame.specs.Ranges.{signer_fits, signers_fit};
ghost use Rattle.fw_wire.specs.Reading.{FindsWhere};
ghost use Rattle.fw_frame.specs.Reading.{list_fits};
ghost use Rattle.fw_frame.specs.Spelling.{signer_bytes, signers_bytes};
ghost use Rattle.fw_frame.specs.Needing.{Begins, Anything, StartsSigners};

use super::fields::{node, number, part};
use crate::{Signer, Signers};
use fw_base::Params;
use fw_list::{Memory, SIGNATURE_LEN};
use fw_wire::Reader;
use std::alloc::Global;

/// The signature of a node, from one on.
fn signer<'a>(params: &Params, reader: &mut Reader<'a>, least: u32) -> Option<Signer<'a>>
    requires { IsTrue (accepted params.now) }
    ensures { FindsWhere signer_bytes (λ s. nat_le least s.agree && signer_fits params.now s) reader.old (option_map plain_signer result) reader.new }
{
    let agree = node(params, reader, least)?;
    let sig = part(reader, SIGNATURE_LEN)?;
    Some(Signer { agree, sig })
}

/// Signatures, ascending by node.
fn signer_list<'a>(
    alloc: Global,
    params: &Params,
    reader: &mut Reader<'a>,
    count: u32,
) -> Result<Option<Signers<'a>>, Memory>
    requires { IsTrue (accepted params.now) }
    ensures found { IfOk result (λ found. FindsWhere (flat_map signer_bytes) (list_fits (λ s. s.agree) (signer_fits params.now) count) reader.old (option_map (map plain_signer) found) reader.new) }
    ensures memory { OnErr result (Begins signer_bytes (signer_fits params.now) Anything reader.old) }
{
    let mut signers = Signers::new(alloc);
    let mut least = 0;
    for _ in 0..count {
        let Some(signer) = signer(params, reader, least) else {
            return Ok(None);
        };
        least = signer.agree + 1;
        signers.push(signer)?;
    }
    Ok(Some(signers))
}

/// The signatures of a quorum.
pub fn signers<'a>(
    alloc: Global,
    params: &Params,
    reader: &mut Reader<'a>,
) -> Result<Option<Signers<'a>>, Memory>
    requires { IsTrue (accepted params.now) }
    ensures found { IfOk result (λ found. FindsWhere signers_bytes (signers_fit params.now) reader.old (option_map (map plain_signer) found) reader.new) }
    ensures memory { OnErr result (StartsSigners params.now reader.old) }
{
    let quorum = params.quorum();
    let Some(count) = number(reader, quorum, quorum) else {
        return Ok(None);
    };
    signer_list(alloc, params, reader, count)
}
