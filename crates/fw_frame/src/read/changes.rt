//! View changes, at the front of bytes.

ghost use Rattle.std.specs.Prelude.{◌≡◌, ◌<◌, ◌≤◌, ◌&&◌, IsTrue, IfOk, OnErr, nat_eq, nat_le, option_map, map};
ghost use Rattle.std.specs.List.{flat_map};
ghost use Rattle.fw_list.specs.Numbers.{within};
ghost use Rattle.fw_base.specs.Sizes.{accepted, quorum};
ghost use Rattle.fw_frame.specs.Plain.{plain_change};
ghost use Rattle.fw_frame.specs.Ranges.{change_fits, changes_fit};
ghost use Rattle.fw_wire.specs.Reading.{FindsWhere};
ghost use Rattle.fw_frame.specs.Reading.{list_fits};
ghost use Rattle.fw_frame.specs.Spelling.{change_bytes, changes_bytes};
ghost use Rattle.fw_frame.specs.Needing.{StartsItem, StartsChange, StartsChanges};

use super::fields::{node, number, part};
use super::proofs::proofs;
use crate::{Change, ChangeList};
use fw_base::Params;
use fw_list::{Memory, SIGNATURE_LEN};
use fw_wire::Reader;
use std::alloc::Global;

/// A change to a view of a range, of a node from one on.
pub fn change<'a>(
    alloc: Global,
    params: &Params,
    reader: &mut Reader<'a>,
    low: u32,
    high: u32,
    least: u32,
) -> Result<Option<Change<'a>>, Memory>
    requires accepted { IsTrue (accepted params.now) }
    requires low { 0 < low }
    requires high { high < params.now.views }
    ensures found { IfOk result (λ found. FindsWhere change_bytes (λ c. nat_le least c.agree && (within low c.view high && change_fits params.now c)) reader.old (option_map plain_change found) reader.new) }
    ensures memory { OnErr result (StartsChange params.now low high reader.old) }
{
    let Some(view) = number(reader, low, high) else {
        return Ok(None);
    };
    let Some(agree) = node(params, reader, least) else {
        return Ok(None);
    };
    let Some(proofs) = proofs(alloc, params, reader, view)? else {
        return Ok(None);
    };
    let Some(sig) = part(reader, SIGNATURE_LEN) else {
        return Ok(None);
    };
    Ok(Some(Change {
        view,
        agree,
        proofs,
        sig,
    }))
}

/// A change to this view, of a node from one on.
fn change_to<'a>(
    alloc: Global,
    params: &Params,
    reader: &mut Reader<'a>,
    view: u32,
    least: u32,
) -> Result<Option<Change<'a>>, Memory>
    requires accepted { IsTrue (accepted params.now) }
    requires low { 0 < view }
    requires high { view < params.now.views }
    ensures found { IfOk result (λ found. FindsWhere change_bytes (λ c. nat_le least c.agree && (nat_eq c.view view && change_fits params.now c)) reader.old (option_map plain_change found) reader.new) }
    ensures memory { OnErr result (StartsChange params.now view view reader.old) }
{
    change(alloc, params, reader, view, view, least)
}

/// Changes to this view, ascending by node.
fn change_list<'a>(
    alloc: Global,
    params: &Params,
    reader: &mut Reader<'a>,
    view: u32,
    count: u32,
) -> Result<Option<ChangeList<'a>>, Memory>
    requires accepted { IsTrue (accepted params.now) }
    requires low { 0 < view }
    requires high { view < params.now.views }
    ensures found { IfOk result (λ found. FindsWhere (flat_map change_bytes) (list_fits (λ c. c.agree) (λ c. nat_eq c.view view && change_fits params.now c) count) reader.old (option_map (map plain_change) found) reader.new) }
    ensures memory { OnErr result (StartsItem change_bytes (λ c. nat_eq c.view view && change_fits params.now c) (StartsChange params.now view view) reader.old) }
{
    let mut changes = ChangeList::new(alloc);
    let mut least = 0;
    for _ in 0..count {
        let Some(change) = change_to(alloc, params, reader, view, least)? else {
            return Ok(None);
        };
        least = change.agree + 1;
        changes.push(change)?;
    }
    Ok(Some(changes))
}

/// The changes of a quorum to this view.
pub fn changes<'a>(
    alloc: Global,
    params: &Params,
    reader: &mut Reader<'a>,
    view: u32,
) -> Result<Option<ChangeList<'a>>, Memory>
    requires accepted { IsTrue (accepted params.now) }
    requires low { 0 < view }
    requires high { view < params.now.views }
    ensures found { IfOk result (λ found. FindsWhere changes_bytes (changes_fit params.now view) reader.old (option_map (map plain_change) found) reader.new) }
    ensures memory { OnErr result (StartsChanges params.now view reader.old) }
{
    let quorum = params.quorum();
    let Some(count) = number(reader, quorum, quorum) else {
        return Ok(None);
    };
    change_list(alloc, params, reader, view, count)
}
