//! The parts of a hand file, added to bytes.

ghost use Rattle.std.specs.Prelude.{◌≡◌, ◌≤◌, ◌++◌, flat_map, codes, Some, OnOk, IfSome, IsTrue, option_map};
ghost use Rattle.fw_list.specs.Numbers.{u32};
ghost use Rattle.fw_base.specs.Sizes.{accepted};
ghost use Rattle.fw_base.specs.Seats.{fits};
ghost use Rattle.fw_record.specs.Records.{starts_fit};
ghost use Rattle.fw_hand.specs.Files.{params_bytes, seat_mark, held_key_bytes, records_bytes, part_bytes};
ghost use Rattle.fw_hand.specs.Hands.{AreStartsOf};

use crate::file::PUBLIC;
use crate::{Hand, Held, HeldKey};
use fw_base::{Params, Seat};
use fw_list::Memory;
use fw_op::Start;
use fw_record::add_starts;
use fw_wire::Writer;

/// The eight sizes in order.
fn add_params(out: &mut Writer, params: &Params) -> Result<(), Memory>
    ensures { OnOk result (out.new ≡ out.old ++ params_bytes params.now) }
{
    out.u32(params.f)?;
    out.u32(params.g)?;
    out.u32(params.h)?;
    out.u32(params.numbers)?;
    out.u32(params.views)?;
    out.u32(params.clients)?;
    out.u32(params.stamps)?;
    out.u32(params.pipe)
}

/// The index of the hand's seat, or the mark of a public file.
fn mark_of(params: &Params, hand: Option<&Hand>) -> u32
    requires sizes { IsTrue (accepted params.now) }
    requires fits { IfSome hand (λ h. IsTrue (fits params.now h.now.seat)) }
    ensures { result ≡ seat_mark params.now (option_map (λ h. h.now) hand.entry) }
{
    match hand {
        Some(hand) => hand.seat().index(params),
        None => PUBLIC,
    }
}

/// The letters, the sizes, and whose it is.
pub(crate) fn add_head(out: &mut Writer, params: &Params, hand: Option<&Hand>) -> Result<(), Memory>
    requires sizes { IsTrue (accepted params.now) }
    requires fits { IfSome hand (λ h. IsTrue (fits params.now h.now.seat)) }
    ensures { OnOk result (out.new ≡ out.old ++ (codes "fwh1" ++ params_bytes params.now ++ u32 (seat_mark params.now (option_map (λ h. h.now) hand.entry)))) }
{
    out.fixed(b"fwh1")?;
    add_params(out, params)?;
    out.u32(mark_of(params, hand))
}

/// The values of slots.
fn add_held(out: &mut Writer, held: &[Held]) -> Result<(), Memory>
    ensures { OnOk result (out.new ≡ out.old ++ flat_map (λ s. s.values) held.now) }
{
    for one in held {
        out.fixed(one.values.items())?;
    }
    Ok(())
}

/// The two keys of a client.
fn add_key(out: &mut Writer, one: &HeldKey) -> Result<(), Memory>
    ensures { OnOk result (out.new ≡ out.old ++ held_key_bytes one.now) }
{
    out.fixed(&one.key.stream_key)?;
    out.fixed(&one.key.mac_key)
}

/// The keys of clients.
fn add_keys(out: &mut Writer, keys: &[HeldKey]) -> Result<(), Memory>
    ensures { OnOk result (out.new ≡ out.old ++ flat_map held_key_bytes keys.now) }
{
    for one in keys {
        add_key(out, one)?;
    }
    Ok(())
}

/// An executor's records.
fn add_records(
    out: &mut Writer,
    params: &Params,
    seat: Seat,
    starts: &[Start],
) -> Result<(), Memory>
    requires sizes { IsTrue (accepted params.now) }
    requires starts { AreStartsOf params.now seat starts.now }
    ensures { OnOk result (out.new ≡ out.old ++ records_bytes seat starts.now) }
{
    match seat {
        Seat::Exec(_) => add_starts(out, starts),
        _ => Ok(()),
    }
}

/// A seat's part.
pub(crate) fn add_part(out: &mut Writer, params: &Params, hand: &Hand) -> Result<(), Memory>
    requires sizes { IsTrue (accepted params.now) }
    requires starts { AreStartsOf params.now hand.now.seat hand.now.starts }
    ensures { OnOk result (out.new ≡ out.old ++ part_bytes (Some hand.now)) }
{
    add_held(out, hand.held())?;
    add_keys(out, hand.keys())?;
    add_records(out, params, hand.seat(), hand.starts())
}
