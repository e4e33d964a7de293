//! The keys of clients, and an executor's records, read.

ghost use Rattle.std.specs.Prelude.{◌≡◌, flat_map, IfOk, IsTrue};
ghost use Rattle.fw_base.specs.Sizes.{accepted};
ghost use Rattle.fw_hand.specs.Files.{held_key_bytes, records_bytes};
ghost use Rattle.fw_hand.specs.Hands.{AreStartsOf};
ghost use Rattle.fw_wire.specs.Reading.{Finds};
ghost use Rattle.fw_hand.specs.Reading.{IsHalf, IsKeyOf, AreKeysFor};

use crate::HeldKey;
use crate::slots::clients_of;
use fw_base::{Params, Seat};
use fw_list::{Items, Memory};
use fw_op::Starts;
use fw_record::read_starts;
use fw_seal::BodyKey;
use fw_wire::Reader;
use std::alloc::Global;

/// A key of 32 bytes.
fn half_in(reader: &mut Reader<'_>) -> Option<[u8; 32]>
    ensures { Finds (λ bytes. bytes) IsHalf reader.old result reader.new }
{
    let part = reader.fixed(32)?;
    let mut half = [0; 32];
    half.copy_from_slice(part);
    Some(half)
}

/// The two keys of a client.
fn key_in(client: u32, reader: &mut Reader<'_>) -> Option<HeldKey>
    ensures { Finds held_key_bytes (IsKeyOf client) reader.old result reader.new }
{
    let Some(stream_key) = half_in(reader) else {
        return None;
    };
    let Some(mac_key) = half_in(reader) else {
        return None;
    };
    Some(HeldKey {
        client,
        key: BodyKey {
            stream_key,
            mac_key,
        },
    })
}

/// The keys that a seat has.
pub(crate) fn keys_in(
    alloc: Global,
    params: &Params,
    seat: Seat,
    reader: &mut Reader<'_>,
) -> Result<Option<Items<HeldKey>>, Memory>
    requires { IsTrue (accepted params.now) }
    ensures { IfOk result (λ found. Finds (flat_map held_key_bytes) (AreKeysFor params.now seat) reader.old found reader.new) }
{
    let clients = clients_of(alloc, params, seat)?;
    let mut keys = Items::new(alloc);
    for client in clients.items() {
        let Some(key) = key_in(*client, reader) else {
            return Ok(None);
        };
        keys.push(key)?;
    }
    Ok(Some(keys))
}

/// The records that a seat has.
pub(crate) fn starts_in(
    alloc: Global,
    params: &Params,
    seat: Seat,
    reader: &mut Reader<'_>,
) -> Result<Option<Starts>, Memory>
    requires { IsTrue (accepted params.now) }
    ensures { IfOk result (λ found. Finds (records_bytes seat) (AreStartsOf params.now seat) reader.old found reader.new) }
{
    match seat {
        Seat::Exec(_) => read_starts(alloc, params.clients, reader),
        _ => Ok(Some(Starts::new(alloc))),
    }
}
