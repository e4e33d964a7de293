//! What the seats are dealt: the values of slots, keys, and records to start with.

ghost use Rattle.std.specs.Prelude.{◌≡◌, ◌<◌, All, map, IfOk, IsTrue};
ghost use Rattle.fw_list.specs.Lists.{numbers_from};
ghost use Rattle.fw_base.specs.Sizes.{accepted};
ghost use Rattle.fw_deal.specs.Deals.{key_of, starts_of, HasValues, held_at};

use fw_base::{Params, Seat, Slot};
use fw_hand::{Held, HeldKey};
use fw_list::{Bytes, Items, Memory, ROW_LEN};
use fw_op::{Start, Starts};
use fw_secret::{body_key, slot_values};
use std::alloc::Global;

/// The values of these slots at a point.
pub(crate) fn held_of(
    alloc: Global,
    params: &Params,
    seed: &[u8; 32],
    slots: &[Slot],
    point: u32,
) -> Result<Items<Held>, Memory>
    requires sizes { IsTrue (accepted params.now) }
    requires slots { All (HasValues params.now point) slots.now }
    ensures { IfOk result (λ held. held ≡ map (held_at (record { params = params.now; seed = seed.now }) point) slots.now) }
{
    let mut held = Items::new(alloc);
    let mut values = [0; ROW_LEN];
    for k in 0..slots.len() {
        let slot = slots[k];
        slot_values(params, seed, slot, point, &mut values);
        let copy = Bytes::copy_of(alloc, &values)?;
        held.push(Held { slot, values: copy })?;
    }
    Ok(held)
}

/// The keys of these clients' bodies.
pub(crate) fn keys_of(
    alloc: Global,
    params: &Params,
    seed: &[u8; 32],
    clients: &[u32],
) -> Result<Items<HeldKey>, Memory>
    requires { All (λ client. client < 8) clients.now }
    ensures { IfOk result (λ keys. keys ≡ map (key_of (record { params = params.now; seed = seed.now })) clients.now) }
{
    let mut keys = Items::new(alloc);
    for k in 0..clients.len() {
        let client = clients[k];
        let key = body_key(params, seed, client);
        keys.push(HeldKey { client, key })?;
    }
    Ok(keys)
}

/// The keys of all clients' bodies, in the clients' order.
pub(crate) fn all_keys(
    alloc: Global,
    params: &Params,
    seed: &[u8; 32],
) -> Result<Items<HeldKey>, Memory>
    requires { IsTrue (accepted params.now) }
    ensures { IfOk result (λ keys. keys ≡ map (key_of (record { params = params.now; seed = seed.now })) (numbers_from 0 params.now.clients)) }
{
    let mut keys = Items::new(alloc);
    for client in 0..params.clients {
        let key = body_key(params, seed, client);
        keys.push(HeldKey { client, key })?;
    }
    Ok(keys)
}

/// The same records.
pub(crate) fn copy_starts(alloc: Global, starts: &[Start]) -> Result<Starts, Memory>
    ensures { IfOk result (λ copy. copy ≡ starts.now) }
{
    let mut copy = Starts::new(alloc);
    for start in starts {
        copy.push(start.copy(alloc)?)?;
    }
    Ok(copy)
}

/// The records that a seat starts with.
pub(crate) fn starts_of(alloc: Global, seat: Seat, starts: &[Start]) -> Result<Starts, Memory>
    ensures { IfOk result (λ own. own ≡ starts_of seat starts.now) }
{
    match seat {
        Seat::Exec(_) => copy_starts(alloc, starts),
        _ => Ok(Starts::new(alloc)),
    }
}
