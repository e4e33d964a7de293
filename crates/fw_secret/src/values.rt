//! The value of a place, the values of a slot, and the keys of a client.

ghost use Rattle.std.specs.Prelude.{◌≡◌, ◌≤◌, ◌<◌, length, IsTrue};
ghost use Rattle.fw_base.specs.Sizes.{accepted};
ghost use Rattle.fw_base.specs.Places.{slot_fits, place_fits, last_point};
ghost use Rattle.fw_list.specs.declared.limits.TheConstants.{ROW_LEN};
ghost use Rattle.fw_secret.specs.Dealt.{dealt, slot_values, body_key};

use crate::replies::{reply_value, reply_values};
use crate::streams::{chunk, fill};
use fw_base::{Params, Place, Slot, place_index};
use fw_seal::BodyKey;

/// The value that is dealt for a place.
pub fn dealt(params: &Params, seed: &[u8; 32], place: &Place) -> [u8; 32]
    requires sizes { IsTrue (accepted params.now) }
    requires fits { IsTrue (place_fits params.now place.now) }
    ensures { result ≡ dealt (record { params = params.now; seed = seed.now }) place.now }
{
    match place.slot {
        Slot::Reply { number } => reply_value(
            params,
            seed,
            number,
            2 * place.bit + place.side,
            place.point,
        ),
        _ => chunk(seed, 1, u64::from(place_index(params, place))),
    }
}

/// The 512 values of a slot at a point, by bit and side. A slot's secrets are one piece of the stream.
pub fn slot_values(params: &Params, seed: &[u8; 32], slot: Slot, point: u32, out: &mut [u8])
    requires sizes { IsTrue (accepted params.now) }
    requires fits { IsTrue (slot_fits params.now slot) }
    requires point { point ≤ last_point params.now slot }
    requires room { length out.old ≡ ROW_LEN }
    ensures { out.new ≡ slot_values (record { params = params.now; seed = seed.now }) slot point }
{
    match slot {
        Slot::Reply { number } => reply_values(params, seed, number, point, out),
        _ => {
            let first = Place {
                slot,
                bit: 0,
                side: 0,
                point,
            };
            fill(seed, 1, u64::from(place_index(params, &first)), out);
        }
    }
}

/// The keys of a client's bodies.
pub fn body_key(params: &Params, seed: &[u8; 32], client: u32) -> BodyKey
    requires { client < 8 }
    ensures { result ≡ body_key (record { params = params.now; seed = seed.now }) client }
{
    let first = 2 * u64::from(client);
    BodyKey {
        stream_key: chunk(seed, 3, first),
        mac_key: chunk(seed, 3, first + 1),
    }
}
