//! The digests of all that is dealt, row by row.

ghost use Rattle.std.specs.Prelude.{◌≡◌, ◌<◌, length, IfOk, IsTrue};
ghost use Rattle.fw_base.specs.Sizes.{accepted};
ghost use Rattle.fw_list.specs.declared.limits.TheConstants.{ROW_LEN};
ghost use Rattle.fw_text.specs.Bits.{value_at};
ghost use Rattle.fw_text.specs.Texts.{hash, Value};
ghost use Rattle.fw_lamport.specs.Signature.{place_at};
ghost use Rattle.fw_deal.specs.Deals.{IsDirectoryOf};
ghost use Rattle.fw_deal.specs.Rows.{row_of};

use crate::rows::slot_at;
use fw_base::{Params, Place, Slot};
use fw_directory::row_count;
use fw_lamport::value_digest;
use fw_list::{Bytes, Memory, ROW_LEN};
use fw_secret::slot_values;
use std::alloc::Global;

/// The digest of value k of a slot at a point.
fn digest_at(slot: Slot, point: u32, values: &[u8], k: usize) -> [u8; 32]
    requires values { length values.now ≡ ROW_LEN }
    requires k { k < 512 }
    ensures { result ≡ hash (Value (place_at slot point k) (value_at values.now k)) }
{
    let place = Place {
        slot,
        bit: k as u32 / 2,
        side: k as u32 % 2,
        point,
    };
    value_digest(&place, &values[32 * k..32 * k + 32])
}

/// The digests of a slot's values at a point.
fn digest_row(slot: Slot, point: u32, values: &[u8], row: &mut [u8])
    requires values { length values.now ≡ ROW_LEN }
    requires row { length row.old ≡ ROW_LEN }
    ensures { row.new ≡ row_of slot point values.now }
{
    for k in 0..512 {
        row[32 * k..32 * k + 32].copy_from_slice(&digest_at(slot, point, values, k));
    }
}

/// The digests of all that is dealt, in the order of the places.
pub(crate) fn digests_of(alloc: Global, params: &Params, seed: &[u8; 32]) -> Result<Bytes, Memory>
    requires { IsTrue (accepted params.now) }
    ensures { IfOk result (λ digests. IsDirectoryOf (record { params = params.now; seed = seed.now }) (record { params = params.now; digests = digests })) }
{
    let mut digests = Bytes::new(alloc);
    let mut values = [0; ROW_LEN];
    let mut row = [0; ROW_LEN];
    for k in 0..row_count(params) {
        let (slot, point) = slot_at(params, k);
        slot_values(params, seed, slot, point, &mut values);
        digest_row(slot, point, &values, &mut row);
        digests.append(&row)?;
    }
    Ok(digests)
}
