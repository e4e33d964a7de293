//! Signing with the values of a deal.

ghost use Rattle.std.specs.Prelude.{◌≡◌, ◌≤◌, IsTrue};
ghost use Rattle.fw_base.specs.Places.{slot_fits, last_point};
ghost use Rattle.fw_lies.specs.Signing.{values_for};

use fw_base::{Place, Slot};
use fw_deal::Deal;
use fw_list::SIGNATURE_LEN;
use fw_text::bit_of;

/// The values of a slot at a point on the sides of a digest.
pub(crate) fn values_for(
    deal: &Deal,
    slot: Slot,
    point: u32,
    digest: &[u8; 32],
) -> [u8; SIGNATURE_LEN]
    requires slot { IsTrue (slot_fits deal.now.origin.params slot) }
    requires point { point ≤ last_point deal.now.origin.params slot }
    ensures { result ≡ values_for deal.now.origin slot point digest.now }
{
    let mut values = [0; SIGNATURE_LEN];
    for bit in 0..256 {
        let place = Place {
            slot,
            bit,
            side: u32::from(bit_of(digest, bit as usize)),
            point,
        };
        let at = 32 * bit as usize;
        values[at..at + 32].copy_from_slice(&deal.dealt(&place));
    }
    values
}
