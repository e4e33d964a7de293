//! Signs a digest.

ghost use Rattle.std.specs.Prelude.{◌≡◌, length};
ghost use Rattle.fw_list.specs.declared.limits.TheConstants.{ROW_LEN, SIGNATURE_LEN};
ghost use Rattle.fw_lamport.specs.Signature.{IsSigned};

use crate::verifying::value_at;
use fw_text::bit_of;

/// Signs a digest with a slot's 512 secrets: for each bit it copies the secret on the bit's side.
pub fn sign(secrets: &[u8], digest: &[u8; 32], out: &mut [u8])
    requires secrets { length secrets.now ≡ ROW_LEN }
    requires out { length out.old ≡ SIGNATURE_LEN }
    ensures signed { IsSigned secrets.now digest.now out.new }
    ensures len { length out.new ≡ SIGNATURE_LEN }
{
    for b in 0..256 {
        let side = 2 * b + usize::from(bit_of(digest, b));
        out[32 * b..32 * b + 32].copy_from_slice(value_at(secrets, side));
    }
}
