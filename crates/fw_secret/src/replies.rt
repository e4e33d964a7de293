//! The values of replies: those of 32 polynomials at a point, for each bit and side.

ghost use Rattle.std.specs.Prelude.{◌≡◌, ◌≤◌, ◌<◌, ◌/◌, ◌%◌, length, IsTrue};
ghost use Rattle.fw_base.specs.Sizes.{accepted};
ghost use Rattle.fw_list.specs.declared.limits.TheConstants.{ROW_LEN};
ghost use Rattle.fw_base.specs.declared.slot.Slot.TheVariants.{Reply};
ghost use Rattle.fw_shamir.specs.Polynomial.{eval};
ghost use Rattle.fw_secret.specs.Dealt.{reply_value, slot_values};
ghost use Rattle.fw_secret.specs.Pieces.{bytes_of, value_of};

use crate::streams::fill;
use fw_base::Params;
use fw_shamir::eval;

/// Byte j of each of the four values of a piece.
fn bytes_of(piece: &[u8; 128], j: usize) -> [u8; 4]
    requires { j < 32 }
    ensures { result ≡ bytes_of piece.now 4 j }
{
    [piece[j], piece[32 + j], piece[64 + j], piece[96 + j]]
}

/// Byte j of the value at a point: its polynomial's coefficients are byte j of the first values of a piece.
fn byte_at(piece: &[u8; 128], count: usize, j: usize, point: u8) -> u8
    requires count { count ≤ 4 }
    requires byte { j < 32 }
    ensures { result ≡ eval (bytes_of piece.now count j) point }
{
    eval(&bytes_of(piece, j)[..count], point)
}

/// The value at a point of the 32 polynomials whose coefficients are the first values of a piece.
fn value_of(piece: &[u8; 128], count: usize, point: u8) -> [u8; 32]
    requires { count ≤ 4 }
    ensures { result ≡ value_of piece.now count point }
{
    let mut out = [0; 32];
    for j in 0..32 {
        out[j] = byte_at(piece, count, j, point);
    }
    out
}

/// The value of a reply for bit k / 2 and side k % 2, at a point.
pub(crate) fn reply_value(
    params: &Params,
    seed: &[u8; 32],
    number: u32,
    k: u32,
    point: u32,
) -> [u8; 32]
    requires sizes { IsTrue (accepted params.now) }
    requires number { (1 ≤ number) × (number ≤ 64) }
    requires k { k < 512 }
    requires point { point ≤ 7 }
    ensures { result ≡ reply_value (record { params = params.now; seed = seed.now }) number (k / 2) (k % 2) point }
{
    let mut piece = [0; 128];
    fill(seed, 2, u64::from((number - 1) * 512 + k) * 4, &mut piece);
    value_of(&piece, params.g as usize + 1, point as u8)
}

/// The 512 values of a reply at a point, by bit and side.
pub(crate) fn reply_values(
    params: &Params,
    seed: &[u8; 32],
    number: u32,
    point: u32,
    out: &mut [u8],
)
    requires sizes { IsTrue (accepted params.now) }
    requires number { (1 ≤ number) × (number ≤ 64) }
    requires point { point ≤ 7 }
    requires room { length out.old ≡ ROW_LEN }
    ensures { out.new ≡ slot_values (record { params = params.now; seed = seed.now }) (Reply number) point }
{
    for k in 0..512 {
        out[32 * k..32 * k + 32].copy_from_slice(&reply_value(
            params, seed, number, k as u32, point,
        ));
    }
}
