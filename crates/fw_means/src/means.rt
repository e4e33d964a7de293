//! What the rules need, done: frames read and checked, digests signed by a hand, a reply's values joined from shares, and bodies
//! sealed and opened.

ghost use Rattle.std.specs.Prelude.{◌≡◌, ◌<◌, ◌≤◌, ◌^◌, None, length, map, zip, slice_index, All, EachIndex, IfOk, IfSome, IfNone, IsTrue, option_map, option_and_then};
ghost use Rattle.fw_list.specs.declared.limits.TheConstants.{BODY_LEN, ROW_LEN, SIGNATURE_LEN};
ghost use Rattle.fw_base.specs.Seats.{fits};
ghost use Rattle.fw_shamir.specs.Polynomial.{AreDistinct, column};
ghost use Rattle.fw_shamir.specs.Sharing.{PointsGive};
ghost use Rattle.fw_seal.specs.declared.types.Direction.TheVariants as way;
ghost use Rattle.fw_seal.specs.Seal.{sealed, opened};
ghost use Rattle.fw_op.specs.Ops.{op_bytes, op_fits};
ghost use Rattle.fw_op.specs.Reading.{reply_in};
ghost use Rattle.fw_frame.specs.Plain.{plain};
ghost use Rattle.fw_frame.specs.View.{viewed};
ghost use Rattle.fw_hand.specs.Hands.{values_in};
ghost use Rattle.fw_means.specs.Means.{admitted_by, signed_by, joined_values};

use fw_base::{Seat, Slot, linked};
use fw_digest::Steps;
use fw_directory::Directory;
use fw_frame::Frame;
use fw_hand::Hand;
use fw_lamport::sign;
use fw_list::{BODY_LEN, LONGEST_TEXT, Memory, SIGNATURE_LEN};
use fw_op::{Op, Reply};
use fw_seal::{Body, BodyKey, Direction, seal, unseal};
use fw_shamir::Weights;
use fw_valid::{Checked, check};
use std::alloc::Global;
use std::sync::ledger::Ledger;

/// The valid frame that bytes from a seat are; none where that seat isn't linked with this one, or where they are no valid frame.
pub fn admitted<'a, L: Ledger>(
    alloc: Global,
    directory: &Directory,
    own: Seat,
    from: Seat,
    bytes: &'a [u8],
    steps: &mut Steps<L>,
) -> Result<Option<Checked<'a>>, Memory>
    ensures { IfOk result (λ found. option_map (λ c. viewed (plain c)) found ≡ admitted_by directory.now own from bytes.now) }
{
    let params = directory.params();
    if !from.fits(params) || !linked(params, from, own) {
        return Ok(None);
    }
    match Frame::read(alloc, params, bytes)? {
        Some(frame) => Ok(check(directory, frame, steps)),
        None => Ok(None),
    }
}

/// What a hand makes of a digest for a slot: none exactly where the slot isn't the hand's.
pub fn signed(hand: &Hand, slot: Slot, digest: &[u8; 32]) -> Option<[u8; SIGNATURE_LEN]>
    requires whole { All (λ held. length held.values ≡ ROW_LEN) hand.now.held }
    ensures found { IfSome result (λ values. values ≡ signed_by hand.now slot digest.now) }
    ensures none { IfNone result (values_in hand.now.held slot ≡ None) }
{
    let secrets = hand.secrets(slot)?;
    let mut values = [0; SIGNATURE_LEN];
    sign(secrets, digest, &mut values);
    Some(values)
}

/// The values of a reply from shares of it at these points: each byte is the value at 0 of any polynomial, of a degree below the number
/// of the shares, that goes through their bytes with its index.
pub fn join(points: &[u8], shares: &[&[u8]], out: &mut [u8])
    requires some { 0 < length points.now }
    requires few { length points.now ≤ 8 }
    requires distinct { AreDistinct points.now }
    requires shares { length shares.now ≡ length points.now }
    requires lengths { All (λ share. length share.now ≡ SIGNATURE_LEN) shares.now }
    requires out { length out.old ≡ SIGNATURE_LEN }
    ensures value { out.new ≡ joined_values (zip points.now (map (λ share. share.now) shares.now)) }
    ensures any { EachIndex out.new (λ j. PointsGive (column points.now shares.now j) (slice_index out.new j)) }
{
    Weights::of(points).combine_into(shares, out)
}

/// The body of an operation that a client asks under a stamp.
pub fn seal_op(
    alloc: Global,
    key: &BodyKey,
    client: u32,
    stamp: u32,
    op: &Op,
) -> Result<Body, Memory>
    requires fits { IsTrue (op_fits 8 op.now) }
    requires stamp { stamp < 2 ^ 31 }
    ensures { IfOk result (λ body. body.bytes ≡ sealed key.now way.Request client stamp (op_bytes op.now)) }
{
    let text = op.bytes(alloc)?;
    Ok(seal(key, Direction::Request, client, stamp, text.items()))
}

/// The reply to a client that a body of a number opens to, or none where it opens to none.
pub fn open_reply(
    alloc: Global,
    key: &BodyKey,
    client: u32,
    number: u32,
    bytes: &[u8],
) -> Result<Option<Reply>, Memory>
    requires number { number < 2 ^ 31 }
    requires body { length bytes.now ≡ BODY_LEN }
    ensures { IfOk result (λ reply. reply ≡ option_and_then reply_in (opened key.now way.Reply client number bytes.now)) }
{
    let mut body = Body {
        bytes: [0; BODY_LEN],
    };
    body.bytes.copy_from_slice(bytes);
    let mut text = [0; LONGEST_TEXT];
    match unseal(key, Direction::Reply, client, number, &body, &mut text) {
        Some(len) => Reply::read_bytes(alloc, &text[..len as usize]),
        None => Ok(None),
    }
}
