//! Hand files read: the directory, and behind it what one seat is dealt.

ghost use Rattle.std.specs.Prelude.{◌≡◌, ◌≤◌, ◌*◌, Some, IfOk, OnErr, IfSome, IsTrue, length};
ghost use Rattle.fw_list.specs.declared.limits.TheConstants.{ROW_LEN};
ghost use Rattle.fw_base.specs.Sizes.{accepted};
ghost use Rattle.fw_base.specs.Seats.{fits};
ghost use Rattle.fw_directory.specs.Directories.{rows};
ghost use Rattle.fw_hand.specs.Files.{part_bytes};
ghost use Rattle.fw_wire.specs.Reading.{Finds};
ghost use Rattle.fw_hand.specs.Reading.{IsDirectoryFor, IsHandOf, IsPartOf, HasDirectory, file_bytes, IsFile};

use crate::Hand;
use crate::held::held_in;
use crate::keys::{keys_in, starts_in};
use crate::sizes::head_in;
use fw_base::{Params, Seat};
use fw_directory::{Directory, row_count};
use fw_list::{Bytes, Memory, ROW_LEN};
use fw_wire::Reader;
use std::alloc::Global;

/// How many bytes the digests of a deployment have.
fn digests_len(params: &Params) -> usize
    requires { IsTrue (accepted params.now) }
    ensures { result ≡ ROW_LEN * rows params.now }
{
    ROW_LEN * row_count(params) as usize
}

/// The directory of these sizes.
fn directory_in(
    alloc: Global,
    params: Params,
    reader: &mut Reader<'_>,
) -> Result<Option<Directory>, Memory>
    requires { IsTrue (accepted params) }
    ensures finds { IfOk result (λ found. Finds (λ d. d.digests) (IsDirectoryFor params) reader.old found reader.new) }
    ensures memory { OnErr result (ROW_LEN * rows params ≤ length reader.old) }
{
    let Some(part) = reader.fixed(digests_len(&params)) else {
        return Ok(None);
    };
    let digests = Bytes::copy_of(alloc, part)?;
    Ok(Some(Directory::new(params, digests)))
}

/// The hand of a seat.
fn hand_in(
    alloc: Global,
    directory: &Directory,
    seat: Seat,
    reader: &mut Reader<'_>,
) -> Result<Option<Hand>, Memory>
    requires { IsTrue (fits directory.now.params seat) }
    ensures { IfOk result (λ found. Finds (λ h. part_bytes (Some h)) (IsHandOf directory.now seat) reader.old found reader.new) }
{
    let Some(held) = held_in(alloc, directory, seat, reader)? else {
        return Ok(None);
    };
    let params = directory.params();
    let Some(keys) = keys_in(alloc, params, seat, reader)? else {
        return Ok(None);
    };
    let Some(starts) = starts_in(alloc, params, seat, reader)? else {
        return Ok(None);
    };
    Ok(Some(Hand::new(seat, held, keys, starts)))
}

/// The hand of a seat, or none in a public file.
fn owned_in(
    alloc: Global,
    directory: &Directory,
    owner: Option<Seat>,
    reader: &mut Reader<'_>,
) -> Result<Option<Option<Hand>>, Memory>
    requires { IfSome owner (λ seat. IsTrue (fits directory.now.params seat)) }
    ensures { IfOk result (λ found. Finds part_bytes (IsPartOf directory.now owner) reader.old found reader.new) }
{
    let Some(seat) = owner else {
        return Ok(Some(None));
    };
    let Some(hand) = hand_in(alloc, directory, seat, reader)? else {
        return Ok(None);
    };
    Ok(Some(Some(hand)))
}

/// The directory, and the hand behind it.
pub(crate) fn file_in(
    alloc: Global,
    reader: &mut Reader<'_>,
) -> Result<Option<(Directory, Option<Hand>)>, Memory>
    ensures finds { IfOk result (λ found. Finds file_bytes IsFile reader.old found reader.new) }
    ensures memory { OnErr result (HasDirectory reader.old) }
{
    let Some((params, owner)) = head_in(reader) else {
        return Ok(None);
    };
    let Some(directory) = directory_in(alloc, params, reader)? else {
        return Ok(None);
    };
    let Some(hand) = owned_in(alloc, &directory, owner, reader)? else {
        return Ok(None);
    };
    Ok(Some((directory, hand)))
}
