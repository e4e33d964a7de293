//! Hand files, written and read.

ghost use Rattle.std.specs.Prelude.{◌≡◌, List, ℕ, Option, Some, IfOk, OnErr, IfSome, option_map};
ghost use Rattle.fw_directory.specs.Directories.{PlainDirectory};
ghost use Rattle.fw_hand.specs.Hands.{PlainHand, IsHandIn};
ghost use Rattle.fw_hand.specs.Files.{hand_file, IsHandFile};
ghost use Rattle.fw_hand.specs.Reading.{HasDirectory};

use crate::Hand;
use crate::part::file_in;
use crate::writing::{add_head, add_part};
use fw_directory::Directory;
use fw_list::{Bytes, Memory};
use fw_wire::{Reader, Writer};
use std::alloc::Global;

/// What stands in place of a seat's index in a public file.
pub const PUBLIC: u32 = 4_294_967_295;

/// The hand file of a directory and a hand of its deployment, or the public file.
pub fn write_hand(
    alloc: Global,
    directory: &Directory,
    hand: Option<&Hand>,
) -> Result<Bytes, Memory>
    requires { IfSome hand (λ h. IsHandIn directory.now h.now) }
    ensures file { IfOk result (λ bytes. bytes ≡ hand_file directory.now (option_map (λ h. h.now) hand.entry)) }
    ensures is { IfOk result (λ bytes. IsHandFile bytes directory.now (option_map (λ h. h.now) hand.entry)) }
{
    let mut out = Writer::new(alloc);
    add_head(&mut out, directory.params(), hand)?;
    out.fixed(directory.digests())?;
    if let Some(hand) = hand {
        add_part(&mut out, directory.params(), hand)?;
    }
    Ok(out.finish())
}

/// The directory and the hand of which the bytes are the hand file; the hand is none in a public file. The inner none comes
/// exactly where the bytes are no hand file. Memory is wanted only where they begin with a head, and with as many bytes behind it
/// as a directory of its sizes has.
pub fn read_hand(alloc: Global, bytes: &[u8]) -> Result<Option<(Directory, Option<Hand>)>, Memory>
    ensures found { IfOk result (λ found. IfSome found (λ pair. IsHandFile bytes.now pair.0 pair.1)) }
    ensures each { IfOk result (λ found. (d : PlainDirectory) (hand : Option PlainHand) → IsHandFile bytes.now d hand → found ≡ Some (d, hand)) }
    ensures memory { OnErr result (HasDirectory bytes.now) }
{
    let mut reader = Reader::new(bytes);
    let Some(found) = file_in(alloc, &mut reader)? else {
        return Ok(None);
    };
    if !reader.is_empty() {
        return Ok(None);
    }
    Ok(Some(found))
}
