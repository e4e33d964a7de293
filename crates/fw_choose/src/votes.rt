//! The votes that are known, counted.

ghost use Rattle.std.specs.Prelude.{◌≡◌, ℕ, map, IfOk};
ghost use Rattle.std.specs.Option.{option_map};
ghost use Rattle.fw_hand.specs.Hands.{PlainHand};
ghost use Rattle.fw_rules.specs.Agree as agree;
ghost use Rattle.fw_kept.specs.Kept.{self_of, node_of, IsFor};
ghost use Rattle.fw_owned.specs.Pieces.{signer_of};

use fw_directory::Directory;
use fw_kept::Keeps;
use fw_list::Memory;
use fw_owned::{OwnedSigners, owned_signers};
use std::alloc::Global;

/// The lowest signers of a vote that are a quorum, each with its first signature on it; none exactly where there are fewer.
pub(crate) fn vote_quorum(
    alloc: Global,
    directory: &Directory,
    keeps: &Keeps,
    phase: u32,
    view: u32,
    number: u32,
    digest: &[u8; 32],
) -> Result<Option<OwnedSigners>, Memory>
    requires { IsFor directory.now.params keeps.now }
    ensures { IfOk result (λ found. (hand : PlainHand) (own : ℕ) → option_map (map signer_of) found ≡ agree.vote_quorum (self_of directory.now hand own) (node_of keeps.now) phase view number digest.now) }
{
    // (the sizes are those that the votes are counted by)
    let _directory = directory;
    match keeps.votes.quorum(phase, view, number, digest)? {
        Some(signers) => Ok(Some(owned_signers(alloc, signers.items())?)),
        None => Ok(None),
    }
}
