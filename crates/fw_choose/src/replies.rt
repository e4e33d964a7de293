//! The replies that are held, looked up.

ghost use Rattle.std.specs.Prelude.{◌≡◌, ◌&&◌, ℕ, List, map, nat_eq, reverse};
ghost use Rattle.std.specs.List.{find};
ghost use Rattle.std.specs.Option.{option_copied, option_map};
ghost use Rattle.fw_hand.specs.Hands.{PlainHand};
ghost use Rattle.fw_rules.specs.Agree as agree;
ghost use Rattle.fw_rules.specs.Choices.{first_some};
ghost use Rattle.fw_kept.specs.Kept as kept;
ghost use Rattle.fw_owned.specs.Pieces as pieces;

use fw_directory::Directory;
use fw_kept::Keeps;
use fw_owned::OwnedReply;
use fw_settled::Settled;

/// Whether a reply of a number answers a client's stamp.
fn is_reply_to(reply: &OwnedReply, client: u32, stamp: u32, number: u32) -> bool
    ensures { result ≡ (agree.is_for client stamp (pieces.reply_of reply.now).answers && nat_eq reply.now.number number) }
{
    reply.stamp != 0 && reply.client == client && reply.stamp == stamp && reply.number == number
}

/// The last of these that is of a number and answers a client's stamp.
fn last_at(held: &[OwnedReply], client: u32, stamp: u32, number: u32) -> Option<&OwnedReply>
    ensures { option_copied result ≡ find (λ r. agree.is_for client stamp (pieces.reply_of r).answers && nat_eq r.number number) (reverse held.now) }
{
    held.iter()
        .rev()
        .find(|reply| is_reply_to(reply, client, stamp, number))
}

/// The newest reply of a number that answers a client's stamp.
fn reply_at(settled: &Settled, client: u32, stamp: u32, number: u32) -> Option<&OwnedReply>
    ensures { option_map pieces.reply_of (option_copied result) ≡ first_some (agree.reply_if client stamp number) (map pieces.reply_of settled.now.held) }
{
    last_at(settled.held(), client, stamp, number)
}

/// The reply of the least number that answers a client's stamp, or none exactly where none does.
pub fn reply_to<'a>(
    directory: &Directory,
    keeps: &'a Keeps,
    client: u32,
    stamp: u32,
) -> Option<&'a OwnedReply>
    ensures { (hand : PlainHand) (own : ℕ) → option_map pieces.reply_of (option_copied result) ≡ agree.reply_to (kept.self_of directory.now hand own) (kept.node_of keeps.now) client stamp }
{
    for k in 0..directory.params().numbers {
        let found = reply_at(&keeps.settled, client, stamp, k + 1);
        if found.is_some() {
            return found;
        }
    }
    None
}
