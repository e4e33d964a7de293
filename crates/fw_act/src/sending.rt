//! Who gets what an agreement node sends.

ghost use Rattle.std.specs.Prelude.{◌≡◌, ◌++◌, ℕ, IfOk, OnOk, OnErr, IsTrue};
ghost use Rattle.fw_base.specs.Sizes.{accepted};
ghost use Rattle.fw_hand.specs.Hands.{PlainHand};
ghost use Rattle.fw_frame.specs.View as frames;
ghost use Rattle.fw_means.specs.Means.{written};
ghost use Rattle.fw_rules.specs.Agree as agree;
ghost use Rattle.fw_kept.specs.Kept.{self_of};
ghost use Rattle.fw_act.specs.Doing.{others};

use fw_base::{Params, Seat, Seats};
use fw_directory::Directory;
use fw_list::Memory;
use fw_node::{Outbox, row_seats};
use std::alloc::Global;

/// All agreement nodes but one.
fn other_agreements(alloc: Global, params: &Params, own: u32) -> Result<Seats, Memory>
    requires { IsTrue (accepted params.now) }
    ensures { IfOk result (λ all. all ≡ others params.now own) }
{
    let mut all = Seats::new(alloc);
    for k in 0..params.agreements() {
        if k != own {
            all.push(Seat::Agree(k))?;
        }
    }
    Ok(all)
}

/// Sends a frame to all agreement nodes but this one. After want of memory the outbox is as before.
pub fn send_to_others(
    alloc: Global,
    directory: &Directory,
    own: u32,
    bytes: &[u8],
    out: &mut Outbox,
) -> Result<(), Memory>
    requires { IsTrue (accepted directory.now.params) }
    ensures sent { OnOk result ((hand : PlainHand) (frame : frames.Frame) → bytes.now ≡ written frame → out.new ≡ out.old ++ agree.to_others (self_of directory.now hand own) frame) }
    ensures err { OnErr result (out.new ≡ out.old) }
{
    let to = other_agreements(alloc, directory.params(), own)?;
    out.send_to_all(alloc, to.items(), bytes)
}

/// Sends a frame to the filters of row 0. After want of memory the outbox is as before.
pub fn send_to_row0(
    alloc: Global,
    directory: &Directory,
    bytes: &[u8],
    out: &mut Outbox,
) -> Result<(), Memory>
    requires { IsTrue (accepted directory.now.params) }
    ensures sent { OnOk result ((hand : PlainHand) (own : ℕ) (frame : frames.Frame) → bytes.now ≡ written frame → out.new ≡ out.old ++ agree.to_row0 (self_of directory.now hand own) frame) }
    ensures err { OnErr result (out.new ≡ out.old) }
{
    let to = row_seats(alloc, directory.params(), 0)?;
    out.send_to_all(alloc, to.items(), bytes)
}
