//! What a filter hears.

ghost use Rattle.std.specs.Prelude.{◌≡◌, OnOk, OnErr};
ghost use Rattle.fw_base.specs.Seats.{above};
ghost use Rattle.fw_base.specs.declared.seat.Seat.TheVariants as seats;
ghost use Rattle.fw_trace.specs.declared.Input.TheVariants.{Heard};
ghost use Rattle.fw_frame.specs.Plain.{plain};
ghost use Rattle.fw_frame.specs.View.{viewed};
ghost use Rattle.fw_hand.specs.Hands.{PlainHand};
ghost use Rattle.fw_means.specs.Means.{when};
ghost use Rattle.fw_rules.specs.Roles.{agreed_number, replied_number, share_from};
ghost use Rattle.fw_share.specs.Shares.{IsSeen};
ghost use Rattle.fw_filter.specs.Sifting.{Speech, SpeaksIn, IsReady, Does, does_with};
ghost use Rattle.fw_filter.specs.Standing.{next_of, speech_of};

use crate::sieve::Sieve;
use fw_base::Seat;
use fw_digest::Steps;
use fw_directory::Directory;
use fw_frame::Frame;
use fw_list::Memory;
use fw_means::admitted;
use fw_node::Outbox;
use fw_valid::Checked;
use std::alloc::Global;
use std::sync::ledger::Ledger;

/// Hears a frame from a seat: an agreed frame from below, a reply from the row above, or a share from its executor.
fn hear_frame(
    column: u32,
    sieve: &mut Sieve,
    from: Seat,
    frame: &Checked<'_>,
    bytes: &[u8],
    out: &mut Outbox,
) -> Result<(), Memory>
    requires { IsSeen sieve.old.params (viewed (plain frame.now)) }
    ensures params { sieve.new.params ≡ sieve.old.params }
    ensures row { sieve.new.row ≡ sieve.old.row }
    ensures step { OnOk result ((sp : Speech) → SpeaksIn sieve.old.params sieve.old.row sp → IsReady sp sieve.old.keeps → let own = seats.Filter sieve.old.row column in let v = viewed (plain frame.now) in Does sieve.new.keeps out.old out.new (does_with sp sieve.old.keeps from bytes.now (agreed_number own from v) (when (above sieve.old.params own from) (replied_number from v)) (share_from from v))) }
    ensures err { OnErr result (out.new ≡ out.old) }
{
    let row = sieve.row();
    match (from, frame.frame()) {
        (_, Frame::Agreed { number, .. }) if Seat::Filter(row, column).is_above(from) => {
            sieve.hear_agreed(from, *number, bytes, out)
        }
        (Seat::Filter(other, _), Frame::Reply { number, .. })
            if u64::from(other) == u64::from(row) + 1 => { sieve.hold(*number, bytes, out) }
        (Seat::Exec(one), Frame::Share { number, exec, .. }) if *exec == one => {
            sieve.hear_share(*number, frame, out)
        }
        _ => Ok(()),
    }
}

/// Takes a frame from a seat as the filter's role does. After want of memory the outbox is as before.
pub(crate) fn hear<L: Ledger>(
    alloc: Global,
    column: u32,
    sieve: &mut Sieve,
    directory: &Directory,
    from: Seat,
    bytes: &[u8],
    out: &mut Outbox,
    steps: &mut Steps<L>,
) -> Result<(), Memory>
    requires { directory.now.params ≡ sieve.old.params }
    ensures params { sieve.new.params ≡ sieve.old.params }
    ensures row { sieve.new.row ≡ sieve.old.row }
    ensures step { OnOk result ((hand : PlainHand) → let sp = speech_of sieve.old.row column hand directory.now in IsReady sp sieve.old.keeps → Does sieve.new.keeps out.old out.new (next_of sp sieve.old.keeps (Heard from bytes.now))) }
    ensures err { OnErr result (out.new ≡ out.old) }
{
    let own = Seat::Filter(sieve.row(), column);
    match admitted(alloc, directory, own, from, bytes, steps)? {
        Some(frame) => hear_frame(column, sieve, from, &frame, bytes, out),
        None => Ok(()),
    }
}
