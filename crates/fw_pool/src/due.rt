//! Which frames of a pool are due.

ghost use Rattle.std.specs.Prelude.{◌≡◌, ◌≤◌, ◌<◌, ℕ, true, false, length, IsTrue};
ghost use Rattle.fw_base.specs.Sizes.{accepted};
ghost use Rattle.fw_base.specs.declared.seat.Seat.{Seat};
ghost use Rattle.fw_trace.specs.Trace.{was_delivered, rests_from};
ghost use Rattle.fw_node.specs.Histories.{History, Out};
ghost use Rattle.fw_step.specs.Fitting.{is_correct};
ghost use Rattle.fw_fair.specs.Hostile.{rules_among};
ghost use Rattle.fw_pool.specs.Notes.{Log};
ghost use Rattle.fw_pool.specs.Due.{is_due, is_settled, is_marked, due_at};

use fw_base::{Params, Seat};
use fw_list::Bytes;
use fw_step::is_correct;
use fw_trace::Sent;

/// Whether a frame, which was delivered or not, is due.
fn is_due(params: &Params, faulty: &[Seat], delivered: bool, sent: &Sent<Bytes>) -> bool
    requires { IsTrue (accepted params.now) }
    ensures { result ≡ is_due (is_correct params.now faulty.now) delivered sent.now }
{
    if is_correct(params, faulty, sent.to) {
        !delivered
    } else {
        false
    }
}

/// The place of the first frame from a place on that is due, or behind all.
pub(crate) fn first_due(
    params: &Params,
    faulty: &[Seat],
    marks: &[bool],
    frames: &[Sent<Bytes>],
    from: usize,
) -> usize
    requires sizes { IsTrue (accepted params.now) }
    requires marks { length marks.now ≡ length frames.now }
    requires from { from ≤ length frames.now }
    requires passed { (k : ℕ) → k < from → due_at (is_correct params.now faulty.now) marks.now frames.now k ≡ false }
    ensures within { result ≤ length frames.now }
    ensures passed { (k : ℕ) → k < result → due_at (is_correct params.now faulty.now) marks.now frames.now k ≡ false }
    ensures due { result < length frames.now → due_at (is_correct params.now faulty.now) marks.now frames.now result ≡ true }
{
    for k in from..frames.len() {
        if is_due(params, faulty, marks[k], &frames[k]) {
            return k;
        }
    }
    frames.len()
}

/// Whether a frame isn't between correct seats, or was delivered.
fn is_settled(params: &Params, faulty: &[Seat], delivered: bool, sent: &Sent<Bytes>) -> bool
    requires { IsTrue (accepted params.now) }
    ensures { result ≡ is_settled (is_correct params.now faulty.now) delivered sent.now }
{
    if !is_correct(params, faulty, sent.from) {
        return true;
    }
    if !is_correct(params, faulty, sent.to) {
        return true;
    }
    delivered
}

/// Whether each frame between correct seats was delivered.
pub(crate) fn rests(
    params: &Params,
    faulty: &[Seat],
    marks: &[bool],
    frames: &[Sent<Bytes>],
) -> bool
    requires sizes { IsTrue (accepted params.now) }
    requires marks { length marks.now ≡ length frames.now }
    ensures { (rule : Seat → History → Out) (log : Log) → ((k : ℕ) → is_marked marks.now k ≡ was_delivered log k) → result ≡ rests_from (rules_among params.now faulty.now rule) log 0 frames.now }
{
    for k in 0..frames.len() {
        if !is_settled(params, faulty, marks[k], &frames[k]) {
            return false;
        }
    }
    true
}
