//! What an executor does with an input.

ghost use Rattle.std.specs.Prelude.{◌≡◌, ◌++◌, length, take, OnOk, OnErr};
ghost use Rattle.fw_base.specs.declared.seat.Seat.TheVariants as seats;
ghost use Rattle.fw_trace.specs.Executor as executors;
ghost use Rattle.fw_trace.specs.declared.Input.TheVariants.{Heard};
ghost use Rattle.fw_frame.specs.Plain.{plain};
ghost use Rattle.fw_frame.specs.View.{viewed};
ghost use Rattle.fw_node.specs.Histories.{taken};
ghost use Rattle.fw_rules.specs.Roles.{agreed_frame, want_frame};
ghost use Rattle.fw_exec.specs.Kept.{IsKeepable, IsRunning, next};
ghost use Rattle.fw_exec.specs.Executors.{IsOwn, speech_by};

use crate::own::Own;
use crate::running::Running;
use fw_base::Seat;
use fw_digest::Steps;
use fw_directory::Directory;
use fw_frame::Frame;
use fw_list::Memory;
use fw_means::admitted;
use fw_node::{Input, Outbox};
use fw_ref::Service;
use std::sync::ledger::Ledger;

/// Takes a valid frame from a seat that is linked, whose bytes these are.
fn take_frame<S: Service>(
    own: &Own,
    running: &mut Running<S>,
    directory: &Directory,
    from: Seat,
    frame: &Frame<'_>,
    bytes: &[u8],
    out: &mut Outbox,
) -> Result<(), Memory>
    requires own { IsOwn own.now }
    requires sizes { directory.now.params ≡ own.now.params }
    requires running { IsRunning own.now.params running.old }
    requires frame { IsKeepable own.now.params (viewed (plain frame.now)) }
    ensures keeps { OnOk result (running.new ≡ (executors.hear_agreed (speech_by own.now directory.now) running.old from bytes.now (agreed_frame from (viewed (plain frame.now)))).0) }
    ensures sent { OnOk result (out.new ≡ out.old ++ ((executors.hear_agreed (speech_by own.now directory.now) running.old from bytes.now (agreed_frame from (viewed (plain frame.now)))).1 ++ executors.hear_want running.old from (want_frame from (viewed (plain frame.now))))) }
    ensures running { OnOk result (IsRunning own.now.params running.new) }
    ensures err { OnErr result (take (length out.old) out.new ≡ out.old) }
{
    match (from, frame) {
        (Seat::Filter(..), Frame::Agreed { number, entry, .. }) => {
            running.hear(own, directory, from, *number, entry, bytes, out)
        }
        (Seat::Exec(_), Frame::Agreed { number, entry, .. }) => {
            running.hear(own, directory, from, *number, entry, bytes, out)
        }
        (Seat::Exec(_), Frame::Want { number }) => {
            running.answer_want(own.alloc, from, *number, out)
        }
        _ => Ok(()),
    }
}

/// Takes bytes from a seat.
fn take_bytes<S: Service, L: Ledger>(
    own: &Own,
    running: &mut Running<S>,
    directory: &Directory,
    from: Seat,
    bytes: &[u8],
    out: &mut Outbox,
    steps: &mut Steps<L>,
) -> Result<(), Memory>
    requires own { IsOwn own.now }
    requires sizes { directory.now.params ≡ own.now.params }
    requires running { IsRunning own.now.params running.old }
    ensures keeps { OnOk result (running.new ≡ (next (speech_by own.now directory.now) running.old (Heard from bytes.now)).0) }
    ensures sent { OnOk result (out.new ≡ out.old ++ (next (speech_by own.now directory.now) running.old (Heard from bytes.now)).1) }
    ensures running { OnOk result (IsRunning own.now.params running.new) }
    ensures err { OnErr result (take (length out.old) out.new ≡ out.old) }
{
    let Some(checked) = admitted(
        own.alloc,
        directory,
        Seat::Exec(own.exec),
        from,
        bytes,
        steps,
    )?
    else {
        return Ok(());
    };
    take_frame(own, running, directory, from, checked.frame(), bytes, out)
}

/// Takes an input as the executor's role does.
fn take_input<S: Service, L: Ledger>(
    own: &Own,
    running: &mut Running<S>,
    directory: &Directory,
    input: Input<'_>,
    out: &mut Outbox,
    steps: &mut Steps<L>,
) -> Result<(), Memory>
    requires own { IsOwn own.now }
    requires sizes { directory.now.params ≡ own.now.params }
    requires running { IsRunning own.now.params running.old }
    ensures keeps { OnOk result (running.new ≡ (next (speech_by own.now directory.now) running.old (taken input.entry)).0) }
    ensures sent { OnOk result (out.new ≡ out.old ++ (next (speech_by own.now directory.now) running.old (taken input.entry)).1) }
    ensures running { OnOk result (IsRunning own.now.params running.new) }
    ensures err { OnErr result (take (length out.old) out.new ≡ out.old) }
{
    match input {
        Input::Frame { from, bytes } => {
            take_bytes(own, running, directory, from, bytes, out, steps)
        }
        Input::Tick => running.tick(own, directory, out),
        Input::Submit(_) => Ok(()),
    }
}

/// The same, and after want of memory the outbox is as before.
pub(crate) fn take<S: Service, L: Ledger>(
    own: &Own,
    running: &mut Running<S>,
    directory: &Directory,
    input: Input<'_>,
    out: &mut Outbox,
    steps: &mut Steps<L>,
) -> Result<(), Memory>
    requires own { IsOwn own.now }
    requires sizes { directory.now.params ≡ own.now.params }
    requires running { IsRunning own.now.params running.old }
    ensures keeps { OnOk result (running.new ≡ (next (speech_by own.now directory.now) running.old (taken input.entry)).0) }
    ensures sent { OnOk result (out.new ≡ out.old ++ (next (speech_by own.now directory.now) running.old (taken input.entry)).1) }
    ensures running { OnOk result (IsRunning own.now.params running.new) }
    ensures err { OnErr result (out.new ≡ out.old) }
{
    let len = out.sent().len();
    let taken = take_input(own, running, directory, input, out, steps);
    if taken.is_err() {
        out.cut(len);
    }
    taken
}
