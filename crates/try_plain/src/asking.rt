//! What the plain calls say.

ghost use Rattle.std.specs.Prelude.{◌≡◌, ◌<◌, length, All, IfOk, OnOk, IsTrue};
ghost use Rattle.fw_base.specs.Sizes.{accepted};
ghost use Rattle.fw_base.specs.declared.seat.Seat.TheVariants as seats;
ghost use Rattle.fw_base.specs.Seats.{fits};
ghost use Rattle.fw_record.specs.Records.{starts_fit};
ghost use Rattle.fw_plain.specs.Kept.{CanBeTaken};

use fw_base::Seat;
use fw_deal::Deal;
use fw_digest::Steps;
use fw_list::{Bytes, Memory};
use fw_node::Outbox;
use fw_plain::{History, Kept, agree_out, client_out, exec_out, filter_out};
use std::alloc::Global;
use std::sync::ledger::Ledger;

/// The same input.
fn copy_of(alloc: Global, kept: &Kept) -> Result<Kept, Memory>
    ensures { IfOk result (λ copy. copy ≡ kept.now) }
{
    match kept {
        Kept::Frame { from, bytes } => Ok(Kept::Frame {
            from: *from,
            bytes: Bytes::copy_of(alloc, bytes.items())?,
        }),
        Kept::Tick => Ok(Kept::Tick),
        Kept::Submit(op) => Ok(Kept::Submit(op.copy(alloc)?)),
    }
}

/// What the agreement node of a number sends on the last input of a history.
fn out_of_agree<L: Ledger>(
    alloc: Global,
    deal: &Deal,
    agree: u32,
    history: &[Kept],
    steps: &mut Steps<L>,
) -> Result<Outbox, Memory>
    requires sizes { IsTrue (accepted deal.now.origin.params) }
    requires starts { IsTrue (starts_fit deal.now.origin.params.clients deal.now.starts) }
    requires fits { IsTrue (fits deal.now.origin.params (seats.Agree agree)) }
    requires some { 0 < length history.now }
    requires given { All CanBeTaken history.now }
{
    let directory = deal.directory();
    let hand = deal.hand(alloc, Seat::Agree(agree))?;
    agree_out(alloc, directory, hand, history, steps)
}

/// The same of an executor.
fn out_of_exec<L: Ledger>(
    alloc: Global,
    deal: &Deal,
    exec: u32,
    history: &[Kept],
    steps: &mut Steps<L>,
) -> Result<Outbox, Memory>
    requires sizes { IsTrue (accepted deal.now.origin.params) }
    requires starts { IsTrue (starts_fit deal.now.origin.params.clients deal.now.starts) }
    requires fits { IsTrue (fits deal.now.origin.params (seats.Exec exec)) }
    requires some { 0 < length history.now }
    requires given { All CanBeTaken history.now }
{
    let directory = deal.directory();
    let hand = deal.hand(alloc, Seat::Exec(exec))?;
    exec_out(alloc, directory, hand, history, steps)
}

/// The same of a filter.
fn out_of_filter<L: Ledger>(
    alloc: Global,
    deal: &Deal,
    row: u32,
    column: u32,
    history: &[Kept],
    steps: &mut Steps<L>,
) -> Result<Outbox, Memory>
    requires sizes { IsTrue (accepted deal.now.origin.params) }
    requires starts { IsTrue (starts_fit deal.now.origin.params.clients deal.now.starts) }
    requires fits { IsTrue (fits deal.now.origin.params (seats.Filter row column)) }
    requires some { 0 < length history.now }
    requires given { All CanBeTaken history.now }
{
    let directory = deal.directory();
    let hand = deal.hand(alloc, Seat::Filter(row, column))?;
    filter_out(alloc, directory, hand, history, steps)
}

/// The same of a client.
fn out_of_client<L: Ledger>(
    alloc: Global,
    deal: &Deal,
    client: u32,
    history: &[Kept],
    steps: &mut Steps<L>,
) -> Result<Outbox, Memory>
    requires sizes { IsTrue (accepted deal.now.origin.params) }
    requires starts { IsTrue (starts_fit deal.now.origin.params.clients deal.now.starts) }
    requires fits { IsTrue (fits deal.now.origin.params (seats.Client client)) }
    requires some { 0 < length history.now }
    requires given { All CanBeTaken history.now }
{
    let directory = deal.directory();
    let hand = deal.hand(alloc, Seat::Client(client))?;
    client_out(alloc, directory, hand, history, steps)
}

/// What the role of a seat of a deal sends on the last input of a history.
fn out_of<L: Ledger>(
    alloc: Global,
    deal: &Deal,
    seat: Seat,
    history: &[Kept],
    steps: &mut Steps<L>,
) -> Result<Outbox, Memory>
    requires sizes { IsTrue (accepted deal.now.origin.params) }
    requires starts { IsTrue (starts_fit deal.now.origin.params.clients deal.now.starts) }
    requires fits { IsTrue (fits deal.now.origin.params seat) }
    requires some { 0 < length history.now }
    requires given { All CanBeTaken history.now }
{
    match seat {
        Seat::Agree(agree) => out_of_agree(alloc, deal, agree, history, steps),
        Seat::Exec(exec) => out_of_exec(alloc, deal, exec, history, steps),
        Seat::Filter(row, column) => out_of_filter(alloc, deal, row, column, history, steps),
        Seat::Client(client) => out_of_client(alloc, deal, client, history, steps),
    }
}

/// Adds an input to a history.
fn add_input(history: &mut History, input: Kept) -> Result<(), Memory>
    requires before { All CanBeTaken history.old }
    requires input { CanBeTaken input }
    ensures given { OnOk result (All CanBeTaken history.new) }
    ensures some { OnOk result (0 < length history.new) }
{
    history.push(input)?;
    Ok(())
}

/// Adds an input to the history of a seat of a deal: what the seat's role sends on it, asked of the whole history.
pub fn sent_on<L: Ledger>(
    alloc: Global,
    deal: &Deal,
    seat: Seat,
    history: &mut History,
    input: &Kept,
    steps: &mut Steps<L>,
) -> Result<Outbox, Memory>
    requires sizes { IsTrue (accepted deal.now.origin.params) }
    requires starts { IsTrue (starts_fit deal.now.origin.params.clients deal.now.starts) }
    requires fits { IsTrue (fits deal.now.origin.params seat) }
    requires before { All CanBeTaken history.old }
    requires input { CanBeTaken input.now }
    ensures { OnOk result (All CanBeTaken history.new) }
{
    let copy = copy_of(alloc, input)?;
    add_input(history, copy)?;
    out_of(alloc, deal, seat, history.items(), steps)
}
