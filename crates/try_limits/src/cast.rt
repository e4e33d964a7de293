//! Toy nodes for each seat of the smallest deployment.

ghost use Rattle.std.specs.Prelude.{◌≡◌, ◌≤◌, [], false, length, IfOk, IsTrue};
ghost use Rattle.fw_list.specs.declared.limits.TheConstants.{LONGEST_FRAME};
ghost use Rattle.fw_base.specs.Seats.{fits};
ghost use Rattle.fw_directory.specs.Directories.{PlainDirectory};
ghost use Rattle.fw_node.proofs.Sendable.{AllFit};
ghost use Rattle.fw_grid.specs.Nodes.{AllSeated, AllStanding};
ghost use Rattle.fw_grid.specs.GridNodes.{nodes_of};
ghost use Rattle.try_limits.specs.Casts.{IsOnly};

use crate::toy::Toy;
use fw_base::{Params, Seat, Seats};
use fw_grid::{Grid, Nodes};
use fw_list::{Bytes, Memory};
use fw_node::Node;
use std::alloc::Global;

/// The sizes of the deployment: a seat of each kind.
pub const PARAMS: Params = Params {
    f: 0,
    g: 0,
    h: 0,
    numbers: 1,
    views: 1,
    clients: 1,
    stamps: 1,
    pipe: 1,
};

/// So many zeros.
fn zeros(alloc: Global, len: u32) -> Result<Bytes, Memory>
    ensures { IfOk result (λ bytes. length bytes ≡ len) }
{
    let mut bytes = Bytes::new(alloc);
    for _ in 0..len {
        bytes.push(0)?;
    }
    Ok(bytes)
}

/// A seat so many times.
#[tactic(auto, using(crate::proofs::Casting::fit_more))]
fn again(alloc: Global, seat: Seat, times: u32) -> Result<Seats, Memory>
    requires { IsTrue (fits PARAMS seat) }
    ensures { IfOk result (λ seats. AllFit PARAMS seats) }
{
    let mut seats = Seats::new(alloc);
    for _ in 0..times {
        seats.push(seat)?;
    }
    Ok(seats)
}

/// A node of a seat, which sends so many frames of a length to a seat on every input.
fn toy_of(alloc: Global, own: Seat, to: Seat, each: u32, len: u32) -> Result<Toy, Memory>
    requires own { IsTrue (fits PARAMS own) }
    requires to { IsTrue (fits PARAMS to) }
    requires some { 1 ≤ len }
    requires most { len ≤ LONGEST_FRAME }
    ensures sizes { IfOk result (λ toy. toy.params ≡ PARAMS) }
    ensures seat { IfOk result (λ toy. toy.own ≡ own) }
    ensures running { IfOk result (λ toy. toy.stopped ≡ false) }
{
    let seats = again(alloc, to, each)?;
    let frame = zeros(alloc, len)?;
    Ok(Toy::new(alloc, PARAMS, own, seats, frame))
}

/// The one node of a kind.
fn only(alloc: Global, own: Seat, to: Seat, each: u32, len: u32) -> Result<Nodes<Toy>, Memory>
    requires own { IsTrue (fits PARAMS own) }
    requires to { IsTrue (fits PARAMS to) }
    requires some { 1 ≤ len }
    requires most { len ≤ LONGEST_FRAME }
    ensures { IfOk result (λ nodes. IsOnly PARAMS own nodes) }
{
    let toy = toy_of(alloc, own, to, each, len)?;
    let mut nodes = Nodes::new(alloc);
    nodes.push(toy)?;
    Ok(nodes)
}

/// A toy for each seat. The client and the agreement node send to each other, and so do the executor and the filter.
pub fn cast(alloc: Global, each: u32, len: u32) -> Result<Grid<Toy, Toy, Toy, Toy>, Memory>
    requires some { 1 ≤ len }
    requires most { len ≤ LONGEST_FRAME }
    ensures seated { IfOk result (λ grid. AllSeated ⟦<Toy as Node>⟧.params ⟦<Toy as Node>⟧.own ⟦<Toy as Node>⟧.params ⟦<Toy as Node>⟧.own ⟦<Toy as Node>⟧.params ⟦<Toy as Node>⟧.own ⟦<Toy as Node>⟧.params ⟦<Toy as Node>⟧.own PARAMS [] (nodes_of grid)) }
    ensures fresh { IfOk result (λ grid. (d : PlainDirectory) → AllStanding ⟦<Toy as Node>⟧.stands_for ⟦<Toy as Node>⟧.is_stopped ⟦<Toy as Node>⟧.stands_for ⟦<Toy as Node>⟧.is_stopped ⟦<Toy as Node>⟧.stands_for ⟦<Toy as Node>⟧.is_stopped ⟦<Toy as Node>⟧.stands_for ⟦<Toy as Node>⟧.is_stopped d [] (λ seat. []) (nodes_of grid)) }
{
    let agree = only(alloc, Seat::Agree(0), Seat::Client(0), each, len)?;
    let exec = only(alloc, Seat::Exec(0), Seat::Filter(0, 0), each, len)?;
    let filters = only(alloc, Seat::Filter(0, 0), Seat::Exec(0), each, len)?;
    let clients = only(alloc, Seat::Client(0), Seat::Agree(0), each, len)?;
    Ok(Grid {
        agree,
        exec,
        filters,
        clients,
    })
}
