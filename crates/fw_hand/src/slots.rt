//! Which slots a seat has, and which clients' keys.

ghost use Rattle.std.specs.Prelude.{◌≡◌, ◌<◌, ◌^◌, ◌++◌, ◌&&◌, map, IfOk, OnOk, IsTrue};
ghost use Rattle.fw_list.specs.Lists.{numbers_from};
ghost use Rattle.fw_base.specs.Sizes.{accepted};
ghost use Rattle.fw_base.specs.Seats.{fits};
ghost use Rattle.fw_base.specs.Places.{slot_fits};
ghost use Rattle.fw_base.specs.declared.seat.Seat.TheVariants.{Agree};
ghost use Rattle.fw_base.specs.declared.slot.Slot.{Slot};
ghost use Rattle.fw_base.specs.declared.slot.Slot.TheVariants.{Prepare, Commit, Change, NewView, Request, Reply};
ghost use Rattle.fw_hand.specs.Hands.{votes_of, slots_of, clients_of, is_own, is_among};

use fw_base::{Params, Seat, Slot};
use fw_list::{Items, Memory};
use std::alloc::Global;

/// The prepare votes of a node in a view, by number.
fn add_prepares(slots: &mut Items<Slot>, numbers: u32, view: u32, agree: u32) -> Result<(), Memory>
    requires { numbers < 2 ^ 31 }
    ensures { OnOk result (slots.new ≡ slots.old ++ map (λ n. Prepare view n agree) (numbers_from 1 numbers)) }
{
    for k in 0..numbers {
        slots.push(Slot::Prepare {
            view,
            number: k + 1,
            agree,
        })?;
    }
    Ok(())
}

/// Its commit votes in a view, by number.
fn add_commits(slots: &mut Items<Slot>, numbers: u32, view: u32, agree: u32) -> Result<(), Memory>
    requires { numbers < 2 ^ 31 }
    ensures { OnOk result (slots.new ≡ slots.old ++ map (λ n. Commit view n agree) (numbers_from 1 numbers)) }
{
    for k in 0..numbers {
        slots.push(Slot::Commit {
            view,
            number: k + 1,
            agree,
        })?;
    }
    Ok(())
}

/// All prepare votes of a node, by view and number.
fn add_all_prepares(slots: &mut Items<Slot>, params: &Params, agree: u32) -> Result<(), Memory>
    requires { IsTrue (accepted params.now) }
    ensures { OnOk result (slots.new ≡ slots.old ++ votes_of (λ v n. Prepare v n agree) params.now) }
{
    for view in 0..params.views {
        add_prepares(slots, params.numbers, view, agree)?;
    }
    Ok(())
}

/// All its commit votes, by view and number.
fn add_all_commits(slots: &mut Items<Slot>, params: &Params, agree: u32) -> Result<(), Memory>
    requires { IsTrue (accepted params.now) }
    ensures { OnOk result (slots.new ≡ slots.old ++ votes_of (λ v n. Commit v n agree) params.now) }
{
    for view in 0..params.views {
        add_commits(slots, params.numbers, view, agree)?;
    }
    Ok(())
}

/// The view changes of a node.
fn add_changes(slots: &mut Items<Slot>, views: u32, agree: u32) -> Result<(), Memory>
    requires { views < 2 ^ 31 }
    ensures { OnOk result (slots.new ≡ slots.old ++ map (λ v. Change v agree) (numbers_from 0 views)) }
{
    for k in 0..views {
        slots.push(Slot::Change { view: k, agree })?;
    }
    Ok(())
}

/// Its new views.
fn add_new_views(slots: &mut Items<Slot>, views: u32, agree: u32) -> Result<(), Memory>
    requires { views < 2 ^ 31 }
    ensures { OnOk result (slots.new ≡ slots.old ++ map (λ v. NewView v agree) (numbers_from 0 views)) }
{
    for k in 0..views {
        slots.push(Slot::NewView { view: k, agree })?;
    }
    Ok(())
}

/// The replies, by number.
fn add_replies(slots: &mut Items<Slot>, numbers: u32) -> Result<(), Memory>
    requires { numbers < 2 ^ 31 }
    ensures { OnOk result (slots.new ≡ slots.old ++ map Reply (numbers_from 1 numbers)) }
{
    for k in 0..numbers {
        slots.push(Slot::Reply { number: k + 1 })?;
    }
    Ok(())
}

/// The requests of a client, by stamp.
fn add_requests(slots: &mut Items<Slot>, stamps: u32, client: u32) -> Result<(), Memory>
    requires { stamps < 2 ^ 31 }
    ensures { OnOk result (slots.new ≡ slots.old ++ map (Request client) (numbers_from 1 stamps)) }
{
    for k in 0..stamps {
        slots.push(Slot::Request {
            client,
            stamp: k + 1,
        })?;
    }
    Ok(())
}

/// The slots of an agreement node.
fn add_agreement(slots: &mut Items<Slot>, params: &Params, agree: u32) -> Result<(), Memory>
    requires { IsTrue (accepted params.now) }
    ensures { OnOk result (slots.new ≡ slots.old ++ slots_of params.now (Agree agree)) }
{
    add_all_prepares(slots, params, agree)?;
    add_all_commits(slots, params, agree)?;
    add_changes(slots, params.views, agree)?;
    add_new_views(slots, params.views, agree)
}

/// The slots of a seat.
fn add_slots(slots: &mut Items<Slot>, params: &Params, seat: Seat) -> Result<(), Memory>
    requires { IsTrue (accepted params.now) }
    ensures { OnOk result (slots.new ≡ slots.old ++ slots_of params.now seat) }
{
    match seat {
        Seat::Agree(agree) => add_agreement(slots, params, agree),
        Seat::Exec(_) => add_replies(slots, params.numbers),
        Seat::Filter(_, _) => Ok(()),
        Seat::Client(client) => add_requests(slots, params.stamps, client),
    }
}

/// The slots of a seat, in the order of their indices: those of the deployment that are its own, and no others.
pub fn slots_of(alloc: Global, params: &Params, seat: Seat) -> Result<Items<Slot>, Memory>
    requires sizes { IsTrue (accepted params.now) }
    requires fits { IsTrue (fits params.now seat) }
    ensures slots { IfOk result (λ slots. slots ≡ slots_of params.now seat) }
    ensures own { IfOk result (λ slots. (slot : Slot) → is_among slot slots ≡ (slot_fits params.now slot && is_own seat slot)) }
{
    let mut slots = Items::new(alloc);
    add_slots(&mut slots, params, seat)?;
    Ok(slots)
}

/// So many clients.
fn add_clients(clients: &mut Items<u32>, count: u32) -> Result<(), Memory>
    ensures { OnOk result (clients.new ≡ clients.old ++ numbers_from 0 count) }
{
    for client in 0..count {
        clients.push(client)?;
    }
    Ok(())
}

/// The clients whose keys a seat has.
fn add_clients_of(clients: &mut Items<u32>, params: &Params, seat: Seat) -> Result<(), Memory>
    ensures { OnOk result (clients.new ≡ clients.old ++ clients_of params.now seat) }
{
    match seat {
        Seat::Exec(_) => add_clients(clients, params.clients),
        Seat::Client(client) => clients.push(client),
        _ => Ok(()),
    }
}

/// The clients whose keys a seat has.
pub fn clients_of(alloc: Global, params: &Params, seat: Seat) -> Result<Items<u32>, Memory>
    requires sizes { IsTrue (accepted params.now) }
    ensures { IfOk result (λ clients. clients ≡ clients_of params.now seat) }
{
    let mut clients = Items::new(alloc);
    add_clients_of(&mut clients, params, seat)?;
    Ok(clients)
}
