//! A tick.

ghost use Rattle.std.specs.Prelude.{◌≡◌, ◌≤◌, ◌<◌, ◌++◌, ◌+◌, ◌&&◌, ℕ, true, not, is_some, map, nat_eq, nat_lt, length, take, OnOk, OnErr};
ghost use Rattle.fw_base.specs.declared.params.Params.{Params};
ghost use Rattle.fw_hand.specs.Hands.{PlainHand};
ghost use Rattle.std.specs.List.{list_any};
ghost use Rattle.fw_rules.specs.Agree as rules;
ghost use Rattle.fw_rules.specs.Views as views;
ghost use Rattle.fw_owned.specs.Pieces.{request_of};
ghost use Rattle.fw_kept.specs.Kept.{self_of, node_of, IsFor};
ghost use Rattle.fw_act.specs.Doing.{IsAgreements};

use crate::again::{agreed_again, resends};
use fw_choose::reply_to;
use fw_directory::Directory;
use fw_hand::Hand;
use fw_kept::Keeps;
use fw_list::Memory;
use fw_move::turns;
use fw_node::Outbox;
use fw_owned::OwnedRequest;
use fw_turn::Turn;
use std::alloc::Global;

/// The ticks that it waits before it changes the view.
const PATIENCE: u32 = 3;

/// Whether a request isn't answered.
fn is_open(directory: &Directory, keeps: &Keeps, request: &OwnedRequest) -> bool
    ensures { (hand : PlainHand) (own : ℕ) → result ≡ not (is_some (rules.reply_to (self_of directory.now hand own) (node_of keeps.now) request.now.client request.now.stamp)) }
{
    reply_to(directory, keeps, request.client, request.stamp).is_none()
}

/// Whether one of these requests isn't answered.
fn is_any_open(directory: &Directory, keeps: &Keeps, requests: &[OwnedRequest]) -> bool
    ensures { (hand : PlainHand) (own : ℕ) → result ≡ list_any (λ r. not (is_some (rules.reply_to (self_of directory.now hand own) (node_of keeps.now) r.client r.stamp))) (map request_of requests.now) }
{
    for request in requests {
        if is_open(directory, keeps, request) {
            return true;
        }
    }
    false
}

/// Whether it waits for a request that isn't answered, or for a view to begin.
fn is_behind(directory: &Directory, keeps: &Keeps) -> bool
    ensures { (hand : PlainHand) (own : ℕ) → result ≡ views.is_behind (self_of directory.now hand own) (node_of keeps.now) }
{
    if !keeps.active {
        return true;
    }
    is_any_open(directory, keeps, keeps.requests.items())
}

/// For how many ticks it has waited, this one counted.
fn idle_now(directory: &Directory, keeps: &Keeps) -> u32
    requires { IsFor directory.now.params keeps.now }
    ensures idle { (hand : PlainHand) (own : ℕ) → result ≡ views.idle_now (self_of directory.now hand own) (node_of keeps.now) }
    ensures most { result ≤ views.PATIENCE }
{
    if is_behind(directory, keeps) {
        keeps.idle + 1
    } else {
        keeps.idle
    }
}

/// Whether there is a view after this one of so many.
fn has_next(view: u32, views: u32) -> bool
    requires { view < views }
    ensures { result ≡ nat_lt (view + 1) views }
{
    view + 1 < views
}

/// Whether it has waited too long, and there is a next view.
fn starts_change(directory: &Directory, keeps: &Keeps, idle: u32) -> bool
    requires { IsFor directory.now.params keeps.now }
    ensures { result ≡ (nat_eq idle views.PATIENCE && nat_lt (keeps.now.view + 1) directory.now.params.views) }
{
    idle == PATIENCE && has_next(keeps.view, directory.params().views)
}

/// For how many ticks it has waited, after it has sent again what is owed.
fn idle_after(idle: u32) -> u32
    requires { idle ≤ views.PATIENCE }
    ensures idle { result ≡ views.idle_after idle }
    ensures few { result < views.PATIENCE }
{
    if idle == PATIENCE { 0 } else { idle }
}

/// Waits on, and sends again what is owed. After want of memory the outbox begins with what it had.
fn waits_on(
    alloc: Global,
    directory: &Directory,
    own: u32,
    hand: &Hand,
    keeps: &mut Keeps,
    idle: u32,
    out: &mut Outbox,
) -> Result<(), Memory>
    requires hand { IsAgreements directory.now.params own hand.now }
    requires for_sizes { IsFor directory.now.params keeps.old }
    requires idle { idle ≤ views.PATIENCE }
    ensures kept { node_of keeps.new ≡ record (node_of keeps.old) { idle = views.idle_after idle } }
    ensures sent { OnOk result (out.new ≡ out.old ++ views.resends (self_of directory.now hand.now own) (node_of keeps.old)) }
    ensures sizes { IsFor directory.now.params keeps.new }
    ensures begins { take (length out.old) out.new ≡ out.old }
{
    let sent = resends(alloc, directory, own, hand, keeps, out);
    keeps.idle = idle_after(idle);
    sent
}

/// Starts a change to the next view. After want of memory the outbox is as before, and what it keeps is unknown.
fn starts_next(
    alloc: Global,
    directory: &Directory,
    own: u32,
    hand: &Hand,
    keeps: &mut Keeps,
    out: &mut Outbox,
) -> Result<(), Memory>
    requires hand { IsAgreements directory.now.params own hand.now }
    requires for_sizes { IsFor directory.now.params keeps.old }
    requires next { keeps.old.view + 1 < directory.now.params.views }
    ensures kept { OnOk result (node_of keeps.new ≡ (views.waits_by (self_of directory.now hand.now own) (node_of keeps.old) true).0) }
    ensures sent { OnOk result (out.new ≡ out.old ++ (views.waits_by (self_of directory.now hand.now own) (node_of keeps.old) true).1) }
    ensures sizes { IsFor directory.now.params keeps.new }
    ensures err { OnErr result (out.new ≡ out.old) }
{
    keeps.idle = 0;
    let next = keeps.view + 1;
    turns(alloc, directory, own, hand, keeps, Turn::Start(next), out)
}

/// Waits: it starts a change where it has waited too long, and there is a next view; else it sends again what is owed. After want of
/// memory the outbox begins with what it had, and what it keeps is unknown.
fn waits(
    alloc: Global,
    directory: &Directory,
    own: u32,
    hand: &Hand,
    keeps: &mut Keeps,
    out: &mut Outbox,
) -> Result<(), Memory>
    requires hand { IsAgreements directory.now.params own hand.now }
    requires for_sizes { IsFor directory.now.params keeps.old }
    ensures kept { OnOk result (node_of keeps.new ≡ (views.waits (self_of directory.now hand.now own) (node_of keeps.old)).0) }
    ensures sent { OnOk result (out.new ≡ out.old ++ (views.waits (self_of directory.now hand.now own) (node_of keeps.old)).1) }
    ensures sizes { IsFor directory.now.params keeps.new }
    ensures begins { take (length out.old) out.new ≡ out.old }
{
    let idle = idle_now(directory, keeps);
    if starts_change(directory, keeps, idle) {
        starts_next(alloc, directory, own, hand, keeps, out)
    } else {
        waits_on(alloc, directory, own, hand, keeps, idle, out)
    }
}

/// What it does on a tick: it counts how long it has waited; where that is too long, and there is a next view, it sends its view change;
/// else it sends again what is owed. The agreed frame that waits for its reply it sends in either case. After want of memory the outbox
/// begins with what it had, and what it keeps is unknown.
pub fn ticks(
    alloc: Global,
    directory: &Directory,
    own: u32,
    hand: &Hand,
    keeps: &mut Keeps,
    out: &mut Outbox,
) -> Result<(), Memory>
    requires hand { IsAgreements directory.now.params own hand.now }
    requires for_sizes { IsFor directory.now.params keeps.old }
    ensures kept { OnOk result (node_of keeps.new ≡ (views.ticks (self_of directory.now hand.now own) (node_of keeps.old)).0) }
    ensures sent { OnOk result (out.new ≡ out.old ++ (views.ticks (self_of directory.now hand.now own) (node_of keeps.old)).1) }
    ensures sizes { IsFor directory.now.params keeps.new }
    ensures begins { take (length out.old) out.new ≡ out.old }
{
    waits(alloc, directory, own, hand, keeps, out)?;
    agreed_again(alloc, directory, keeps, out)
}
