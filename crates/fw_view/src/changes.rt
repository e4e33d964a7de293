//! The view changes of agreement nodes, as a list that is looked through.

ghost use Rattle.std.specs.Prelude.{◌≡◌, ◌<◌, ◌&&◌, ℕ, None, Ok, true, false, not, nat_eq, nat_le, is_some, map, length, IfOk, OnOk, OnErr, IsTrue};
ghost use Rattle.std.specs.List.{find, list_any};
ghost use Rattle.std.specs.Option.{option_copied};
ghost use Rattle.fw_base.specs.Sizes.{accepted};
ghost use Rattle.fw_frame.specs.Frames as plain_frame;
ghost use Rattle.fw_frame.specs.Plain.{plain_change};
ghost use Rattle.fw_frame.specs.Spelling.{frame_bytes};
ghost use Rattle.fw_frame.specs.Writing.{IsWritableChange};
ghost use Rattle.fw_view.specs.Counted.{frame_of, frame_with, enough, join, calls_for, senders, others_for, sent_for};

use fw_base::Params;
use fw_frame::Change;
use fw_list::{Bytes, Items, Memory};
use std::alloc::Global;
use std::marker::Model;

/// A node's first change to a view, as the bytes of its frame.
#[derive(Drop)]
struct KeptChange {
    view: u32,
    agree: u32,
    frame: Bytes,
}

/// The view changes that agreement nodes sent: the first of each node to each view.
#[derive(Drop)]
pub struct Changes {
    alloc: Global,
    params: Params,
    added: Items<KeptChange>,
}

impl Model for Changes {
    ghost use Rattle.std.specs.Prelude.{IsTrue, map, All, ◌<◌};
    ghost use Rattle.fw_base.specs.Sizes.{accepted};
    ghost use Rattle.fw_view.specs.Counted.{Counted, added_of};

    ghost Value = { Counted };

    ghost view = { λ c. record { params = c.params; added = map added_of c.added } };

    ghost invariant = { λ c. IsTrue (accepted c.params) × All (λ k. k.view < c.params.views) c.added };
}

/// A node's change to a view, if it is among these.
fn change_of(kept: &[KeptChange], view: u32, agree: u32) -> Option<&KeptChange>
    ensures { option_copied result ≡ find (λ k. nat_eq k.view view && nat_eq k.agree agree) kept.now }
{
    kept.iter()
        .find(|one| one.view == view && one.agree == agree)
}

/// Whether a node's change to a view, or to one above it, is among these.
fn has_sent(kept: &[KeptChange], view: u32, agree: u32) -> bool
    ensures { result ≡ list_any (λ k. nat_eq k.agree agree && nat_le view k.view) kept.now }
{
    kept.iter()
        .any(|one| one.agree == agree && view <= one.view)
}

impl Changes {
    /// No view changes so far.
    pub fn new(alloc: Global, params: &Params) -> Result<Changes, Memory>
        requires { IsTrue (accepted params.now) }
        ensures params { IfOk result (λ changes. changes.params ≡ params.now) }
        ensures none { IfOk result (λ changes. (view agree : ℕ) → frame_of changes view agree ≡ None) }
    {
        Ok(Changes {
            alloc,
            params: *params,
            added: Items::new(alloc),
        })
    }

    /// Adds a view change, as the bytes of the frame that carries it. The answer is true exactly where it is the first of its node to its
    /// view; a later one needs no memory and changes nothing. After want of memory all is as before.
    pub fn add(&mut self, change: &Change<'_>) -> Result<bool, Memory>
        requires view { change.now.view < self.old.params.views }
        requires writable { IsWritableChange change.now }
        ensures params { self.new.params ≡ self.old.params }
        ensures first { IfOk result (λ first. first ≡ not (is_some (frame_of self.old change.now.view change.now.agree))) }
        ensures added { OnOk result ((v i : ℕ) → frame_of self.new v i ≡ frame_with self.old change.now.view change.now.agree (frame_bytes (plain_frame.Change (plain_change change.now))) v i) }
        ensures again { is_some (frame_of self.old change.now.view change.now.agree) ≡ true → result ≡ Ok false }
        ensures err { OnErr result (self.new ≡ self.old) }
    {
        if change_of(self.added.items(), change.view, change.agree).is_some() {
            return Ok(false);
        }
        let frame = change.write(self.alloc)?;
        self.added.push(KeptChange {
            view: change.view,
            agree: change.agree,
            frame,
        })?;
        Ok(true)
    }

    /// The frame of a node's first change to a view; none exactly where none was added.
    pub fn frame(&self, view: u32, agree: u32) -> Option<&[u8]>
        ensures { option_copied result ≡ frame_of self.now view agree }
    {
        match change_of(self.added.items(), view, agree) {
            Some(one) => Some(one.frame.items()),
            None => None,
        }
    }

    /// How many nodes sent a change to a view.
    fn sender_count(&self, view: u32) -> u32
        ensures { result ≡ length (senders self.now view) }
    {
        let mut count = 0;
        for agree in 0..self.params.agreements() {
            if self.frame(view, agree).is_some() {
                count += 1;
            }
        }
        count
    }

    /// Whether a quorum of nodes has sent changes to a view.
    pub fn enough(&self, view: u32) -> bool
        ensures { result ≡ enough self.now view }
    {
        self.sender_count(view) >= self.params.quorum()
    }

    /// Whether a node sent a change to a view, or to one above it.
    fn sent_for(&self, view: u32, agree: u32) -> bool
        ensures { result ≡ sent_for self.now view agree }
    {
        has_sent(self.added.items(), view, agree)
    }

    /// Whether a node sent a change to a view, or to one above it, and isn't this one.
    fn is_other_for(&self, view: u32, own: u32, agree: u32) -> bool
        ensures { result ≡ (not (nat_eq agree own) && sent_for self.now view agree) }
    {
        agree != own && self.sent_for(view, agree)
    }

    /// How many nodes other than this one sent a change to a view, or to one above it.
    fn other_count(&self, view: u32, own: u32) -> u32
        ensures { result ≡ length (others_for self.now own view) }
    {
        let mut count = 0;
        for agree in 0..self.params.agreements() {
            if self.is_other_for(view, own, agree) {
                count += 1;
            }
        }
        count
    }

    /// Whether a view is above a node's own, and more others than can be faulty sent changes to it, or to views above it.
    fn calls_for(&self, own: u32, agree: u32, view: u32) -> bool
        ensures { result ≡ calls_for self.now own agree view }
    {
        own < view && self.params.f < self.other_count(view, agree)
    }

    /// The greatest view above a node's own such that more others than can be faulty sent changes to it, or to views above it; none
    /// exactly where there is no such view.
    pub fn join(&self, own: u32, agree: u32) -> Option<u32>
        ensures { result ≡ join self.now own agree }
    {
        let views = self.params.views;
        for k in 0..views {
            let view = views - 1 - k;
            if self.calls_for(own, agree, view) {
                return Some(view);
            }
        }
        None
    }
}
