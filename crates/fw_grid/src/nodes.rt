//! The nodes of one kind.

ghost use Rattle.std.specs.Prelude.{◌≡◌, ◌∷◌, ◌++◌, ◌<◌, ℕ, List, Some, OnOk, OnErr, length, slice_get};
ghost use Rattle.fw_base.specs.declared.seat.Seat.{Seat};
ghost use Rattle.fw_directory.specs.Directories.{PlainDirectory};
ghost use Rattle.fw_node.specs.Histories.{History, taken, IsGiven};
ghost use Rattle.fw_grid.specs.Nodes.{hand_in, AreSeated, AreStanding, sends_of, with_place};

use fw_digest::Steps;
use fw_directory::Directory;
use fw_list::Memory;
use fw_node::{Input, Node, Outbox};
use std::alloc::Global;
use std::marker::Model;
use std::sync::ledger::Ledger;

/// Gives an input to the node of a place. After want of memory the outbox is as before.
fn give_at<N: Node, L: Ledger>(
    nodes: &mut Vec<N>,
    k: usize,
    directory: &Directory,
    input: Input<'_>,
    out: &mut Outbox,
    steps: &mut Steps<L>,
) -> Result<(), Memory>
    requires place { k < length nodes.old.items }
    requires sizes { (j : ℕ) (node : N) → slice_get nodes.old.items j ≡ Some node → N.params node ≡ directory.now.params }
    requires op { IsGiven input }
    ensures seated { (seat_at : ℕ → Seat) (count : ℕ) → AreSeated N.params N.own directory.now.params seat_at count nodes.old.items → AreSeated N.params N.own directory.now.params seat_at count nodes.new.items }
    ensures hands { (j : ℕ) → hand_in N.hand (slice_get nodes.new.items j) ≡ hand_in N.hand (slice_get nodes.old.items j) }
    ensures rules { (j : ℕ) (d : PlainDirectory) (h : History) → sends_of N.rule (slice_get nodes.new.items j) d h ≡ sends_of N.rule (slice_get nodes.old.items j) d h }
    ensures stand { OnOk result ((hs : ℕ → History) → AreStanding N.stands_for N.is_stopped directory.now hs nodes.old.items → AreStanding N.stands_for N.is_stopped directory.now (with_place hs k (taken input.entry)) nodes.new.items) }
    ensures sent { OnOk result ((hs : ℕ → History) → AreStanding N.stands_for N.is_stopped directory.now hs nodes.old.items → out.new ≡ out.old ++ sends_of N.rule (slice_get nodes.old.items k) directory.now (taken input.entry ∷ hs k)) }
    ensures err { OnErr result (out.new ≡ out.old) }
{
    let node = &mut nodes[k];
    match node.take(directory, input, out, steps) {
        Ok(()) => Ok(()),
        Err(_) => Err(Memory),
    }
}

/// The nodes of the seats of one kind, ascending by seat.
#[derive(Drop)]
pub struct Nodes<N> {
    inside: Vec<N>,
}

impl<N> Model for Nodes<N> {
    ghost Value = { List N };

    ghost view = { λ l. l.inside.items };
}

impl<N> Nodes<N> {
    ghost use Rattle.std.specs.Prelude.{◌≡◌, [], length, slice_get};
    ghost use Rattle.std.specs.Option.{option_copied};

    /// No nodes.
    pub fn new(alloc: Global) -> Self
        ensures { result ≡ [] }
    {
        Nodes {
            inside: Vec::new(alloc),
        }
    }

    pub fn len(&self) -> usize
        ensures { result ≡ length self.now }
    {
        self.inside.len()
    }

    /// All of them.
    pub fn items(&self) -> &[N]
        ensures { result.now ≡ self.now }
    {
        self.inside.as_slice()
    }

    /// The node at a place, from 0.
    pub fn at(&self, k: usize) -> Option<&N>
        ensures { option_copied result ≡ slice_get self.now k }
    {
        self.inside.get(k)
    }
}

impl<N: Drop> Nodes<N> {
    ghost use Rattle.std.specs.Prelude.{◌≡◌, [], ◌∷◌, ◌++◌, OnOk, OnErr};

    /// Adds a node at the end.
    pub fn push(&mut self, node: N) -> Result<(), Memory>
        ensures ok { OnOk result (self.new ≡ self.old ++ node ∷ []) }
        ensures err { OnErr result (self.new ≡ self.old) }
    {
        self.inside.push(node)?;
        Ok(())
    }
}

impl<N: Node> Nodes<N> {
    /// Gives an input to the node of a place. After want of memory the outbox is as before.
    pub(crate) fn give<L: Ledger>(
        &mut self,
        k: usize,
        directory: &Directory,
        input: Input<'_>,
        out: &mut Outbox,
        steps: &mut Steps<L>,
    ) -> Result<(), Memory>
        requires place { k < length self.old }
        requires sizes { (j : ℕ) (node : N) → slice_get self.old j ≡ Some node → N.params node ≡ directory.now.params }
        requires op { IsGiven input }
        ensures seated { (seat_at : ℕ → Seat) (count : ℕ) → AreSeated N.params N.own directory.now.params seat_at count self.old → AreSeated N.params N.own directory.now.params seat_at count self.new }
        ensures hands { (j : ℕ) → hand_in N.hand (slice_get self.new j) ≡ hand_in N.hand (slice_get self.old j) }
        ensures rules { (j : ℕ) (d : PlainDirectory) (h : History) → sends_of N.rule (slice_get self.new j) d h ≡ sends_of N.rule (slice_get self.old j) d h }
        ensures stand { OnOk result ((hs : ℕ → History) → AreStanding N.stands_for N.is_stopped directory.now hs self.old → AreStanding N.stands_for N.is_stopped directory.now (with_place hs k (taken input.entry)) self.new) }
        ensures sent { OnOk result ((hs : ℕ → History) → AreStanding N.stands_for N.is_stopped directory.now hs self.old → out.new ≡ out.old ++ sends_of N.rule (slice_get self.old k) directory.now (taken input.entry ∷ hs k)) }
        ensures err { OnErr result (out.new ≡ out.old) }
    {
        give_at(&mut self.inside, k, directory, input, out, steps)
    }
}
