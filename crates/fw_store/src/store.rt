//! The store.

ghost use Rattle.std.specs.Prelude.{◌≡◌, ◌≢◌, [], length, IsTrue, IfOk, OnOk, OnErr, IsPermutation};
ghost use Rattle.fw_store.specs.Store.{are_ordered, are_distinct, ordered, visible, applied};
ghost use Rattle.fw_store.specs.Wants.{may_want};
ghost use Rattle.fw_store.specs.Laws.{IsIsolated, IsWantedAlike};

use crate::build::in_order;
use crate::change::{cas, del, grant, put, revoke};
use crate::view::{count, names, value, view};
use fw_list::Memory;
use fw_op::{Op, Reply, Start, Starts};
use std::alloc::Global;
use std::marker::Model;

/// What a client is shown of a store, by owner and key.
pub type View = Starts;

/// Records, each name once, by owner and then by the bytes of the key.
#[derive(Debug, Drop)]
pub struct Store {
    alloc: Global,
    records: Vec<Start>,
}

impl Model for Store {
    ghost use Rattle.std.specs.Prelude.{List, IsTrue};
    ghost use Rattle.fw_op.specs.declared.start.Start.{Start};
    ghost use Rattle.fw_store.specs.Store.{are_ordered};

    ghost Value = { List Start };

    ghost view = { λ s. s.records.items };

    ghost invariant = { λ s. IsTrue (are_ordered s.records.items) };
}

impl Store {
    /// A store of copies of these records, each name once.
    pub fn new(alloc: Global, starts: &[Start]) -> Result<Self, Memory>
        requires { IsTrue (are_distinct starts.now) }
        ensures records { IfOk result (λ store. store ≡ ordered starts.now) }
        ensures same { IfOk result (λ store. IsPermutation starts.now store) }
        ensures order { IfOk result (λ store. IsTrue (are_ordered store)) }
    {
        Ok(Store {
            alloc,
            records: in_order(alloc, starts)?,
        })
    }

    /// Does what a client asks, and gives the reply. After want of memory the records are as they were.
    pub fn apply(&mut self, client: u32, op: &Op) -> Result<Reply, Memory>
        ensures reply { IfOk result (λ reply. reply ≡ (applied client op.now self.old).0) }
        ensures records { OnOk result (self.new ≡ (applied client op.now self.old).1) }
        ensures err { OnErr result (self.new ≡ self.old) }
        ensures order { IsTrue (are_ordered self.new) }

        // Memory is wanted only where something is to be copied or stored.
        ensures memory { OnErr result (IsTrue (may_want client op.now self.old)) }

        // In every other store that shows the client the same the reply is the same, and every client to whom both showed
        // the same is shown the same after it.
        ensures isolated { IfOk result (λ reply. IsIsolated client op.now self.old reply self.new) }

        // And where memory was wanted, it may be in each of those stores.
        ensures alike { OnErr result (IsWantedAlike client op.now self.old) }
    {
        apply_to(self.alloc, &mut self.records, client, op)
    }

    /// What a client is shown of the records.
    pub fn visible(&self, client: u32) -> Result<View, Memory>
        ensures view { IfOk result (λ view. view ≡ visible client self.now) }
        ensures memory { OnErr result (visible client self.now ≢ []) }
    {
        view(self.alloc, self.records.as_slice(), client)
    }

    /// How many records there are.
    pub fn len(&self) -> usize
        ensures { result ≡ length self.now }
    {
        self.records.len()
    }

    /// The records.
    pub fn records(&self) -> &[Start]
        ensures records { result.now ≡ self.now }
        ensures order { IsTrue (are_ordered self.now) }
    {
        self.records.as_slice()
    }
}

/// Does what a client asks of records in order.
fn apply_to(alloc: Global, records: &mut Vec<Start>, client: u32, op: &Op) -> Result<Reply, Memory>
    requires { IsTrue (are_ordered records.old.items) }
    ensures reply { IfOk result (λ reply. reply ≡ (applied client op.now records.old.items).0) }
    ensures after { OnOk result (records.new.items ≡ (applied client op.now records.old.items).1) }
    ensures err { OnErr result (records.new.items ≡ records.old.items) }
    ensures memory { OnErr result (IsTrue (may_want client op.now records.old.items)) }
{
    match op {
        Op::Put { key, value } => put(alloc, records, client, key, value),
        Op::Get { owner, key } => value(alloc, records.as_slice(), client, *owner, key),
        Op::Del { key } => Ok(del(records, client, key)),
        Op::Cas { key, old, new } => cas(alloc, records, client, key, old, new),
        Op::Grant {
            key,
            client: reader,
        } => grant(alloc, records, client, key, *reader),
        Op::Revoke {
            key,
            client: reader,
        } => revoke(alloc, records, client, key, *reader),
        Op::Count => count(records.as_slice(), client),
        Op::Keys => Ok(Reply::Keys {
            names: names(alloc, records.as_slice(), client)?,
        }),
    }
}
