//! What the lines so far have made. Each step says what is printed for it.

use crate::shown::{said, shown_count, shown_view};
use fw_list::{Bytes, Memory};
use fw_op::{Op, Starts};
use fw_store::{Store, are_distinct};
use std::alloc::Global;

/// The clients that a line may name: two more than there are, so that a case can ask for one that isn't there.
pub const CLIENTS: u32 = 10;

/// The records for the next store, and the store.
#[derive(Drop)]
pub struct State {
    pub starts: Starts,
    store: Store,
}

impl State {
    /// No records.
    pub fn new(alloc: Global) -> Result<Self, Memory> {
        Ok(State {
            starts: Starts::new(alloc),
            store: Store::new(alloc, &[])?,
        })
    }

    /// Begins anew.
    pub fn renew(&mut self, alloc: Global) -> Result<Bytes, Memory> {
        *self = State::new(alloc)?;
        said(alloc, "new")
    }

    /// How many records the store has, if its list has as many.
    fn count(&self) -> Option<usize> {
        let count = self.store.len();
        if count == self.store.records().len() {
            Some(count)
        } else {
            None
        }
    }

    /// Makes a store of the records that were given, unless two have one name: how many it has.
    pub fn open(&mut self, alloc: Global) -> Result<Bytes, Memory> {
        if are_distinct(self.starts.items()) {
            self.store = Store::new(alloc, self.starts.items())?;
            if let Some(count) = self.count() {
                return shown_count(alloc, count);
            }
        }
        said(alloc, "two records have one name")
    }

    /// The records that a client is shown.
    pub fn visible(&self, alloc: Global, client: u32) -> Result<Bytes, Memory> {
        let view = self.store.visible(client)?;
        shown_view(alloc, view.items())
    }

    /// The reply of the store.
    pub fn apply(&mut self, alloc: Global, client: u32, op: &Op) -> Result<Bytes, Memory> {
        let reply = self.store.apply(client, op)?;
        reply.words(alloc)
    }
}
