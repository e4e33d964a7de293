//! Lists in order.

ghost use Rattle.std.specs.Prelude.{◌≡◌, List, [], ◌∷◌, ◌++◌, length, OnOk, OnErr, slice_get};
ghost use Rattle.std.specs.Option.{option_copied};

use crate::Memory;
use std::alloc::Global;
use std::marker::Model;

/// A list in order, which keeps its allocator.
#[derive(Debug, Drop)]
pub struct Items<T> {
    inside: Vec<T>,
}

impl<T> Model for Items<T> {
    ghost Value = { List T };

    ghost view = { λ l. l.inside.items };
}

impl<T> Items<T> {
    /// No items.
    pub fn new(alloc: Global) -> Self
        ensures { result ≡ [] }
    {
        Items {
            inside: Vec::new(alloc),
        }
    }

    pub fn len(&self) -> usize
        ensures { result ≡ length self.now }
    {
        self.inside.len()
    }

    pub fn items(&self) -> &[T]
        ensures { result.now ≡ self.now }
    {
        self.inside.as_slice()
    }

    /// The items alone.
    pub fn into_items(self) -> Vec<T>
        ensures { result.items ≡ self }
    {
        let Items { inside } = self;
        inside
    }

    /// The item at a place, from 0.
    pub fn at(&self, k: usize) -> Option<&T>
        ensures { option_copied result ≡ slice_get self.now k }
    {
        self.inside.get(k)
    }
}

impl<T: Drop> Items<T> {
    /// Adds an item at the end.
    pub fn push(&mut self, item: T) -> Result<(), Memory>
        ensures ok { OnOk result (self.new ≡ self.old ++ item ∷ []) }
        ensures err { OnErr result (self.new ≡ self.old) }
    {
        self.inside.push(item)?;
        Ok(())
    }
}
