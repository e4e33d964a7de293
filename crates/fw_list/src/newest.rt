//! Lists with the newest item first.

ghost use Rattle.std.specs.Prelude.{◌≡◌, List, [], ◌∷◌, ◌++◌, length, OnOk, OnErr, slice_get, reverse};
ghost use Rattle.std.specs.Option.{option_copied};

use crate::Memory;
use std::alloc::Global;
use std::marker::Model;

/// A list that grows at its front, which keeps its allocator: the newest item stands first.
#[derive(Debug, Drop)]
pub struct Newest<T> {
    inside: Vec<T>,
}

impl<T> Model for Newest<T> {
    ghost Value = { List T };

    ghost view = { λ l. reverse l.inside.items };
}

impl<T> Newest<T> {
    /// No items.
    pub fn new(alloc: Global) -> Self
        ensures { result ≡ [] }
    {
        Newest {
            inside: Vec::new(alloc),
        }
    }

    pub fn len(&self) -> usize
        ensures { result ≡ length self.now }
    {
        self.inside.len()
    }

    /// The items from the oldest to the newest.
    pub fn oldest_first(&self) -> &[T]
        ensures { result.now ≡ reverse self.now }
    {
        self.inside.as_slice()
    }

    /// The item at a place, from 0 for the newest.
    pub fn at(&self, k: usize) -> Option<&T>
        ensures { option_copied result ≡ slice_get self.now k }
    {
        let len = self.inside.len();
        if k < len {
            self.inside.get(len - 1 - k)
        } else {
            None
        }
    }
}

impl<T: Drop> Newest<T> {
    /// Adds an item at the front.
    pub fn push(&mut self, item: T) -> Result<(), Memory>
        ensures ok { OnOk result (self.new ≡ item ∷ self.old) }
        ensures err { OnErr result (self.new ≡ self.old) }
    {
        self.inside.push(item)?;
        Ok(())
    }
}
