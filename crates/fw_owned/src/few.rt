//! Lists that a frame can have: of fewer than 2^32 items, since their count has four bytes.

ghost use Rattle.std.specs.Prelude.{◌≡◌, ◌<◌, ◌^◌, ◌+◌, [], ◌∷◌, ◌++◌, length, OnOk, OnErr};
ghost use Rattle.fw_frame.specs.Writing.{IsCountable};

use fw_list::{Items, Memory};
use std::alloc::Global;
use std::marker::Model;

/// A list of fewer than 2^32 items, in order.
#[derive(Drop)]
pub struct Few<T> {
    inside: Items<T>,
}

impl<T> Model for Few<T> {
    ghost use Rattle.std.specs.Prelude.{List};
    ghost use Rattle.fw_frame.specs.Writing.{IsCountable};

    ghost Value = { List T };

    ghost view = { λ l. l.inside };

    ghost invariant = { λ l. IsCountable l.inside };
}

impl<T> Few<T> {
    /// No items.
    pub fn new(alloc: Global) -> Self
        ensures { result ≡ [] }
    {
        Few {
            inside: Items::new(alloc),
        }
    }

    pub fn items(&self) -> &[T]
        ensures same { result.now ≡ self.now }
        ensures few { IsCountable self.now }
    {
        self.inside.items()
    }
}

impl<T: Drop> Few<T> {
    /// Adds an item at the end.
    pub fn push(&mut self, item: T) -> Result<(), Memory>
        requires { length self.old + 1 < 2 ^ 32 }
        ensures ok { OnOk result (self.new ≡ self.old ++ item ∷ []) }
        ensures err { OnErr result (self.new ≡ self.old) }
    {
        self.inside.push(item)
    }
}
