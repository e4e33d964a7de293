//! Lists of bytes.

ghost use Rattle.std.specs.Prelude.{◌≡◌, List, ℕ, [], ◌∷◌, ◌++◌, length, take, IfOk, OnOk, OnErr, slice_get};
ghost use Rattle.std.specs.Option.{option_copied};

use crate::Memory;
use std::alloc::Global;
use std::marker::Model;

/// A list of bytes, which keeps its allocator.
#[derive(Debug, Drop)]
pub struct Bytes {
    inside: Vec<u8>,
}

impl Model for Bytes {
    ghost Value = { List ℕ };

    ghost view = { λ b. b.inside.items };
}

impl Bytes {
    /// No bytes.
    pub fn new(alloc: Global) -> Self
        ensures { result ≡ [] }
    {
        Bytes {
            inside: Vec::new(alloc),
        }
    }

    /// A copy of these bytes.
    pub fn copy_of(alloc: Global, part: &[u8]) -> Result<Self, Memory>
        ensures { IfOk result (λ copy. copy ≡ part.now) }
    {
        let mut copy = Bytes::new(alloc);
        copy.append(part)?;
        Ok(copy)
    }

    /// Adds a byte at the end.
    pub fn push(&mut self, item: u8) -> Result<(), Memory>
        ensures ok { OnOk result (self.new ≡ self.old ++ item ∷ []) }
        ensures err { OnErr result (self.new ≡ self.old) }
    {
        self.inside.push(item)?;
        Ok(())
    }

    /// Adds a part at the end.
    pub fn append(&mut self, part: &[u8]) -> Result<(), Memory>
        ensures ok { OnOk result (self.new ≡ self.old ++ part.now) }
        ensures err { OnErr result (self.new ≡ self.old) }
    {
        self.inside.extend_from_slice(part)?;
        Ok(())
    }

    /// Keeps so many bytes of the front, or all where there are fewer.
    pub fn truncate(&mut self, len: usize)
        ensures { self.new ≡ take len self.old }
    {
        self.inside.truncate(len);
    }

    pub fn len(&self) -> usize
        ensures { result ≡ length self.now }
    {
        self.inside.len()
    }

    pub fn items(&self) -> &[u8]
        ensures { result.now ≡ self.now }
    {
        self.inside.as_slice()
    }

    /// The byte at a place, from 0.
    pub fn at(&self, k: usize) -> Option<&u8>
        ensures { option_copied result ≡ slice_get self.now k }
    {
        self.inside.get(k)
    }
}
