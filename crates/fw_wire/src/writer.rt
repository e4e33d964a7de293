//! Fields added at the end of bytes.

ghost use Rattle.std.specs.Prelude.{◌≡◌, [], ◌∷◌, ◌++◌, IfOk, OnOk, OnErr};
ghost use Rattle.fw_list.specs.Numbers.{u16, u32};

use fw_list::{Bytes, Memory};
use std::alloc::Global;
use std::marker::Model;

/// Bytes that are written at the end, which keep their allocator.
#[derive(Debug, Drop)]
pub struct Writer {
    written: Bytes,
}

impl Model for Writer {
    ghost use Rattle.std.specs.Prelude.{List, ℕ};

    ghost Value = { List ℕ };

    ghost view = { λ w. w.written };
}

impl Writer {
    /// Nothing is written.
    pub fn new(alloc: Global) -> Self
        ensures { result ≡ [] }
    {
        Writer {
            written: Bytes::new(alloc),
        }
    }

    /// Adds a part.
    pub fn fixed(&mut self, part: &[u8]) -> Result<(), Memory>
        ensures ok { OnOk result (self.new ≡ self.old ++ part.now) }
        ensures err { OnErr result (self.new ≡ self.old) }
    {
        self.written.append(part)
    }

    /// Adds a byte.
    pub fn u8(&mut self, n: u8) -> Result<(), Memory>
        ensures ok { OnOk result (self.new ≡ self.old ++ n ∷ []) }
        ensures err { OnErr result (self.new ≡ self.old) }
    {
        self.written.push(n)
    }

    /// Adds a number of two bytes.
    #[tactic(auto, unfolding(fw_list::specs::Numbers::u16))]
    pub fn u16(&mut self, n: u16) -> Result<(), Memory>
        ensures ok { OnOk result (self.new ≡ self.old ++ u16 n) }
        ensures err { OnErr result (self.new ≡ self.old) }
    {
        let two = n.to_be_bytes();
        self.fixed(&two)
    }

    /// Adds a number of four bytes.
    #[tactic(auto, unfolding(fw_list::specs::Numbers::u32))]
    pub fn u32(&mut self, n: u32) -> Result<(), Memory>
        ensures ok { OnOk result (self.new ≡ self.old ++ u32 n) }
        ensures err { OnErr result (self.new ≡ self.old) }
    {
        let four = n.to_be_bytes();
        self.fixed(&four)
    }

    /// What was written.
    pub fn finish(self) -> Bytes
        ensures { result ≡ self }
    {
        let Writer { written } = self;
        written
    }
}
