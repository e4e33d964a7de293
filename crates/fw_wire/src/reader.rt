//! Fields read from the front of bytes.

ghost use Rattle.std.specs.Prelude.{◌≡◌, ◌<◌, ◌↔◌, [], ◌∷◌, ◌++◌, length, MatchOption, IsTrue};
ghost use Rattle.fw_list.specs.Numbers.{u16, u32};

use std::marker::Model;

/// Bytes that are read from the front: seen as those that are left.
#[derive(Debug, Drop)]
pub struct Reader<'a> {
    rest: &'a [u8],
}

impl<'a> Model for Reader<'a> {
    ghost use Rattle.std.specs.Prelude.{List, ℕ};

    ghost Value = { List ℕ };

    ghost view = { λ r. r.rest.now };
}

impl<'a> Reader<'a> {
    /// All of the bytes are left.
    pub fn new(bytes: &'a [u8]) -> Self
        ensures { result ≡ bytes.now }
    {
        Reader { rest: bytes }
    }

    /// The same bytes once more.
    pub fn again(&self) -> Reader<'a>
        ensures { result ≡ self.now }
    {
        Reader { rest: self.rest }
    }

    /// How many bytes are left.
    pub fn left(&self) -> usize
        ensures { result ≡ length self.now }
    {
        self.rest.len()
    }

    /// Whether no byte is left.
    pub fn is_empty(&self) -> bool
        ensures { IsTrue result ↔ (self.now ≡ []) }
    {
        self.rest.is_empty()
    }

    /// The next bytes, this many, if so many are left.
    pub fn fixed(&mut self, len: usize) -> Option<&'a [u8]>
        ensures { MatchOption result ((length self.old < len) × (self.new ≡ self.old)) (λ part. (self.old ≡ part.now ++ self.new) × (length part.now ≡ len)) }
    {
        if self.rest.len() < len {
            return None;
        }
        let (part, rest) = self.rest.split_at(len);
        self.rest = rest;
        Some(part)
    }

    /// The next byte, if one is left.
    pub fn u8(&mut self) -> Option<u8>
        ensures { MatchOption result ((self.old ≡ []) × (self.new ≡ self.old)) (λ n. self.old ≡ n ∷ self.new) }
    {
        let part = self.fixed(1)?;
        Some(part[0])
    }

    /// The next number of two bytes, if two are left.
    #[tactic(auto, unfolding(fw_list::specs::Numbers::u16))]
    pub fn u16(&mut self) -> Option<u16>
        ensures { MatchOption result ((length self.old < 2) × (self.new ≡ self.old)) (λ n. self.old ≡ u16 n ++ self.new) }
    {
        let part = self.fixed(2)?;
        Some(u16::from_be_bytes([part[0], part[1]]))
    }

    /// The next number of four bytes, if four are left.
    #[tactic(auto, unfolding(fw_list::specs::Numbers::u32))]
    pub fn u32(&mut self) -> Option<u32>
        ensures { MatchOption result ((length self.old < 4) × (self.new ≡ self.old)) (λ n. self.old ≡ u32 n ++ self.new) }
    {
        let part = self.fixed(4)?;
        Some(u32::from_be_bytes([part[0], part[1], part[2], part[3]]))
    }
}
