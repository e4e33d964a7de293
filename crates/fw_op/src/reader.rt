//! Bytes read from the front: clients, keys, values.

use crate::keys::{is_key, is_value};
use fw_wire::Reader as Fields;
use std::marker::Model;

/// Bytes that are read from the front, by fields.
#[derive(Drop)]
pub(crate) struct Reader<'a> {
    fields: Fields<'a>,
}

impl<'a> Model for Reader<'a> {
    ghost use Rattle.std.specs.Prelude.{List, ℕ};

    ghost Value = { List ℕ };

    ghost view = { λ r. r.fields };
}

impl<'a> Reader<'a> {
    ghost use Rattle.std.specs.Prelude.{◌≡◌, ◌≢◌, ◌++◌, ◌<◌, ◌^◌, ◌↔◌, List, ℕ, [], ◌∷◌, IsTrue, IfSome, IfNone, IsSomeAnd, MatchOption, length};
    ghost use Rattle.std.specs.Int.{w16, w32, to_be_bytes};
    ghost use Rattle.fw_op.specs.Keys.{is_key, is_value, key_bytes, value_bytes};

    /// All of the bytes.
    pub(crate) fn new(bytes: &'a [u8]) -> Self
        ensures { result ≡ bytes.now }
    {
        Reader {
            fields: Fields::new(bytes),
        }
    }

    /// The same bytes once more.
    pub(crate) fn again(&self) -> Reader<'a>
        ensures { result ≡ self.now }
    {
        Reader {
            fields: self.fields.again(),
        }
    }

    /// Takes so many bytes.
    pub(crate) fn fixed(&mut self, len: usize) -> Option<&'a [u8]>
        ensures { MatchOption result ((length self.old < len) × (self.new ≡ self.old)) (λ part. (self.old ≡ part.now ++ self.new) × (length part.now ≡ len)) }
    {
        self.fields.fixed(len)
    }

    /// Whether no byte is left.
    pub(crate) fn is_empty(&self) -> bool
        ensures { IsTrue result ↔ (self.now ≡ []) }
    {
        self.fields.is_empty()
    }

    /// Takes one byte.
    pub(crate) fn byte(&mut self) -> Option<u8>
        ensures { MatchOption result (self.old ≡ []) (λ b. self.old ≡ b ∷ self.new) }
    {
        self.fields.u8()
    }

    /// Takes a number of two bytes.
    #[tactic(auto, unfolding(fw_list::specs::Numbers::u16))]
    fn double(&mut self) -> Option<u16>
        ensures { MatchOption result (length self.old < 2) (λ n. (self.old ≡ to_be_bytes w16 n ++ self.new) × (n < 2 ^ 16)) }
    {
        self.fields.u16()
    }

    /// Takes a number of four bytes.
    #[tactic(auto, unfolding(fw_list::specs::Numbers::u32))]
    fn quadruple(&mut self) -> Option<u32>
        ensures { MatchOption result (length self.old < 4) (λ n. self.old ≡ to_be_bytes w32 n ++ self.new) }
    {
        self.fields.u32()
    }

    /// Takes a client of 8.
    pub(crate) fn client(&mut self) -> Option<u32>
        ensures found { IfSome result (λ c. (self.old ≡ c ∷ self.new) × (c < 8)) }
        ensures each { (c : ℕ) (rest : List ℕ) → c < 8 → self.old ≡ c ∷ rest → IsSomeAnd result (λ found. (found ≡ c) × (self.new ≡ rest)) }
    {
        let client = self.byte()?;
        if client < 8 {
            Some(u32::from(client))
        } else {
            None
        }
    }

    /// Takes a key.
    pub(crate) fn key(&mut self) -> Option<&'a [u8]>
        ensures found { IfSome result (λ k. (self.old ≡ key_bytes k.now ++ self.new) × IsTrue (is_key k.now)) }
        ensures each { (k rest : List ℕ) → IsTrue (is_key k) → self.old ≡ key_bytes k ++ rest → IsSomeAnd result (λ found. (found.now ≡ k) × (self.new ≡ rest)) }
    {
        let len = self.byte()?;
        let key = self.fixed(len as usize)?;
        if is_key(key) { Some(key) } else { None }
    }

    /// Takes a value.
    pub(crate) fn value(&mut self) -> Option<&'a [u8]>
        ensures found { IfSome result (λ v. (self.old ≡ value_bytes v.now ++ self.new) × IsTrue (is_value v.now)) }
        ensures each { (v rest : List ℕ) → IsTrue (is_value v) → self.old ≡ value_bytes v ++ rest → IsSomeAnd result (λ found. (found.now ≡ v) × (self.new ≡ rest)) }
    {
        let len = self.double()?;
        let value = self.fixed(len as usize)?;
        if is_value(value) { Some(value) } else { None }
    }

    /// The number of four bytes that is left.
    pub(crate) fn last_number(&mut self) -> Option<u32>
        ensures found { IfSome result (λ n. self.old ≡ to_be_bytes w32 n) }
        ensures none { IfNone result ((n : ℕ) → self.old ≢ to_be_bytes w32 n) }
    {
        let number = self.quadruple()?;
        if self.is_empty() { Some(number) } else { None }
    }

    /// The client that is left.
    pub(crate) fn last_client(&mut self) -> Option<u32>
        ensures found { IfSome result (λ c. (self.old ≡ c ∷ []) × (c < 8)) }
        ensures none { IfNone result ((c : ℕ) → c < 8 → self.old ≢ c ∷ []) }
    {
        let client = self.client()?;
        if self.is_empty() { Some(client) } else { None }
    }

    /// The key that is left.
    pub(crate) fn last_key(&mut self) -> Option<&'a [u8]>
        ensures found { IfSome result (λ k. (self.old ≡ key_bytes k.now) × IsTrue (is_key k.now)) }
        ensures none { IfNone result ((k : List ℕ) → IsTrue (is_key k) → self.old ≢ key_bytes k) }
    {
        let Some(key) = self.key() else {
            return None;
        };
        if self.is_empty() { Some(key) } else { None }
    }

    /// The value that is left.
    pub(crate) fn last_value(&mut self) -> Option<&'a [u8]>
        ensures found { IfSome result (λ v. (self.old ≡ value_bytes v.now) × IsTrue (is_value v.now)) }
        ensures none { IfNone result ((v : List ℕ) → IsTrue (is_value v) → self.old ≢ value_bytes v) }
    {
        let Some(value) = self.value() else {
            return None;
        };
        if self.is_empty() { Some(value) } else { None }
    }

    /// The item, if no byte is left.
    pub(crate) fn end_with<T: Drop>(&self, item: T) -> Option<T>
        ensures found { IfSome result (λ found. (self.now ≡ []) × (found ≡ item)) }
        ensures none { IfNone result (self.now ≢ []) }
    {
        if self.is_empty() { Some(item) } else { None }
    }
}
