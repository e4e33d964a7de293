//! The book of texts that were hashed, by their digests.

ghost use Rattle.std.specs.Prelude.{◌≡◌, ◌++◌, ◌∷◌, ℕ, List, [], Some, IsTrue, IsOk, IfOk, OnOk, OnErr, bytes_eq, if◌then◌else◌};
ghost use Rattle.std.specs.Option.{option_copied};
ghost use Rattle.std.specs.Ordering.{nat_cmp};
ghost use Rattle.std.specs.Cmp.Lexicographic.{slice_cmp};
ghost use Rattle.std.specs.BTreeMap.{get};
ghost use Rattle.fw_frame.specs.declared.shown.Text as shown;
ghost use Rattle.fw_know.specs.declared.texts.TextFault.TheVariants as fault;
ghost use Rattle.fw_know.specs.Books.{given, is_among, clash, IsBookOf};
ghost use Rattle.fw_know.specs.Answering.{Answers, Finds};

use fw_list::{Bytes, Memory};
use std::alloc::Global;
use std::collections::BTreeMap;
use std::marker::Model;

/// Why a text was not added.
#[derive(Debug, Drop)]
pub enum TextFault {
    /// The book has another text with this digest.
    Clash { old: Bytes, new: Bytes },
    Memory,
}

impl From<Memory> for TextFault {
    ghost from_gives = { λ _ e. e ≡ fault.Memory };

    fn from(_: Memory) -> Self {
        TextFault::Memory
    }
}

/// The texts that were added, each under its digest, in the order of the digests.
#[derive(Drop)]
pub struct Texts {
    alloc: Global,
    entries: BTreeMap<[u8; 32], Bytes>,
}

impl Model for Texts {
    ghost use Rattle.std.specs.Prelude.{List, map};
    ghost use Rattle.fw_frame.specs.declared.shown.Text.{Text};
    ghost use Rattle.fw_know.specs.Books.{entry_text};

    ghost Value = { List Text };

    ghost view = { λ t. map entry_text t.entries.entries };
}

/// The text under a digest, if there is one.
fn text_under<'a>(entries: &'a BTreeMap<[u8; 32], Bytes>, digest: &[u8; 32]) -> Option<&'a Bytes>
    ensures { option_copied result ≡ get (slice_cmp nat_cmp) entries.now digest.now }
{
    entries.get(digest)
}

/// Puts a copy of a text under a digest.
fn put(
    alloc: Global,
    entries: &mut BTreeMap<[u8; 32], Bytes>,
    digest: [u8; 32],
    text: &[u8],
) -> Result<(), Memory>
    ensures ok { OnOk result ((d : List ℕ) → get (slice_cmp nat_cmp) entries.new d ≡ (if bytes_eq digest d then Some text.now else get (slice_cmp nat_cmp) entries.old d)) }
    ensures err { OnErr result (entries.new.entries ≡ entries.old.entries) }
{
    let copy = Bytes::copy_of(alloc, text)?;
    entries.insert(digest, copy)?;
    Ok(())
}

/// Copies of two texts with one digest.
fn clash_of(alloc: Global, old: &[u8], new: &[u8]) -> Result<TextFault, Memory>
    ensures { IfOk result (λ two. two ≡ fault.Clash old.now new.now) }
{
    let old = Bytes::copy_of(alloc, old)?;
    let new = Bytes::copy_of(alloc, new)?;
    Ok(TextFault::Clash { old, new })
}

/// Compares a text with the one that is kept under its digest.
fn compare(alloc: Global, old: &[u8], text: &[u8]) -> Result<bool, TextFault>
    ensures { Finds (Some old.now) text.now result }
{
    if old == text {
        return Ok(true);
    }
    match clash_of(alloc, old, text) {
        Ok(two) => Err(two),
        Err(_) => Err(TextFault::Memory),
    }
}

/// Whether a text is kept under its digest already.
fn is_kept(
    alloc: Global,
    entries: &BTreeMap<[u8; 32], Bytes>,
    digest: &[u8; 32],
    text: &[u8],
) -> Result<bool, TextFault>
    ensures { Finds (get (slice_cmp nat_cmp) entries.now digest.now) text.now result }
{
    match text_under(entries, digest) {
        Some(old) => compare(alloc, old.items(), text),
        None => Ok(false),
    }
}

impl Texts {
    /// No texts so far.
    pub fn new(alloc: Global) -> Texts
        ensures { IsBookOf result [] }
    {
        Texts {
            alloc,
            entries: BTreeMap::new(alloc),
        }
    }

    /// Adds a text with its digest. A clash comes exactly where another text was added with this digest, and names both. The same text
    /// again is no clash, and needs no memory. With an error all is as before.
    pub fn add(&mut self, digest: [u8; 32], text: &[u8]) -> Result<(), TextFault>
        ensures answer { (texts : List shown.Text) → IsBookOf self.old texts → Answers (clash (texts ++ given digest text.now ∷ [])) (given digest text.now) result }
        ensures added { OnOk result ((texts : List shown.Text) → IsBookOf self.old texts → IsBookOf self.new (texts ++ given digest text.now ∷ [])) }
        ensures again { (texts : List shown.Text) → IsBookOf self.old texts → IsTrue (is_among (given digest text.now) texts) → IsOk result }
        ensures err { OnErr result (self.new ≡ self.old) }
    {
        match is_kept(self.alloc, &self.entries, &digest, text) {
            Ok(true) => Ok(()),
            Ok(false) => Ok(put(self.alloc, &mut self.entries, digest, text)?),
            Err(fault) => Err(fault),
        }
    }
}
