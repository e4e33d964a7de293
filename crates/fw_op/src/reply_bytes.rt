//! Replies read from bytes.

ghost use Rattle.std.specs.Prelude.{◌≡◌, ◌≢◌, ◌↔◌, ◌<◌, ◌≤◌, ◌++◌, List, ℕ, [], ◌∷◌, length, IfOk, OnErr, IfSome, IfNone, IsTrue};
ghost use Rattle.std.specs.List.{list_all, flat_map};
ghost use Rattle.fw_op.specs.Replies.{name_bytes, name_fits, names_fit, reply_bytes, reply_fits, has_bytes, IsReplyBytes, AreOfTelling, AreNames, AreCountedNames};
ghost use Rattle.fw_op.specs.Parts.{plain_name};

use crate::parts::NameParts;
use crate::reader::Reader;
use crate::{MOST_NAMES, Name, Names, Reply};
use fw_list::{Bytes, Memory};
use std::alloc::Global;

/// Takes the name of a record.
fn name_in<'a>(reader: &mut Reader<'a>) -> Option<NameParts<'a>>
    ensures found { IfSome result (λ n. (reader.old ≡ name_bytes (plain_name n) ++ reader.new) × IsTrue (name_fits 8 (plain_name n))) }
    ensures none { IfNone result ((n : Name) (rest : List ℕ) → IsTrue (name_fits 8 n) → reader.old ≢ name_bytes n ++ rest) }
{
    let Some(owner) = reader.client() else {
        return None;
    };
    let Some(key) = reader.key() else {
        return None;
    };
    Some(NameParts { owner, key })
}

/// Whether so many names are left, and nothing else.
fn are_names(reader: &mut Reader<'_>, count: u8) -> bool
    ensures { IsTrue result ↔ AreNames count reader.old }
{
    for _ in 0..count {
        match name_in(reader) {
            Some(_) => {}
            None => return false,
        }
    }
    reader.is_empty()
}

/// Whether names are left, after their count, and nothing else.
fn has_names(reader: &mut Reader<'_>) -> bool
    ensures { IsTrue result ↔ AreCountedNames reader.old }
{
    let Some(count) = reader.byte() else {
        return false;
    };
    if count as usize > MOST_NAMES {
        return false;
    }
    are_names(reader, count)
}

/// Takes so many names.
fn some_names(alloc: Global, reader: &mut Reader<'_>, count: u8) -> Result<Option<Names>, Memory>
    ensures found { IfOk result (λ found. IfSome found (λ names. (reader.old ≡ flat_map name_bytes names ++ reader.new) × (length names ≡ count) × IsTrue (list_all (name_fits 8) names))) }
    ensures none { IfOk result (λ found. IfNone found ((names : List Name) (rest : List ℕ) → length names ≡ count → IsTrue (list_all (name_fits 8) names) → reader.old ≢ flat_map name_bytes names ++ rest)) }
{
    let mut names = Names::new(alloc);
    for _ in 0..count {
        match name_in(reader) {
            Some(name) => names.push(name.own(alloc)?)?,
            None => return Ok(None),
        }
    }
    Ok(Some(names))
}

/// The names that are left, after their count.
fn last_names(alloc: Global, reader: &mut Reader<'_>) -> Result<Option<Names>, Memory>
    ensures found { IfOk result (λ found. IfSome found (λ names. (reader.old ≡ length names ∷ flat_map name_bytes names) × IsTrue (names_fit 8 names))) }
    ensures none { IfOk result (λ found. IfNone found ((names : List Name) → IsTrue (names_fit 8 names) → reader.old ≢ length names ∷ flat_map name_bytes names)) }
{
    let Some(count) = reader.byte() else {
        return Ok(None);
    };
    if count as usize > MOST_NAMES {
        return Ok(None);
    }
    let Some(names) = some_names(alloc, reader, count)? else {
        return Ok(None);
    };
    if reader.is_empty() {
        Ok(Some(names))
    } else {
        Ok(None)
    }
}

/// The names that are left, after their count, of which all is looked at before anything is copied.
fn names_in(alloc: Global, reader: &mut Reader<'_>) -> Result<Option<Names>, Memory>
    ensures found { IfOk result (λ found. IfSome found (λ names. (reader.old ≡ length names ∷ flat_map name_bytes names) × IsTrue (names_fit 8 names))) }
    ensures none { IfOk result (λ found. IfNone found ((names : List Name) → IsTrue (names_fit 8 names) → reader.old ≢ length names ∷ flat_map name_bytes names)) }
    ensures memory { OnErr result (AreCountedNames reader.old) }
{
    if !has_names(&mut reader.again()) {
        return Ok(None);
    }
    last_names(alloc, reader)
}

/// The reply of kind 2.
fn value_in(alloc: Global, reader: &mut Reader<'_>) -> Result<Option<Reply>, Memory>
    ensures found { IfOk result (λ found. IfSome found (λ reply. (2 ∷ reader.old ≡ reply_bytes reply) × IsTrue (reply_fits 8 reply) × IsTrue (has_bytes reply))) }
    ensures none { IfOk result (λ found. IfNone found ((reply : Reply) → IsTrue (reply_fits 8 reply) → 2 ∷ reader.old ≢ reply_bytes reply)) }
    ensures memory { OnErr result (AreOfTelling (2 ∷ reader.old)) }
{
    let Some(value) = reader.last_value() else {
        return Ok(None);
    };
    Ok(Some(Reply::Value {
        value: Bytes::copy_of(alloc, value)?,
    }))
}

/// The reply of kind 5.
fn count_in(reader: &mut Reader<'_>) -> Option<Reply>
    ensures found { IfSome result (λ reply. (5 ∷ reader.old ≡ reply_bytes reply) × IsTrue (reply_fits 8 reply) × IsTrue (has_bytes reply)) }
    ensures none { IfNone result ((reply : Reply) → IsTrue (reply_fits 8 reply) → 5 ∷ reader.old ≢ reply_bytes reply) }
{
    match reader.last_number() {
        Some(count) => Some(Reply::Count { count }),
        None => None,
    }
}

/// The reply of kind 6.
fn keys_in(alloc: Global, reader: &mut Reader<'_>) -> Result<Option<Reply>, Memory>
    ensures found { IfOk result (λ found. IfSome found (λ reply. (6 ∷ reader.old ≡ reply_bytes reply) × IsTrue (reply_fits 8 reply) × IsTrue (has_bytes reply))) }
    ensures none { IfOk result (λ found. IfNone found ((reply : Reply) → IsTrue (reply_fits 8 reply) → 6 ∷ reader.old ≢ reply_bytes reply)) }
    ensures memory { OnErr result (AreOfTelling (6 ∷ reader.old)) }
{
    match names_in(alloc, reader)? {
        Some(names) => Ok(Some(Reply::Keys { names })),
        None => Ok(None),
    }
}

/// The reply that the bytes are.
pub(crate) fn reply_in(alloc: Global, bytes: &[u8]) -> Result<Option<Reply>, Memory>
    ensures found { IfOk result (λ found. IfSome found (λ reply. IsReplyBytes bytes.now reply)) }
    ensures none { IfOk result (λ found. IfNone found ((reply : Reply) → ¬ IsReplyBytes bytes.now reply)) }
    ensures memory { OnErr result (AreOfTelling bytes.now) }
{
    let mut reader = Reader::new(bytes);
    match reader.byte() {
        Some(1) => Ok(reader.end_with(Reply::Done)),
        Some(2) => value_in(alloc, &mut reader),
        Some(3) => Ok(reader.end_with(Reply::Absent)),
        Some(4) => Ok(reader.end_with(Reply::Differs)),
        Some(5) => Ok(count_in(&mut reader)),
        Some(6) => keys_in(alloc, &mut reader),
        Some(7) => Ok(reader.end_with(Reply::Bad)),
        Some(8) => Ok(reader.end_with(Reply::Old)),
        _ => Ok(None),
    }
}
