//! Operations read from bytes.

ghost use Rattle.std.specs.Prelude.{◌≡◌, ◌≢◌, ◌<◌, ◌≤◌, ◌+◌, ◌++◌, List, ℕ, [], ◌∷◌, length, IfOk, OnErr, IfSome, IfNone, IsTrue};
ghost use Rattle.fw_list.specs.declared.limits.TheConstants.{LONGEST_TEXT};
ghost use Rattle.fw_op.specs.Keys.{is_key, is_value, key_bytes, value_bytes};
ghost use Rattle.fw_op.specs.Ops.{op_bytes, op_fits, IsOpBytes, AreOfKeyed};
ghost use Rattle.fw_op.specs.Parts.{plain_op};

use crate::Op;
use crate::parts::OpParts;
use crate::reader::Reader;
use fw_list::{LONGEST_TEXT, Memory};
use std::alloc::Global;

/// The key and the value that are left.
fn key_and_value<'a>(reader: &mut Reader<'a>) -> Option<(&'a [u8], &'a [u8])>
    ensures found { IfSome result (λ p. (reader.old ≡ key_bytes p.0.now ++ value_bytes p.1.now) × IsTrue (is_key p.0.now) × IsTrue (is_value p.1.now)) }
    ensures none { IfNone result ((k v : List ℕ) → IsTrue (is_key k) → IsTrue (is_value v) → reader.old ≢ key_bytes k ++ value_bytes v) }
{
    let Some(key) = reader.key() else {
        return None;
    };
    let Some(value) = reader.last_value() else {
        return None;
    };
    Some((key, value))
}

/// The key and the two values that are left.
fn key_and_values<'a>(reader: &mut Reader<'a>) -> Option<(&'a [u8], &'a [u8], &'a [u8])>
    ensures found { IfSome result (λ p. (reader.old ≡ key_bytes p.0.now ++ value_bytes p.1.now ++ value_bytes p.2.now) × IsTrue (is_key p.0.now) × IsTrue (is_value p.1.now) × IsTrue (is_value p.2.now)) }
    ensures none { IfNone result ((k v w : List ℕ) → IsTrue (is_key k) → IsTrue (is_value v) → IsTrue (is_value w) → reader.old ≢ key_bytes k ++ value_bytes v ++ value_bytes w) }
{
    let Some(key) = reader.key() else {
        return None;
    };
    let Some(old) = reader.value() else {
        return None;
    };
    let Some(new) = reader.last_value() else {
        return None;
    };
    Some((key, old, new))
}

/// The client and the key that are left.
fn client_and_key<'a>(reader: &mut Reader<'a>) -> Option<(u32, &'a [u8])>
    ensures found { IfSome result (λ p. (reader.old ≡ p.0 ∷ key_bytes p.1.now) × (p.0 < 8) × IsTrue (is_key p.1.now)) }
    ensures none { IfNone result ((c : ℕ) (k : List ℕ) → c < 8 → IsTrue (is_key k) → reader.old ≢ c ∷ key_bytes k) }
{
    let Some(owner) = reader.client() else {
        return None;
    };
    let Some(key) = reader.last_key() else {
        return None;
    };
    Some((owner, key))
}

/// The key and the client that are left.
fn key_and_client<'a>(reader: &mut Reader<'a>) -> Option<(&'a [u8], u32)>
    ensures found { IfSome result (λ p. (reader.old ≡ key_bytes p.0.now ++ p.1 ∷ []) × IsTrue (is_key p.0.now) × (p.1 < 8)) }
    ensures none { IfNone result ((k : List ℕ) (c : ℕ) → IsTrue (is_key k) → c < 8 → reader.old ≢ key_bytes k ++ c ∷ []) }
{
    let Some(key) = reader.key() else {
        return None;
    };
    let Some(client) = reader.last_client() else {
        return None;
    };
    Some((key, client))
}

/// The operation of kind 1.
fn put_in<'a>(reader: &mut Reader<'a>) -> Option<OpParts<'a>>
    ensures found { IfSome result (λ parts. (1 ∷ reader.old ≡ op_bytes (plain_op parts)) × IsTrue (op_fits 8 (plain_op parts))) }
    ensures none { IfNone result ((op : Op) → IsTrue (op_fits 8 op) → 1 ∷ reader.old ≢ op_bytes op) }
{
    let Some((key, value)) = key_and_value(reader) else {
        return None;
    };
    Some(OpParts::Put { key, value })
}

/// The operation of kind 2.
fn get_in<'a>(reader: &mut Reader<'a>) -> Option<OpParts<'a>>
    ensures found { IfSome result (λ parts. (2 ∷ reader.old ≡ op_bytes (plain_op parts)) × IsTrue (op_fits 8 (plain_op parts))) }
    ensures none { IfNone result ((op : Op) → IsTrue (op_fits 8 op) → 2 ∷ reader.old ≢ op_bytes op) }
{
    let Some((owner, key)) = client_and_key(reader) else {
        return None;
    };
    Some(OpParts::Get { owner, key })
}

/// The operation of kind 3.
fn del_in<'a>(reader: &mut Reader<'a>) -> Option<OpParts<'a>>
    ensures found { IfSome result (λ parts. (3 ∷ reader.old ≡ op_bytes (plain_op parts)) × IsTrue (op_fits 8 (plain_op parts))) }
    ensures none { IfNone result ((op : Op) → IsTrue (op_fits 8 op) → 3 ∷ reader.old ≢ op_bytes op) }
{
    let Some(key) = reader.last_key() else {
        return None;
    };
    Some(OpParts::Del { key })
}

/// The operation of kind 4.
fn cas_in<'a>(reader: &mut Reader<'a>) -> Option<OpParts<'a>>
    requires { length reader.old < LONGEST_TEXT }
    ensures found { IfSome result (λ parts. (4 ∷ reader.old ≡ op_bytes (plain_op parts)) × IsTrue (op_fits 8 (plain_op parts))) }
    ensures none { IfNone result ((op : Op) → IsTrue (op_fits 8 op) → 4 ∷ reader.old ≢ op_bytes op) }
{
    let Some((key, old, new)) = key_and_values(reader) else {
        return None;
    };
    Some(OpParts::Cas { key, old, new })
}

/// The operation of kind 5.
fn grant_in<'a>(reader: &mut Reader<'a>) -> Option<OpParts<'a>>
    ensures found { IfSome result (λ parts. (5 ∷ reader.old ≡ op_bytes (plain_op parts)) × IsTrue (op_fits 8 (plain_op parts))) }
    ensures none { IfNone result ((op : Op) → IsTrue (op_fits 8 op) → 5 ∷ reader.old ≢ op_bytes op) }
{
    let Some((key, client)) = key_and_client(reader) else {
        return None;
    };
    Some(OpParts::Grant { key, client })
}

/// The operation of kind 6.
fn revoke_in<'a>(reader: &mut Reader<'a>) -> Option<OpParts<'a>>
    ensures found { IfSome result (λ parts. (6 ∷ reader.old ≡ op_bytes (plain_op parts)) × IsTrue (op_fits 8 (plain_op parts))) }
    ensures none { IfNone result ((op : Op) → IsTrue (op_fits 8 op) → 6 ∷ reader.old ≢ op_bytes op) }
{
    let Some((key, client)) = key_and_client(reader) else {
        return None;
    };
    Some(OpParts::Revoke { key, client })
}

/// The operation that these bytes are, which are no longer than the longest.
fn parts_of_short<'a>(reader: &mut Reader<'a>) -> Option<OpParts<'a>>
    requires { length reader.old ≤ LONGEST_TEXT }
    ensures found { IfSome result (λ parts. (reader.old ≡ op_bytes (plain_op parts)) × IsTrue (op_fits 8 (plain_op parts))) }
    ensures none { IfNone result ((op : Op) → IsTrue (op_fits 8 op) → reader.old ≢ op_bytes op) }
{
    match reader.byte() {
        Some(1) => put_in(reader),
        Some(2) => get_in(reader),
        Some(3) => del_in(reader),
        Some(4) => cas_in(reader),
        Some(5) => grant_in(reader),
        Some(6) => revoke_in(reader),
        Some(7) => reader.end_with(OpParts::Count),
        Some(8) => reader.end_with(OpParts::Keys),
        _ => None,
    }
}

/// The operation that the bytes are.
fn parts_in<'a>(bytes: &'a [u8]) -> Option<OpParts<'a>>
    ensures found { IfSome result (λ parts. IsOpBytes bytes.now (plain_op parts)) }
    ensures none { IfNone result ((op : Op) → ¬ IsOpBytes bytes.now op) }
{
    if bytes.len() > LONGEST_TEXT {
        return None;
    }
    parts_of_short(&mut Reader::new(bytes))
}

/// The operation that the bytes are.
pub(crate) fn op_in(alloc: Global, bytes: &[u8]) -> Result<Option<Op>, Memory>
    ensures found { IfOk result (λ found. IfSome found (λ op. IsOpBytes bytes.now op)) }
    ensures none { IfOk result (λ found. IfNone found ((op : Op) → ¬ IsOpBytes bytes.now op)) }
    ensures memory { OnErr result (AreOfKeyed bytes.now) }
{
    let Some(parts) = parts_in(bytes) else {
        return Ok(None);
    };
    Ok(Some(parts.own(alloc)?))
}
