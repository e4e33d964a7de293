//! What stands at the names of a document.

ghost use Rattle.std.specs.Prelude.{◌≡◌, ◌↔◌, ℕ, List, MatchOption, IsTrue, Some, Ok, map, is_some, option_map, length};
ghost use Rattle.std.specs.List.{list_all};
ghost use Rattle.std.specs.Option.{option_and_then};
ghost use Rattle.std.specs.Result.{result_ok};
ghost use Rattle.hex.specs.Hex.{decode_sized};
ghost use Rattle.toml.specs.Data.{get_member, as_str, as_array};
ghost use Rattle.toml.specs.View.{table_view, items_view, view};
ghost use Rattle.fw_sched.specs.Members.{number_at, number_within, seed_at, texts_of, texts_at, is_known, least_other};
ghost use Rattle.fw_sched.specs.Stages.{text_in};

use hex::FromHex;
use toml::{Table, Value};

/// The value of the member of this name.
fn value_at<'a>(table: &'a Table, name: &str) -> Option<&'a Value>
    ensures { option_map (λ v. view v.now) result ≡ get_member name.now (table_view table.now) }
{
    table.get(name)
}

/// The whole number from 0 on that is the member of this name.
pub(crate) fn number_at(table: &Table, name: &str) -> Option<u64>
    ensures { result ≡ number_at (table_view table.now) name.now }
{
    let number = match value_at(table, name) {
        Some(value) => value.as_integer(),
        None => None,
    };
    match number {
        Some(number) if number >= 0 => Some(number as u64),
        _ => None,
    }
}

/// Whether the member of this name is such a number in a range.
pub(crate) fn is_number_within(table: &Table, name: &str, least: u64, most: u64) -> bool
    ensures { result ≡ number_within (table_view table.now) name.now least most }
{
    match number_at(table, name) {
        Some(number) => least <= number && number <= most,
        None => false,
    }
}

/// The items of the member of this name, if it is an array.
fn array_at<'a>(table: &'a Table, name: &str) -> Option<&'a [Value]>
    ensures { option_map (λ v. items_view v.now) result ≡ option_and_then as_array (get_member name.now (table_view table.now)) }
{
    let values = match value_at(table, name) {
        Some(value) => value.as_array(),
        None => None,
    };
    match values {
        Some(values) => Some(values.as_slice()),
        None => None,
    }
}

fn is_text(value: &Value) -> bool
    ensures { result ≡ is_some (as_str (view value.now)) }
{
    value.as_str().is_some()
}

fn are_texts(values: &[Value]) -> bool
    ensures { result ≡ list_all (λ v. is_some (as_str (view v))) values.now }
{
    values.iter().all(|value| is_text(value))
}

/// The items of the member of this name, if it is an array of texts.
pub(crate) fn texts_at<'a>(table: &'a Table, name: &str) -> Option<&'a [Value]>
    ensures { option_map (λ v. map text_in v.now) result ≡ texts_at (table_view table.now) name.now }
{
    let values = array_at(table, name)?;
    if are_texts(values) {
        Some(values)
    } else {
        None
    }
}

/// The text of an item, or no text where it isn't one.
pub(crate) fn text_in(value: &Value) -> &str
    ensures { result.now ≡ text_in value.now }
{
    match value.as_str() {
        Some(text) => text,
        None => "",
    }
}

fn text_at<'a>(table: &'a Table, name: &str) -> Option<&'a str>
    ensures { option_map (λ s. s.now) result ≡ option_and_then as_str (get_member name.now (table_view table.now)) }
{
    match value_at(table, name) {
        Some(value) => value.as_str(),
        None => None,
    }
}

/// The 32 bytes of the seed.
pub(crate) fn seed_at(table: &Table) -> Option<[u8; 32]>
    ensures { result ≡ seed_at (table_view table.now) }
{
    match text_at(table, "seed") {
        Some(text) => <[u8; 32] as FromHex>::from_hex(text).ok(),
        None => None,
    }
}

fn is_known(name: &str) -> bool
    ensures { result ≡ is_known name.now }
{
    matches!(
        name,
        "version"
            | "f"
            | "g"
            | "h"
            | "numbers"
            | "views"
            | "clients"
            | "stamps"
            | "pipe"
            | "seed"
            | "faulty"
            | "records"
            | "steps"
    )
}

/// The least of the names that a document doesn't have.
pub(crate) fn least_other(table: &Table) -> Option<&str>
    ensures { option_map (λ name. name.now) result ≡ least_other (table_view table.now) }
{
    for (name, _value) in table.iter() {
        if !is_known(name.as_str()) {
            return Some(name.as_str());
        }
    }
    None
}
