//! The fields of a document, in order.

ghost use Rattle.std.specs.Prelude.{◌≡◌, ◌≢◌, ◌<◌, ◌^◌, ℕ, IfOk, IfErr, IfSome, IfNone, MatchOption, Some, None, option_map};
ghost use Rattle.toml.specs.View.{table_view};
ghost use Rattle.fw_base.specs.declared.params.Params.{Params};
ghost use Rattle.fw_sched.specs.Members.{number_at, pipe_fits, few_texts, fields, first_wrong};
ghost use Rattle.fw_sched.specs.Document.{HasSizes, HasHead};
ghost use Rattle.fw_sched.specs.Faults.{field_fault};
ghost use Rattle.fw_sched.specs.Stages.{AreShort, HasParts, said};

use crate::MOST_STEPS;
use crate::members::{is_number_within, least_other, number_at, seed_at, texts_at};
use fw_base::{MOST_CLIENTS, MOST_FAULTS, MOST_NUMBERS, MOST_STAMPS, MOST_VIEWS, Params};
use fw_record::MOST_RECORDS;
use toml::{Table, Value};

/// What stands at the names of a document.
#[derive(Drop)]
pub(crate) struct Head<'a> {
    pub params: Params,
    pub seed: [u8; 32],
    pub records: &'a [Value],
    pub faulty: &'a [Value],
    pub steps: &'a [Value],
}

fn pipe_fits(table: &Table) -> bool
    ensures { result ≡ pipe_fits (table_view table.now) }
{
    match number_at(table, "numbers") {
        Some(numbers) => is_number_within(table, "pipe", 1, numbers),
        None => false,
    }
}

/// Whether the member of this name is an array of so many texts at most.
fn are_few_texts(table: &Table, name: &str, most: usize) -> bool
    ensures { result ≡ few_texts (table_view table.now) name.now most }
{
    match texts_at(table, name) {
        Some(texts) => texts.len() <= most,
        None => false,
    }
}

/// The first field that is missing, of another kind, or out of its limit.
fn first_wrong(table: &Table) -> Option<&'static str>
    ensures { option_map (λ name. name.now) result ≡ first_wrong (fields (table_view table.now)) }
{
    if !is_number_within(table, "version", 1, 1) {
        return Some("version");
    }
    if !is_number_within(table, "f", 0, u64::from(MOST_FAULTS)) {
        return Some("f");
    }
    if !is_number_within(table, "g", 0, u64::from(MOST_FAULTS)) {
        return Some("g");
    }
    if !is_number_within(table, "h", 0, u64::from(MOST_FAULTS)) {
        return Some("h");
    }
    if !is_number_within(table, "numbers", 1, u64::from(MOST_NUMBERS)) {
        return Some("numbers");
    }
    if !is_number_within(table, "views", 1, u64::from(MOST_VIEWS)) {
        return Some("views");
    }
    if !is_number_within(table, "clients", 1, u64::from(MOST_CLIENTS)) {
        return Some("clients");
    }
    if !is_number_within(table, "stamps", 1, u64::from(MOST_STAMPS)) {
        return Some("stamps");
    }
    if !pipe_fits(table) {
        return Some("pipe");
    }
    if seed_at(table).is_none() {
        return Some("seed");
    }
    if texts_at(table, "faulty").is_none() {
        return Some("faulty");
    }
    if !are_few_texts(table, "records", MOST_RECORDS) {
        return Some("records");
    }
    if !are_few_texts(table, "steps", MOST_STEPS) {
        return Some("steps");
    }
    None
}

/// The first field that isn't as it has to be, or else the least name that a document doesn't have.
fn field_fault(table: &Table) -> Option<&str>
    ensures { option_map (λ name. name.now) result ≡ field_fault (table_view table.now) }
{
    match first_wrong(table) {
        Some(name) => Some(name),
        None => least_other(table),
    }
}

/// The member of this name, if it is a whole number of 32 bits.
fn size_at(table: &Table, name: &str) -> Option<u32>
    ensures { MatchOption result ((n : ℕ) → n < 2 ^ 32 → number_at (table_view table.now) name.now ≢ Some n) (λ n. number_at (table_view table.now) name.now ≡ Some n) }
{
    match number_at(table, name) {
        Some(number) if number <= u64::from(u32::MAX) => Some(number as u32),
        _ => None,
    }
}

/// The eight sizes.
fn sizes_of(table: &Table) -> Option<Params>
    ensures { MatchOption result ((p : Params) → AreShort p → ¬ HasSizes (table_view table.now) p) (λ p. HasSizes (table_view table.now) p) }
{
    Some(Params {
        f: size_at(table, "f")?,
        g: size_at(table, "g")?,
        h: size_at(table, "h")?,
        numbers: size_at(table, "numbers")?,
        views: size_at(table, "views")?,
        clients: size_at(table, "clients")?,
        stamps: size_at(table, "stamps")?,
        pipe: size_at(table, "pipe")?,
    })
}

/// What stands at the names, if it is all there.
fn parts_of(table: &Table) -> Option<Head<'_>>
    ensures found { IfSome result (λ h. HasParts (table_view table.now) (said h)) }
    ensures none { IfNone result (first_wrong (fields (table_view table.now)) ≢ None) }
{
    let params = sizes_of(table)?;
    let seed = seed_at(table)?;
    let records = texts_at(table, "records")?;
    let faulty = texts_at(table, "faulty")?;
    let steps = texts_at(table, "steps")?;
    Some(Head {
        params,
        seed,
        records,
        faulty,
        steps,
    })
}

/// The head of a document, or the name of the first field that is at fault.
pub(crate) fn head_of(table: &Table) -> Result<Head<'_>, &str>
    ensures ok { IfOk result (λ h. HasHead (table_view table.now) (said h)) }
    ensures err { IfErr result (λ name. field_fault (table_view table.now) ≡ Some name.now) }
{
    if let Some(name) = field_fault(table) {
        return Err(name);
    }
    let Some(head) = parts_of(table) else {
        unreachable!()
    };
    Ok(head)
}
