//! Records added to bytes.

ghost use Rattle.std.specs.Prelude.{◌≡◌, ◌++◌, nat_lt, OnOk, IsTrue};
ghost use Rattle.std.specs.List.{list_all, flat_map};
ghost use Rattle.fw_op.specs.Keys.{is_key, is_value, key_bytes, value_bytes};
ghost use Rattle.fw_list.specs.Numbers.{ascending};
ghost use Rattle.fw_record.specs.Records.{start_bytes, start_fits, starts_bytes, starts_fit};
ghost use Rattle.fw_record.specs.Parts.{readers_bytes};

use fw_list::Memory;
use fw_op::Start;
use fw_wire::Writer;

/// A key after its length.
fn add_key(out: &mut Writer, key: &[u8]) -> Result<(), Memory>
    requires { IsTrue (is_key key.now) }
    ensures ok { OnOk result (out.new ≡ out.old ++ key_bytes key.now) }
{
    out.u8(key.len() as u8)?;
    out.fixed(key)
}

/// A value after its length.
#[tactic(auto, unfolding(fw_list::specs::Numbers::u16))]
fn add_value(out: &mut Writer, value: &[u8]) -> Result<(), Memory>
    requires { IsTrue (is_value value.now) }
    ensures ok { OnOk result (out.new ≡ out.old ++ value_bytes value.now) }
{
    out.u16(value.len() as u16)?;
    out.fixed(value)
}

/// Clients below 8, ascending, one byte each.
fn add_all_readers(out: &mut Writer, readers: &[u32]) -> Result<(), Memory>
    requires { IsTrue (list_all (λ c. nat_lt c 8) readers.now) }
    ensures ok { OnOk result (out.new ≡ out.old ++ readers.now) }
{
    for reader in readers {
        out.u8(*reader as u8)?;
    }
    Ok(())
}

/// Such clients after their count.
fn add_readers(out: &mut Writer, readers: &[u32]) -> Result<(), Memory>
    requires below { IsTrue (list_all (λ c. nat_lt c 8) readers.now) }
    requires ascending { IsTrue (ascending readers.now) }
    ensures ok { OnOk result (out.new ≡ out.old ++ readers_bytes readers.now) }
{
    out.u8(readers.len() as u8)?;
    add_all_readers(out, readers)
}

/// A record.
fn add_start(out: &mut Writer, start: &Start) -> Result<(), Memory>
    requires { IsTrue (start_fits 8 start.now) }
    ensures ok { OnOk result (out.new ≡ out.old ++ start_bytes start.now) }
{
    out.u8(start.owner as u8)?;
    add_key(out, start.key.items())?;
    add_value(out, start.value.items())?;
    add_readers(out, start.readers.items())
}

/// Records one after another.
fn add_each(out: &mut Writer, starts: &[Start]) -> Result<(), Memory>
    requires { IsTrue (list_all (start_fits 8) starts.now) }
    ensures ok { OnOk result (out.new ≡ out.old ++ flat_map start_bytes starts.now) }
{
    for start in starts {
        add_start(out, start)?;
    }
    Ok(())
}

/// Adds records.
pub fn add_starts(out: &mut Writer, starts: &[Start]) -> Result<(), Memory>
    requires { IsTrue (starts_fit 8 starts.now) }
    ensures ok { OnOk result (out.new ≡ out.old ++ starts_bytes starts.now) }
{
    out.u32(starts.len() as u32)?;
    add_each(out, starts)
}
