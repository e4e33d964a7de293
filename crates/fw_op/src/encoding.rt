//! Keys, values, clients and names, added to bytes.

ghost use Rattle.std.specs.Prelude.{◌≡◌, ◌<◌, ◌++◌, [], ◌∷◌, length, OnOk, IsTrue};
ghost use Rattle.std.specs.List.{list_all, flat_map};
ghost use Rattle.fw_op.specs.Keys.{is_key, is_value, key_bytes, value_bytes};
ghost use Rattle.fw_op.specs.Replies.{name_bytes, name_fits};

use crate::Name;
use fw_list::{Bytes, Memory};

/// A key after its length.
pub(crate) fn add_key(bytes: &mut Bytes, key: &[u8]) -> Result<(), Memory>
    requires { IsTrue (is_key key.now) }
    ensures ok { OnOk result (bytes.new ≡ bytes.old ++ key_bytes key.now) }
{
    bytes.push(key.len() as u8)?;
    bytes.append(key)
}

/// A value after its length.
pub(crate) fn add_value(bytes: &mut Bytes, value: &[u8]) -> Result<(), Memory>
    requires { IsTrue (is_value value.now) }
    ensures ok { OnOk result (bytes.new ≡ bytes.old ++ value_bytes value.now) }
{
    bytes.append(&(value.len() as u16).to_be_bytes())?;
    bytes.append(value)
}

/// A client of 8.
pub(crate) fn add_owner(bytes: &mut Bytes, client: u32) -> Result<(), Memory>
    requires { client < 8 }
    ensures ok { OnOk result (bytes.new ≡ bytes.old ++ client ∷ []) }
{
    bytes.push(client as u8)
}

/// The name of a record.
fn add_name_bytes(bytes: &mut Bytes, name: &Name) -> Result<(), Memory>
    requires { IsTrue (name_fits 8 name.now) }
    ensures ok { OnOk result (bytes.new ≡ bytes.old ++ name_bytes name.now) }
{
    add_owner(bytes, name.owner)?;
    add_key(bytes, name.key.items())
}

/// Names.
pub(crate) fn add_all_names(bytes: &mut Bytes, names: &[Name]) -> Result<(), Memory>
    requires { IsTrue (list_all (name_fits 8) names.now) }
    ensures ok { OnOk result (bytes.new ≡ bytes.old ++ flat_map name_bytes names.now) }
{
    for name in names {
        add_name_bytes(bytes, name)?;
    }
    Ok(())
}
