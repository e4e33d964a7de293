//! Words added to a text.

ghost use Rattle.std.specs.Prelude.{◌≡◌, [], ◌∷◌, ◌++◌, OnOk, OnErr, codes, decimal, map};
ghost use Rattle.std.specs.List.{flat_map};
ghost use Rattle.fw_op.specs.Words.{sentence, following, client_word};
ghost use Rattle.fw_op.specs.Replies.{name_word};

use crate::Name;
use fw_list::{Bytes, Memory};

/// Adds a blank and a word.
pub fn add_word(text: &mut Bytes, word: &[u8]) -> Result<(), Memory>
    ensures ok { OnOk result (text.new ≡ text.old ++ following (word.now ∷ [])) }
    ensures err { OnErr result (text.new ≡ text.old) }
{
    let len = text.len();
    text.push(b' ')?;
    match text.append(word) {
        Ok(()) => Ok(()),
        Err(memory) => {
            text.truncate(len);
            Err(memory)
        }
    }
}

/// Adds a blank and a number.
pub fn add_number(text: &mut Bytes, number: u32) -> Result<(), Memory>
    ensures ok { OnOk result (text.new ≡ text.old ++ following (decimal number ∷ [])) }
    ensures err { OnErr result (text.new ≡ text.old) }
{
    text.append_lettered(b' ', number)
}

/// Adds a blank and a client's word.
pub fn add_client(text: &mut Bytes, client: u32) -> Result<(), Memory>
    ensures ok { OnOk result (text.new ≡ text.old ++ following (client_word client ∷ [])) }
    ensures err { OnErr result (text.new ≡ text.old) }
{
    let len = text.len();
    text.push(b' ')?;
    match text.append_lettered(b'c', client) {
        Ok(()) => Ok(()),
        Err(memory) => {
            text.truncate(len);
            Err(memory)
        }
    }
}

/// A blank and the name of a record.
fn add_name(text: &mut Bytes, name: &Name) -> Result<(), Memory>
    ensures ok { OnOk result (text.new ≡ text.old ++ 32 ∷ name_word name.now) }
{
    add_client(text, name.owner)?;
    text.push(b'/')?;
    text.append(name.key.items())
}

/// Names, each after a blank.
fn add_names(text: &mut Bytes, names: &[Name]) -> Result<(), Memory>
    ensures ok { OnOk result (text.new ≡ text.old ++ flat_map (λ name. 32 ∷ name_word name) names.now) }
{
    for name in names {
        add_name(text, name)?;
    }
    Ok(())
}

/// The word `keys` and names, each after a blank.
pub(crate) fn add_keys(text: &mut Bytes, names: &[Name]) -> Result<(), Memory>
    ensures ok { OnOk result (text.new ≡ text.old ++ sentence (codes "keys" ∷ map name_word names.now)) }
{
    text.append(b"keys")?;
    add_names(text, names)
}
