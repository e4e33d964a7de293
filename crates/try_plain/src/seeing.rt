//! Who is shown a record.

use fw_list::{Bytes, Memory};
use fw_op::{add_client, add_word};
use fw_store::Store;

/// Whether a client is shown the record of an owner and a key.
fn is_shown(store: &Store, client: u32, owner: u32, key: &Bytes) -> Result<bool, Memory> {
    let view = store.visible(client)?;
    Ok(view.items().iter().any(|shown| shown.owner == owner && shown.key.items() == key.items()))
}

/// Adds the line that says which clients are shown a record.
pub fn add_shown(
    text: &mut Bytes,
    store: &Store,
    clients: u32,
    owner: u32,
    key: &Bytes,
) -> Result<(), Memory> {
    text.append(b"shown")?;
    add_client(text, owner)?;
    add_word(text, key.items())?;
    text.append(b" to")?;
    let mut nobody = true;
    for client in 0..clients {
        if is_shown(store, client, owner, key)? {
            add_client(text, client)?;
            nobody = false;
        }
    }
    if nobody {
        text.append(b" nobody")?;
    }
    text.push(b'\n')
}
