//! Records.

ghost use Rattle.std.specs.Prelude.{◌≡◌, List, ℕ, IfOk};

use fw_list::{Bytes, Items, Memory};
use std::alloc::Global;

/// Clients by number, ascending, none twice.
pub type Clients = Items<u32>;

/// A record: who owns it, and who else may read it.
#[derive(Debug, Drop)]
pub struct Start {
    pub owner: u32,
    pub key: Bytes,
    pub value: Bytes,
    pub readers: Clients,
}

/// Records.
pub type Starts = Items<Start>;

/// The same clients.
fn copy_clients(alloc: Global, clients: &[u32]) -> Result<Clients, Memory>
    ensures { IfOk result (λ copy. copy ≡ clients.now) }
{
    let mut copy = Clients::new(alloc);
    for client in clients {
        copy.push(*client)?;
    }
    Ok(copy)
}

impl Start {
    /// The same record.
    pub fn copy(&self, alloc: Global) -> Result<Start, Memory>
        ensures { IfOk result (λ start. start ≡ self.now) }
    {
        Ok(Start {
            owner: self.owner,
            key: Bytes::copy_of(alloc, self.key.items())?,
            value: Bytes::copy_of(alloc, self.value.items())?,
            readers: copy_clients(alloc, self.readers.items())?,
        })
    }
}
