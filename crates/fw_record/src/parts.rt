//! A record whose parts still lie where they were read, so that all is looked at before anything is copied.

ghost use Rattle.std.specs.Prelude.{◌≡◌, ◌++◌, take, IfOk};
ghost use Rattle.fw_record.specs.Parts.{plain_start};

use fw_list::{Bytes, Memory};
use fw_op::{Clients, Start};
use std::alloc::Global;

/// A record in bytes: each reader is one byte.
#[derive(Clone, Copy)]
pub(crate) struct StartParts<'a> {
    pub owner: u32,
    pub key: &'a [u8],
    pub value: &'a [u8],
    pub readers: &'a [u8],
}

/// The clients that the bytes are.
fn copy_readers(alloc: Global, readers: &[u8]) -> Result<Clients, Memory>
    ensures { IfOk result (λ copy. copy ≡ readers.now) }
{
    let mut copy = Clients::new(alloc);
    for reader in readers {
        copy.push(u32::from(*reader))?;
    }
    Ok(copy)
}

impl StartParts<'_> {
    /// The record, with parts of its own.
    pub(crate) fn own(self, alloc: Global) -> Result<Start, Memory>
        ensures { IfOk result (λ start. start ≡ plain_start self.entry) }
    {
        Ok(Start {
            owner: self.owner,
            key: Bytes::copy_of(alloc, self.key)?,
            value: Bytes::copy_of(alloc, self.value)?,
            readers: copy_readers(alloc, self.readers)?,
        })
    }
}
