//! Operations and names whose keys and values still lie where they were read, so that all is looked at before anything is copied.

ghost use Rattle.std.specs.Prelude.{◌≡◌, IfOk, OnErr, IsTrue};
ghost use Rattle.fw_op.specs.Ops.{is_keyed};
ghost use Rattle.fw_op.specs.Parts.{plain_op, plain_name};

use crate::{Name, Op};
use fw_list::{Bytes, Memory};
use std::alloc::Global;

/// The name of a record.
#[derive(Clone, Copy)]
pub(crate) struct NameParts<'a> {
    pub owner: u32,
    pub key: &'a [u8],
}

impl NameParts<'_> {
    /// The name, with a key of its own.
    pub(crate) fn own(self, alloc: Global) -> Result<Name, Memory>
        ensures { IfOk result (λ name. name ≡ plain_name self.entry) }
    {
        Ok(Name {
            owner: self.owner,
            key: Bytes::copy_of(alloc, self.key)?,
        })
    }
}

/// An operation.
#[derive(Clone, Copy)]
pub(crate) enum OpParts<'a> {
    Put {
        key: &'a [u8],
        value: &'a [u8],
    },
    Get {
        owner: u32,
        key: &'a [u8],
    },
    Del {
        key: &'a [u8],
    },
    Cas {
        key: &'a [u8],
        old: &'a [u8],
        new: &'a [u8],
    },
    Grant {
        key: &'a [u8],
        client: u32,
    },
    Revoke {
        key: &'a [u8],
        client: u32,
    },
    Count,
    Keys,
}

impl OpParts<'_> {
    /// The operation, with parts of its own.
    pub(crate) fn own(self, alloc: Global) -> Result<Op, Memory>
        ensures ok { IfOk result (λ op. op ≡ plain_op self.entry) }
        ensures memory { OnErr result (IsTrue (is_keyed (plain_op self.entry))) }
    {
        match self {
            OpParts::Put { key, value } => Ok(Op::Put {
                key: Bytes::copy_of(alloc, key)?,
                value: Bytes::copy_of(alloc, value)?,
            }),
            OpParts::Get { owner, key } => Ok(Op::Get {
                owner,
                key: Bytes::copy_of(alloc, key)?,
            }),
            OpParts::Del { key } => Ok(Op::Del {
                key: Bytes::copy_of(alloc, key)?,
            }),
            OpParts::Cas { key, old, new } => Ok(Op::Cas {
                key: Bytes::copy_of(alloc, key)?,
                old: Bytes::copy_of(alloc, old)?,
                new: Bytes::copy_of(alloc, new)?,
            }),
            OpParts::Grant { key, client } => Ok(Op::Grant {
                key: Bytes::copy_of(alloc, key)?,
                client,
            }),
            OpParts::Revoke { key, client } => Ok(Op::Revoke {
                key: Bytes::copy_of(alloc, key)?,
                client,
            }),
            OpParts::Count => Ok(Op::Count),
            OpParts::Keys => Ok(Op::Keys),
        }
    }
}
