//! Operations: read from words and from bytes, and written in both.

ghost use Rattle.std.specs.Prelude.{◌≡◌, ◌≢◌, ◌≤◌, ◌++◌, [], length, Some, IfOk, OnOk, OnErr, IfSome, IfNone, IsTrue};
ghost use Rattle.fw_list.specs.declared.limits.TheConstants.{LONGEST_TEXT};
ghost use Rattle.fw_op.specs.Ops.{op_words, op_text, op_bytes, op_fits, is_keyed, IsOpText, IsOpBytes, AreOfKeyedOp, IsKeyedText, AreOfKeyed};
ghost use Rattle.fw_op.specs.Reading.{op_in};

use crate::encoding::{add_key, add_owner, add_value};
use crate::op_bytes::op_in;
use crate::op_words::op_of;
use crate::words::Words;
use crate::writing::{add_client, add_word};
use fw_list::{Bytes, Memory};
use std::alloc::Global;

/// What a client asks of the records.
#[derive(Debug, Drop)]
pub enum Op {
    /// Gives the caller's record of this key a value.
    Put { key: Bytes, value: Bytes },
    /// Reads the value of an owner's record.
    Get { owner: u32, key: Bytes },
    /// Removes the caller's record.
    Del { key: Bytes },
    /// Gives the caller's record a new value where it has the old one.
    Cas { key: Bytes, old: Bytes, new: Bytes },
    /// Lets a client read the caller's record.
    Grant { key: Bytes, client: u32 },
    /// Takes that away.
    Revoke { key: Bytes, client: u32 },
    /// Counts the records that the caller owns or reads.
    Count,
    /// Names them.
    Keys,
}

impl Op {
    /// The same operation.
    pub fn copy(&self, alloc: Global) -> Result<Op, Memory>
        ensures ok { IfOk result (λ op. op ≡ self.now) }
        ensures memory { OnErr result (IsTrue (is_keyed self.now)) }
    {
        match self {
            Op::Put { key, value } => Ok(Op::Put {
                key: Bytes::copy_of(alloc, key.items())?,
                value: Bytes::copy_of(alloc, value.items())?,
            }),
            Op::Get { owner, key } => Ok(Op::Get {
                owner: *owner,
                key: Bytes::copy_of(alloc, key.items())?,
            }),
            Op::Del { key } => Ok(Op::Del {
                key: Bytes::copy_of(alloc, key.items())?,
            }),
            Op::Cas { key, old, new } => Ok(Op::Cas {
                key: Bytes::copy_of(alloc, key.items())?,
                old: Bytes::copy_of(alloc, old.items())?,
                new: Bytes::copy_of(alloc, new.items())?,
            }),
            Op::Grant { key, client } => Ok(Op::Grant {
                key: Bytes::copy_of(alloc, key.items())?,
                client: *client,
            }),
            Op::Revoke { key, client } => Ok(Op::Revoke {
                key: Bytes::copy_of(alloc, key.items())?,
                client: *client,
            }),
            Op::Count => Ok(Op::Count),
            Op::Keys => Ok(Op::Keys),
        }
    }

    /// The operation that all words that are left are, where there are so many clients, or none. No word is left then.
    pub fn from_words(
        alloc: Global,
        clients: u32,
        words: &mut Words<'_>,
    ) -> Result<Option<Op>, Memory>
        ensures found { IfOk result (λ found. IfSome found (λ op. (words.old ≡ op_words op) × IsTrue (op_fits clients op))) }
        ensures none { IfOk result (λ found. IfNone found ((op : Op) → IsTrue (op_fits clients op) → words.old ≢ op_words op)) }
        ensures memory { OnErr result (AreOfKeyedOp clients words.old) }
        ensures left { words.new ≡ [] }
    {
        op_of(alloc, clients, words.all())
    }

    /// The operation of which this is the text, or none.
    pub fn read_words(alloc: Global, text: &str) -> Result<Option<Op>, Memory>
        ensures found { IfOk result (λ found. IfSome found (λ op. IsOpText text.now op)) }
        ensures each { IfOk result (λ found. (op : Op) → IsOpText text.now op → found ≡ Some op) }
        ensures memory { OnErr result (IsKeyedText text.now) }
    {
        op_of(alloc, 8, Words::of(text))
    }

    /// The operation of which these are the bytes, or none.
    pub fn read_bytes(alloc: Global, bytes: &[u8]) -> Result<Option<Op>, Memory>
        ensures found { IfOk result (λ found. IfSome found (λ op. IsOpBytes bytes.now op)) }
        ensures each { IfOk result (λ found. (op : Op) → IsOpBytes bytes.now op → found ≡ Some op) }
        ensures value { IfOk result (λ found. found ≡ op_in bytes.now) }
        ensures memory { OnErr result (AreOfKeyed bytes.now) }
    {
        op_in(alloc, bytes)
    }

    /// Adds the text of the operation.
    fn write(&self, text: &mut Bytes) -> Result<(), Memory>
        ensures ok { OnOk result (text.new ≡ text.old ++ op_text self.now) }
    {
        match self {
            Op::Put { key, value } => {
                text.append(b"put")?;
                add_word(text, key.items())?;
                add_word(text, value.items())
            }
            Op::Get { owner, key } => {
                text.append(b"get")?;
                add_client(text, *owner)?;
                add_word(text, key.items())
            }
            Op::Del { key } => {
                text.append(b"del")?;
                add_word(text, key.items())
            }
            Op::Cas { key, old, new } => {
                text.append(b"cas")?;
                add_word(text, key.items())?;
                add_word(text, old.items())?;
                add_word(text, new.items())
            }
            Op::Grant { key, client } => {
                text.append(b"grant")?;
                add_word(text, key.items())?;
                add_client(text, *client)
            }
            Op::Revoke { key, client } => {
                text.append(b"revoke")?;
                add_word(text, key.items())?;
                add_client(text, *client)
            }
            Op::Count => text.append(b"count"),
            Op::Keys => text.append(b"keys"),
        }
    }

    /// The text of the operation.
    pub fn words(&self, alloc: Global) -> Result<Bytes, Memory>
        ensures { IfOk result (λ text. text ≡ op_text self.now) }
    {
        let mut text = Bytes::new(alloc);
        self.write(&mut text)?;
        Ok(text)
    }

    /// Adds the bytes of the operation.
    fn encode(&self, bytes: &mut Bytes) -> Result<(), Memory>
        requires { IsTrue (op_fits 8 self.now) }
        ensures ok { OnOk result (bytes.new ≡ bytes.old ++ op_bytes self.now) }
    {
        match self {
            Op::Put { key, value } => {
                bytes.push(1)?;
                add_key(bytes, key.items())?;
                add_value(bytes, value.items())
            }
            Op::Get { owner, key } => {
                bytes.push(2)?;
                add_owner(bytes, *owner)?;
                add_key(bytes, key.items())
            }
            Op::Del { key } => {
                bytes.push(3)?;
                add_key(bytes, key.items())
            }
            Op::Cas { key, old, new } => {
                bytes.push(4)?;
                add_key(bytes, key.items())?;
                add_value(bytes, old.items())?;
                add_value(bytes, new.items())
            }
            Op::Grant { key, client } => {
                bytes.push(5)?;
                add_key(bytes, key.items())?;
                add_owner(bytes, *client)
            }
            Op::Revoke { key, client } => {
                bytes.push(6)?;
                add_key(bytes, key.items())?;
                add_owner(bytes, *client)
            }
            Op::Count => bytes.push(7),
            Op::Keys => bytes.push(8),
        }
    }

    /// The bytes of the operation.
    pub fn bytes(&self, alloc: Global) -> Result<Bytes, Memory>
        requires { IsTrue (op_fits 8 self.now) }
        ensures spelled { IfOk result (λ bytes. bytes ≡ op_bytes self.now) }
        ensures short { IfOk result (λ bytes. length bytes ≤ LONGEST_TEXT) }
    {
        let mut bytes = Bytes::new(alloc);
        self.encode(&mut bytes)?;
        Ok(bytes)
    }
}
