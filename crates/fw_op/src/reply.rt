//! Replies: read from words and from bytes, and written in both.

ghost use Rattle.std.specs.Prelude.{◌≡◌, ◌≢◌, ◌≤◌, ◌++◌, List, [], length, Some, IfOk, OnOk, OnErr, IfSome, IfNone, IsTrue};
ghost use Rattle.fw_list.specs.declared.limits.TheConstants.{LONGEST_TEXT};
ghost use Rattle.fw_op.specs.Replies.{reply_words, reply_text, reply_bytes, reply_fits, has_bytes, is_telling, IsReplyText, IsReplyBytes, AreOfTellingReply, IsTellingText, AreOfTelling};
ghost use Rattle.fw_op.specs.Reading.{reply_in};

use crate::encoding::{add_all_names, add_value};
use crate::reply_bytes::reply_in;
use crate::reply_words::reply_of;
use crate::words::Words;
use crate::writing::{add_keys, add_number, add_word};
use fw_list::{Bytes, Items, Memory};
use std::alloc::Global;

/// The name of a record.
#[derive(Debug, Drop)]
pub struct Name {
    pub owner: u32,
    pub key: Bytes,
}

/// Names in order of owner and key.
pub type Names = Items<Name>;

/// What the service replies.
#[derive(Debug, Drop)]
pub enum Reply {
    Done,
    Value { value: Bytes },
    /// There is no such record, or none that the caller may see.
    Absent,
    /// The record has another value than the one asked for.
    Differs,
    Count { count: u32 },
    Keys { names: Names },
    /// What was asked is no operation.
    Bad,
    /// The stamp is below one that was answered.
    Old,
    /// The reply to nothing.
    Null,
}

impl Name {
    /// The same name.
    pub fn copy(&self, alloc: Global) -> Result<Name, Memory>
        ensures { IfOk result (λ name. name ≡ self.now) }
    {
        Ok(Name {
            owner: self.owner,
            key: Bytes::copy_of(alloc, self.key.items())?,
        })
    }
}

/// The same names.
fn copy_names(alloc: Global, names: &[Name]) -> Result<Names, Memory>
    ensures { IfOk result (λ copy. copy ≡ names.now) }
{
    let mut copy = Names::new(alloc);
    for name in names {
        copy.push(name.copy(alloc)?)?;
    }
    Ok(copy)
}

impl Reply {
    /// The same reply.
    pub fn copy(&self, alloc: Global) -> Result<Reply, Memory>
        ensures ok { IfOk result (λ reply. reply ≡ self.now) }
        ensures memory { OnErr result (IsTrue (is_telling self.now)) }
    {
        match self {
            Reply::Done => Ok(Reply::Done),
            Reply::Value { value } => Ok(Reply::Value {
                value: Bytes::copy_of(alloc, value.items())?,
            }),
            Reply::Absent => Ok(Reply::Absent),
            Reply::Differs => Ok(Reply::Differs),
            Reply::Count { count } => Ok(Reply::Count { count: *count }),
            Reply::Keys { names } => Ok(Reply::Keys {
                names: copy_names(alloc, names.items())?,
            }),
            Reply::Bad => Ok(Reply::Bad),
            Reply::Old => Ok(Reply::Old),
            Reply::Null => Ok(Reply::Null),
        }
    }

    /// The reply that all words that are left are, where there are so many clients, or none. No word is left then.
    pub fn from_words(
        alloc: Global,
        clients: u32,
        words: &mut Words<'_>,
    ) -> Result<Option<Reply>, Memory>
        ensures found { IfOk result (λ found. IfSome found (λ reply. (words.old ≡ reply_words reply) × IsTrue (reply_fits clients reply))) }
        ensures none { IfOk result (λ found. IfNone found ((reply : Reply) → IsTrue (reply_fits clients reply) → words.old ≢ reply_words reply)) }
        ensures memory { OnErr result (AreOfTellingReply clients words.old) }
        ensures left { words.new ≡ [] }
    {
        reply_of(alloc, clients, &mut words.all())
    }

    /// The reply of which this is the text, or none.
    pub fn read_words(alloc: Global, text: &str) -> Result<Option<Reply>, Memory>
        ensures found { IfOk result (λ found. IfSome found (λ reply. IsReplyText text.now reply)) }
        ensures each { IfOk result (λ found. (reply : Reply) → IsReplyText text.now reply → found ≡ Some reply) }
        ensures memory { OnErr result (IsTellingText text.now) }
    {
        let mut words = Words::of(text);
        reply_of(alloc, 8, &mut words)
    }

    /// The reply of which these are the bytes, or none; never the reply to nothing.
    pub fn read_bytes(alloc: Global, bytes: &[u8]) -> Result<Option<Reply>, Memory>
        ensures found { IfOk result (λ found. IfSome found (λ reply. IsReplyBytes bytes.now reply)) }
        ensures each { IfOk result (λ found. (reply : Reply) → IsReplyBytes bytes.now reply → found ≡ Some reply) }
        ensures value { IfOk result (λ found. found ≡ reply_in bytes.now) }
        ensures memory { OnErr result (AreOfTelling bytes.now) }
    {
        reply_in(alloc, bytes)
    }

    /// Adds the text of the reply.
    fn write(&self, text: &mut Bytes) -> Result<(), Memory>
        ensures ok { OnOk result (text.new ≡ text.old ++ reply_text self.now) }
    {
        match self {
            Reply::Done => text.append(b"done"),
            Reply::Value { value } => {
                text.append(b"value")?;
                add_word(text, value.items())
            }
            Reply::Absent => text.append(b"none"),
            Reply::Differs => text.append(b"differs"),
            Reply::Count { count } => {
                text.append(b"count")?;
                add_number(text, *count)
            }
            Reply::Keys { names } => add_keys(text, names.items()),
            Reply::Bad => text.append(b"bad"),
            Reply::Old => text.append(b"old"),
            Reply::Null => text.append(b"null"),
        }
    }

    /// The text of the reply.
    pub fn words(&self, alloc: Global) -> Result<Bytes, Memory>
        ensures { IfOk result (λ text. text ≡ reply_text self.now) }
    {
        let mut text = Bytes::new(alloc);
        self.write(&mut text)?;
        Ok(text)
    }

    /// Adds the bytes of the reply.
    fn encode(&self, bytes: &mut Bytes) -> Result<(), Memory>
        requires { IsTrue (reply_fits 8 self.now) }
        ensures ok { OnOk result (bytes.new ≡ bytes.old ++ reply_bytes self.now) }
    {
        match self {
            Reply::Done => bytes.push(1),
            Reply::Value { value } => {
                bytes.push(2)?;
                add_value(bytes, value.items())
            }
            Reply::Absent => bytes.push(3),
            Reply::Differs => bytes.push(4),
            Reply::Count { count } => {
                bytes.push(5)?;
                bytes.append(&count.to_be_bytes())
            }
            Reply::Keys { names } => {
                bytes.push(6)?;
                bytes.push(names.len() as u8)?;
                add_all_names(bytes, names.items())
            }
            Reply::Bad => bytes.push(7),
            Reply::Old => bytes.push(8),
            Reply::Null => Ok(()),
        }
    }

    /// The bytes of the reply.
    pub fn bytes(&self, alloc: Global) -> Result<Bytes, Memory>
        requires fits { IsTrue (reply_fits 8 self.now) }
        requires said { IsTrue (has_bytes self.now) }
        ensures spelled { IfOk result (λ bytes. bytes ≡ reply_bytes self.now) }
        ensures short { IfOk result (λ bytes. length bytes ≤ LONGEST_TEXT) }
    {
        let mut bytes = Bytes::new(alloc);
        self.encode(&mut bytes)?;
        Ok(bytes)
    }
}
