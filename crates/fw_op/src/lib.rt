//! Operations on records and the replies to them, each with one spelling in words and one in bytes. Readers take exactly the
//! spellings of what is within the limits, so what was written within the limits is read back as the same (`each` of a reader at
//! the text that a writer makes). They look at all before they copy anything: want of memory comes only where there is something
//! to copy, and never for what is no operation or no reply.
#![tactic(auto)]

mod encoding;
mod keys;
mod limits;
mod op;
mod op_bytes;
mod op_words;
mod parts;
mod reader;
mod reply;
mod reply_bytes;
mod reply_words;
mod start;
mod words;
mod writing;

pub use keys::{is_key, is_value};
pub use limits::{LONGEST_KEY, LONGEST_VALUE, MOST_NAMES};
pub use op::Op;
pub use reply::{Name, Names, Reply};
pub use start::{Clients, Start, Starts};
pub use words::{Words, client_of, number_of};
pub use writing::{add_client, add_number, add_word};
