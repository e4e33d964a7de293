//! The keys of a client, sealed bodies, and which way they go.

use fw_list::BODY_LEN;

/// The keys of one client, for what it sends and what it is answered.
#[derive(Clone, Copy)]
pub struct BodyKey {
    pub stream_key: [u8; 32],
    pub mac_key: [u8; 32],
}

/// A sealed body: the block under the stream, and the tag.
#[derive(Clone, Copy)]
pub struct Body {
    pub bytes: [u8; BODY_LEN],
}

/// Whether a body goes to the service or comes from it.
#[derive(Clone, Copy, Debug, PartialEq, Eq)]
pub enum Direction {
    Request,
    Reply,
}
