//! The nine frames, as they borrow the bytes that they were read from.

use fw_list::Items;

/// A client's request: its operation is sealed in the body (of `BODY_LEN` bytes), and the signature (256 values of 32 bytes) is the
/// client's.
#[derive(Clone, Copy)]
pub struct Request<'a> {
    pub client: u32,
    pub stamp: u32,
    pub body: &'a [u8],
    pub sig: &'a [u8],
}

/// What stands at a number of the list.
#[derive(Clone, Copy)]
pub enum Entry<'a> {
    Null,
    Request(Request<'a>),
}

/// The signature of an agreement node.
#[derive(Clone, Copy)]
pub struct Signer<'a> {
    pub agree: u32,
    pub sig: &'a [u8],
}

/// Signatures, ascending by node.
pub type Signers<'a> = Items<Signer<'a>>;

/// Prepare votes of a quorum for an entry at a number, in a view.
#[derive(Drop)]
pub struct Proof<'a> {
    pub view: u32,
    pub number: u32,
    pub entry: Entry<'a>,
    pub signers: Signers<'a>,
}

/// Proofs, ascending by number.
pub type ProofList<'a> = Items<Proof<'a>>;

/// An agreement node's change to a view, with a proof for each number at which it was prepared.
#[derive(Drop)]
pub struct Change<'a> {
    pub view: u32,
    pub agree: u32,
    pub proofs: ProofList<'a>,
    pub sig: &'a [u8],
}

/// View changes, ascending by node.
pub type ChangeList<'a> = Items<Change<'a>>;

/// What passes over a link.
#[derive(Drop)]
pub enum Frame<'a> {
    Request(Request<'a>),
    Propose {
        view: u32,
        number: u32,
        entry: Entry<'a>,
        sig: &'a [u8],
    },
    /// A vote for the entry of this digest: prepare (phase 0) or commit (phase 1).
    Vote {
        phase: u32,
        view: u32,
        number: u32,
        agree: u32,
        digest: &'a [u8],
        sig: &'a [u8],
    },
    Change(Change<'a>),
    NewView {
        view: u32,
        changes: ChangeList<'a>,
        sig: &'a [u8],
    },
    /// An entry with the commit votes of a quorum.
    Agreed {
        view: u32,
        number: u32,
        entry: Entry<'a>,
        signers: Signers<'a>,
    },
    /// An executor's share of the reply to a number.
    Share {
        number: u32,
        exec: u32,
        client: u32,
        stamp: u32,
        body: &'a [u8],
        shares: &'a [u8],
    },
    /// The reply to a number, with the secrets that certify it.
    Reply {
        number: u32,
        client: u32,
        stamp: u32,
        body: &'a [u8],
        secrets: &'a [u8],
    },
    /// An executor lacks the entry at a number.
    Want {
        number: u32,
    },
}
