//! What a schedule may have as a step.

use fw_base::Seat;
use fw_list::{Bytes, Items};
use fw_op::{Op, Reply};

/// A step of a schedule.
#[derive(Debug, Drop)]
pub enum Step {
    /// A client's user submits an operation.
    Submit { client: u32, op: Op },
    /// A frame of the pool, counted from 0, comes to its addressee.
    Deliver { frame: u32 },
    /// Up to this many frames that were never delivered are delivered, the oldest first.
    Flush { most: u32 },
    /// A seat's clock ticks.
    Tick { seat: Seat },
    /// A faulty seat sends a frame.
    Lie { from: Seat, to: Seat, lie: Lie },
}

/// The frame that a faulty seat sends.
#[derive(Debug, Drop)]
pub enum Lie {
    /// These bytes.
    Raw {
        bytes: Bytes,
    },
    /// The bytes of a frame of the pool, counted from 0.
    Copy {
        frame: u32,
    },
    Request {
        request: LieRequest,
    },
    Propose {
        view: u32,
        number: u32,
        entry: LieEntry,
    },
    /// A prepare vote (phase 0) or a commit vote (phase 1).
    Vote {
        phase: u32,
        view: u32,
        number: u32,
        entry: LieEntry,
    },
    /// A view change without proofs.
    Change {
        view: u32,
    },
    Share {
        number: u32,
        answer: LieAnswer,
    },
    Reply {
        number: u32,
        answer: LieAnswer,
    },
}

/// What a liar asks: an operation, or a body that is none.
#[derive(Debug, Drop)]
pub enum LieOp {
    Bad,
    Op(Op),
}

/// A request that a liar makes.
#[derive(Debug, Drop)]
pub struct LieRequest {
    pub client: u32,
    pub stamp: u32,
    pub op: LieOp,
}

/// A reply that a liar makes.
#[derive(Debug, Drop)]
pub struct LieReply {
    pub client: u32,
    pub stamp: u32,
    pub reply: Reply,
}

/// The requests of an entry; none is the null entry.
pub type LieEntry = Items<LieRequest>;

/// The replies of an answer; none is the null reply.
pub type LieAnswer = Items<LieReply>;
