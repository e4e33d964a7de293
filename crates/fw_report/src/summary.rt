//! What a report tells.

use fw_list::Items;
use fw_op::{Op, Reply};

/// What stands at a number of the agreed list.
#[derive(Debug, Drop)]
pub enum Said {
    /// Nothing was asked.
    Null,
    /// What was asked is no operation.
    Bad,
    Op(Op),
}

/// A number of the agreed list. Where nothing was asked the client and the stamp are 0.
#[derive(Debug, Drop)]
pub struct AgreedLine {
    pub number: u32,
    pub client: u32,
    pub stamp: u32,
    pub said: Said,
}

/// A reply that a client accepted.
#[derive(Debug, Drop)]
pub struct AcceptLine {
    pub client: u32,
    pub stamp: u32,
    pub number: u32,
    pub reply: Reply,
}

/// How many replies of a number a row of filters sent downwards.
#[derive(Debug, Drop)]
pub struct CrossLine {
    pub row: u32,
    pub number: u32,
    pub copies: u32,
}

/// What a run agreed, accepted and let down.
#[derive(Debug, Drop)]
pub struct Summary {
    pub agreed: Items<AgreedLine>,
    pub accepted: Items<AcceptLine>,
    pub cross: Items<CrossLine>,
    /// Submissions to correct clients that weren't accepted.
    pub waiting: u32,
    /// Each frame between correct seats was delivered.
    pub rest: bool,
    /// The greatest view of a correct agreement node.
    pub view: u32,
    /// Deliveries, ticks and submissions.
    pub events: u32,
    /// Frames that were sent.
    pub frames: u32,
}
