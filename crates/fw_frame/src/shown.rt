//! What a frame carries and the texts that it has, as its callers see them.

use fw_base::Place;
use fw_list::{Bytes, Items};

/// A value with the place that it is carried for.
#[derive(Clone, Copy)]
pub struct Shown {
    pub place: Place,
    pub value: [u8; 32],
}

/// What a frame carries, in its order.
pub type Carried = Items<Shown>;

/// A hashed text, its tag first, and its digest.
#[derive(Drop)]
pub struct Text {
    pub digest: [u8; 32],
    pub text: Bytes,
}

/// The hashed texts of a frame, in its order.
pub type TextList = Items<Text>;
