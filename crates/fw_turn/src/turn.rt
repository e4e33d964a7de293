//! Turns of the view.

use fw_owned::OwnedChanges;

/// What turns the view.
#[derive(Drop)]
pub enum Turn {
    /// A new view that it heard is adopted.
    Adopt { view: u32, changes: OwnedChanges },
    /// Its view change to a view.
    Start(u32),
    /// The new view of its view that it makes as primary.
    Make(OwnedChanges),
}
