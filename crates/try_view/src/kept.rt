//! View changes that were added, with the sizes of their deployment.

ghost use Rattle.std.specs.Prelude.{IsTrue};
ghost use Rattle.fw_base.specs.Sizes.{accepted};
ghost use Rattle.fw_frame.specs.Writing.{IsWritableChange};

use fw_base::Params;
use fw_frame::Change;
use fw_list::Memory;
use fw_view::Changes;
use std::alloc::Global;
use std::marker::Model;

/// The view changes so far, and the sizes that they are counted for.
#[derive(Drop)]
pub struct Kept {
    params: Params,
    changes: Changes,
}

impl Model for Kept {
    ghost use Rattle.std.specs.Prelude.{◌≡◌, IsTrue};
    ghost use Rattle.fw_base.specs.Sizes.{accepted};
    ghost use Rattle.fw_view.specs.Counted.{Counted};

    ghost Value = { Counted };

    ghost view = { λ k. k.changes };

    ghost invariant = { λ k. IsTrue (accepted k.params) × (k.changes.params ≡ k.params) };
}

impl Kept {
    /// No view changes, for these sizes.
    pub fn new(alloc: Global, params: &Params) -> Result<Kept, Memory>
        requires { IsTrue (accepted params.now) }
    {
        Ok(Kept {
            params: *params,
            changes: Changes::new(alloc, params)?,
        })
    }

    /// The sizes.
    pub fn params(&self) -> Params
        ensures { IsTrue (accepted result) }
    {
        self.params
    }

    /// Adds a view change: whether it is the first of its node to its view, or nothing where there is no such view.
    pub fn add(&mut self, change: &Change<'_>) -> Result<Option<bool>, Memory>
        requires { IsWritableChange change.now }
    {
        if change.view >= self.params.views {
            return Ok(None);
        }
        let is_first = self.changes.add(change)?;
        Ok(Some(is_first))
    }

    /// The view changes.
    pub fn changes(&self) -> &Changes {
        &self.changes
    }
}
