//! View changes, in order and counted.

ghost use Rattle.std.specs.Prelude.{◌≡◌, ◌<◌, ◌∷◌, [], ◌++◌, ℕ, List, map, IfOk, OnOk, OnErr, IsTrue};
ghost use Rattle.std.specs.Option.{option_copied, option_map};
ghost use Rattle.fw_base.specs.Sizes.{accepted};
ghost use Rattle.fw_frame.specs.View as frames;
ghost use Rattle.fw_means.specs.Means.{written};
ghost use Rattle.fw_view.specs.Counted.{frame_of, frame_with};
ghost use Rattle.fw_rules.specs.Agree as agree;
ghost use Rattle.fw_rules.specs.Views.{Start, joins};
ghost use Rattle.fw_owned.specs.Pieces.{change_of};
ghost use Rattle.fw_heard.specs.Changed.{first_of};

use fw_base::Params;
use fw_list::Memory;
use fw_owned::OwnedChange;
use fw_view::Changes;
use std::alloc::Global;
use std::marker::Model;

/// The view changes that it heard: in order as they came, and counted.
#[derive(Drop)]
pub struct Heard {
    alloc: Global,
    counted: Changes,
    changes: Vec<OwnedChange>,
}

impl Model for Heard {
    ghost use Rattle.std.specs.Prelude.{IsTrue, All, ◌<◌};
    ghost use Rattle.fw_base.specs.Sizes.{accepted};
    ghost use Rattle.fw_heard.specs.Changed.{HeardChanges, AreCounted};

    ghost Value = { HeardChanges };

    ghost view = { λ h. record { params = h.counted.params; changes = h.changes.items } };

    ghost invariant = { λ h. AreCounted h.counted h.changes.items × All (λ c. c.view < h.counted.params.views) h.changes.items };
}

/// Counts a view change. After want of memory the count is as before.
fn count(alloc: Global, counted: &mut Changes, change: &OwnedChange) -> Result<(), Memory>
    requires { change.now.view < counted.old.params.views }
    ensures params { counted.new.params ≡ counted.old.params }
    ensures counted { OnOk result ((view agree : ℕ) → frame_of counted.new view agree ≡ frame_with counted.old change.now.view change.now.agree (written (frames.Changes (change_of change.now))) view agree) }
    ensures err { OnErr result (counted.new ≡ counted.old) }
{
    let lent = change.lent(alloc)?;
    counted.add(&lent)?;
    Ok(())
}

impl Heard {
    /// No view changes so far.
    pub fn new(alloc: Global, params: &Params) -> Result<Heard, Memory>
        requires { IsTrue (accepted params.now) }
        ensures { IfOk result (λ heard. heard ≡ record { params = params.now; changes = [] }) }
    {
        Ok(Heard {
            alloc,
            counted: Changes::new(alloc, params)?,
            changes: Vec::new(alloc),
        })
    }

    /// The view changes, in order.
    pub fn items(&self) -> &[OwnedChange]
        ensures { result.now ≡ self.now.changes }
    {
        self.changes.as_slice()
    }

    /// Adds a view change at the end, and counts it. After want of memory all is as before.
    pub fn push(&mut self, change: OwnedChange) -> Result<(), Memory>
        requires { change.view < self.old.params.views }
        ensures ok { OnOk result (self.new ≡ record self.old { changes = self.old.changes ++ change ∷ [] }) }
        ensures err { OnErr result (self.new ≡ self.old) }
    {
        let len = self.changes.as_slice().len();
        self.changes.push(change)?;
        let counted = count(self.alloc, &mut self.counted, &self.changes[len]);
        if counted.is_err() {
            self.changes.truncate(len);
        }
        counted
    }

    /// A node's first change to a view, if it has sent one.
    pub fn first(&self, view: u32, agree: u32) -> Option<&OwnedChange>
        ensures { option_copied result ≡ first_of self.now.changes view agree }
    {
        self.changes
            .as_slice()
            .iter()
            .find(|change| change.view == view && change.agree == agree)
    }

    /// The greatest view above a node's own for which, or for more, view changes of more others were heard than can be faulty; none
    /// exactly where there is no such view.
    pub fn join(&self, view: u32, own: u32) -> Option<u32>
        ensures { (me : agree.Self (List ℕ)) (x : agree.Node) → me.means.params ≡ self.now.params → me.own ≡ own → x.own.view ≡ view → x.heard.changes ≡ map change_of self.now.changes → option_map Start result ≡ joins me x }
    {
        self.counted.join(view, own)
    }
}
