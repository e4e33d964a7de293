//! The new views that were adopted.

ghost use Rattle.std.specs.Prelude.{◌≡◌, ◌≤◌, [], ◌∷◌, map, OnOk, OnErr};
ghost use Rattle.std.specs.Option.{option_copied, option_map};
ghost use Rattle.fw_rules.specs.Agree.{top};
ghost use Rattle.fw_owned.specs.Pieces.{entry_of};
ghost use Rattle.fw_adopted.specs.Plans.{last_of, planned, plan};

use crate::plan::{plan_of, top_of};
use fw_list::{Items, Memory};
use fw_owned::{OwnedChanges, OwnedEntry};
use std::alloc::Global;
use std::marker::Model;

/// A new view that was adopted: its view, and the view changes that began it.
#[derive(Drop)]
pub struct OwnedAdopted {
    pub view: u32,
    pub changes: OwnedChanges,
}

/// The new views that were adopted; contracts see them with the newest first.
#[derive(Drop)]
pub struct Adoptions {
    alloc: Global,
    adopted: Vec<OwnedAdopted>,
    last: u32,
    entries: Items<OwnedEntry>,
}

impl Model for Adoptions {
    ghost use Rattle.std.specs.Prelude.{List, reverse};
    ghost use Rattle.fw_adopted.specs.declared.adoptions.OwnedAdopted.{OwnedAdopted};
    ghost use Rattle.fw_adopted.specs.Plans.{last_of, IsPlan};

    ghost Value = { List OwnedAdopted };

    ghost view = { λ a. reverse a.adopted.items };

    ghost invariant = { λ a. IsPlan (last_of (reverse a.adopted.items)) a.last a.entries };
}

impl Adoptions {
    /// No new view so far: nothing is chosen.
    pub fn new(alloc: Global) -> Adoptions
        ensures { result ≡ [] }
    {
        Adoptions {
            alloc,
            adopted: Vec::new(alloc),
            last: 0,
            entries: Items::new(alloc),
        }
    }

    /// Adopts a new view, whose view changes these are. After want of memory all is as before.
    pub fn adopt(&mut self, view: u32, changes: OwnedChanges) -> Result<(), Memory>
        ensures ok { OnOk result (self.new ≡ record { view = view; changes = changes } ∷ self.old) }
        ensures err { OnErr result (self.new ≡ self.old) }
    {
        let last = top_of(changes.items());
        let entries = plan_of(self.alloc, &changes, last)?;
        self.adopted.push(OwnedAdopted { view, changes })?;
        self.last = last;
        self.entries = entries;
        Ok(())
    }

    /// The greatest number at which the last new view has a proof, or 0.
    pub fn top(&self) -> u32
        ensures { result ≡ top (last_of self.now) }
    {
        self.last
    }

    /// What the last new view chooses at a number, from 1; none exactly where the number is above all of its proofs.
    pub fn choice_at(&self, number: u32) -> Option<&OwnedEntry>
        requires { 1 ≤ number }
        ensures { option_map entry_of (option_copied result) ≡ planned (last_of self.now) number }
    {
        self.entries.at(number as usize - 1)
    }

    /// What the last new view chooses, from number 1 to the greatest that has a proof.
    pub fn choices(&self) -> &[OwnedEntry]
        ensures { map entry_of result.now ≡ plan (last_of self.now) }
    {
        self.entries.items()
    }
}
