//! View changes and new views, kept; the entries of their proofs are seen.

ghost use Rattle.std.specs.Prelude.{◌≡◌, ◌<◌, ◌++◌, ℕ, All, map, OnOk};
ghost use Rattle.fw_base.specs.declared.params.Params.{Params};
ghost use Rattle.fw_frame.specs.Plain.{plain_proof, plain_change};
ghost use Rattle.fw_frame.specs.View.{viewed_proof, viewed_change};
ghost use Rattle.fw_frame.specs.Writing.{IsCountable, IsWritableChange};
ghost use Rattle.fw_rules.specs.Views as views;
ghost use Rattle.fw_owned.specs.Pieces.{entry_of};
ghost use Rattle.fw_kept.specs.Kept.{node_of, IsFor};

use fw_frame::{Change, Proof};
use fw_kept::Keeps;
use fw_list::{Bytes, Items, Memory};
use fw_owned::{OwnedChange, OwnedEntry, OwnedNewView, owned_changes};
use std::alloc::Global;

/// Sees the entries of these proofs.
fn sees_proofs(
    alloc: Global,
    seen: &mut Items<OwnedEntry>,
    proofs: &[Proof<'_>],
) -> Result<(), Memory>
    ensures { OnOk result (map entry_of seen.new ≡ map entry_of seen.old ++ map (λ q. q.entry) (map viewed_proof (map plain_proof proofs.now))) }
{
    for proof in proofs {
        seen.push(OwnedEntry::copy_of(alloc, &proof.entry)?)?;
    }
    Ok(())
}

/// Sees the entries of the proofs of these view changes.
fn sees_changes(
    alloc: Global,
    seen: &mut Items<OwnedEntry>,
    changes: &[Change<'_>],
) -> Result<(), Memory>
    ensures { OnOk result (map entry_of seen.new ≡ map entry_of seen.old ++ views.entries_of (map viewed_change (map plain_change changes.now))) }
{
    for change in changes {
        sees_proofs(alloc, seen, change.proofs.items())?;
    }
    Ok(())
}

/// Keeps a view change, and sees the entries of its proofs.
pub fn hears_change(alloc: Global, keeps: &mut Keeps, change: &Change<'_>) -> Result<(), Memory>
    requires writable { IsWritableChange change.now }
    requires view { change.now.view < keeps.old.changes.params.views }
    ensures kept { OnOk result (node_of keeps.new ≡ views.hears_change (node_of keeps.old) (viewed_change (plain_change change.now))) }
    ensures sizes { (p : Params) → IsFor p keeps.old → IsFor p keeps.new }
{
    sees_proofs(alloc, &mut keeps.seen, change.proofs.items())?;
    keeps.changes.push(OwnedChange::copy_of(alloc, change)?)
}

/// Keeps a new view, and sees the entries of the proofs of its view changes.
pub fn hears_new_view(
    alloc: Global,
    keeps: &mut Keeps,
    view: u32,
    changes: &[Change<'_>],
    sig: &[u8],
) -> Result<(), Memory>
    requires few { IsCountable changes.now }
    requires writable { All IsWritableChange changes.now }
    ensures kept { OnOk result (node_of keeps.new ≡ views.hears_new_view (node_of keeps.old) (record { view = view; changes = map viewed_change (map plain_change changes.now); sig = sig.now })) }
    ensures sizes { (p : Params) → IsFor p keeps.old → IsFor p keeps.new }
{
    sees_changes(alloc, &mut keeps.seen, changes)?;
    keeps.new_views.push(OwnedNewView {
        view,
        changes: owned_changes(alloc, changes)?,
        sig: Bytes::copy_of(alloc, sig)?,
    })
}
