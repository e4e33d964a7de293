//! The choice of a new view: for a number, the first proof of the greatest view among its view changes.

ghost use Rattle.std.specs.Prelude.{◌≡◌, ◌<◌, ◌+◌, length, take, All, Option};
ghost use Rattle.fw_frame.specs.Writing.{IsCountable, IsWritableChange};
ghost use Rattle.fw_view.specs.Choices.{IsChoice, IsSoFar, seen, seen_proof, all_proofs, best_of, best_with, chosen_proof};

use fw_frame::{Change, Proof};

/// What a new view proposes at a number: null, or the entry of the proof at these places, each from 0: of the change in the list, and of
/// the proof in its change.
#[derive(Clone, Copy, Debug, PartialEq, Eq)]
pub enum Chosen {
    Null,
    Proof { change: u32, proof: u32 },
}

/// A proof of the number, by its places, and its view.
#[derive(Clone, Copy)]
struct Best {
    change: u32,
    proof: u32,
    view: u32,
}

/// The best so far, after one more proof.
fn best_with(
    best: Option<Best>,
    found: &Proof<'_>,
    change: u32,
    proof: u32,
    number: u32,
) -> Option<Best>
    ensures { result ≡ best_with number (seen_proof found.now) change proof best }
{
    if found.number != number {
        return best;
    }
    if let Some(known) = best {
        if found.view <= known.view {
            return best;
        }
    }
    Some(Best {
        change,
        proof,
        view: found.view,
    })
}

/// The best so far, after the proofs of one more change.
fn best_after(changes: &[Change<'_>], k: usize, best: Option<Best>, number: u32) -> Option<Best>
    requires within { k < length changes.now }
    requires countable { IsCountable changes.now }
    requires writable { All IsWritableChange changes.now }
    requires before { IsSoFar (seen changes.now) number (all_proofs (take k (seen changes.now))) best }
    ensures { IsSoFar (seen changes.now) number (all_proofs (take (k + 1) (seen changes.now))) result }
{
    let proofs = changes[k].proofs.items();
    let mut best = best;
    for j in 0..proofs.len() {
        best = best_with(best, &proofs[j], k as u32, j as u32, number);
    }
    best
}

/// The choice for a number: the first proof of the greatest view among the view changes in order, by its places; null exactly where there
/// is no proof of this number.
pub fn choice(changes: &[Change<'_>], number: u32) -> Chosen
    requires countable { IsCountable changes.now }
    requires writable { All IsWritableChange changes.now }
    ensures chosen { IsChoice (seen changes.now) number result }
    // The proof that stands there is the best of all of this number.
    ensures proof { chosen_proof (seen changes.now) result ≡ best_of (seen changes.now) number }
{
    let mut best = None;
    for k in 0..changes.len() {
        best = best_after(changes, k, best, number);
    }
    match best {
        Some(best) => Chosen::Proof {
            change: best.change,
            proof: best.proof,
        },
        None => Chosen::Null,
    }
}
