//! The bytes of a lie.

ghost use Rattle.std.specs.Prelude.{◌≡◌, not, is_some, IfOk, IsTrue};
ghost use Rattle.fw_base.specs.Seats.{fits};
ghost use Rattle.fw_step.specs.Fitting.{lie_fits};
ghost use Rattle.fw_lies.specs.Lying.{lie_bytes, is_copy};
ghost use Rattle.fw_lies.specs.Laws.{LiesAreSigned};

use crate::answers::{reply_bytes, share_bytes};
use crate::requests::request_bytes;
use crate::votes::{change_bytes, proposal_bytes, vote_bytes};
use fw_base::Seat;
use fw_deal::Deal;
use fw_list::{Bytes, Memory};
use fw_step::Lie;
use std::alloc::Global;

/// What a seat sends by a lie that it may send.
fn bytes_of(alloc: Global, deal: &Deal, from: Seat, lie: &Lie) -> Result<Option<Bytes>, Memory>
    requires from { IsTrue (fits deal.now.origin.params from) }
    requires lie { IsTrue (lie_fits deal.now.origin.params from lie.now) }
    ensures { IfOk result (λ found. found ≡ lie_bytes deal.now.origin from lie.now) }
{
    // (a deal's sizes are accepted: its directory says so)
    let _directory = deal.directory();
    let bytes = match (lie, from) {
        (Lie::Raw { bytes }, _) => Bytes::copy_of(alloc, bytes.items())?,
        (Lie::Request { request }, _) => request_bytes(alloc, deal, request)?,
        (
            Lie::Propose {
                view,
                number,
                entry,
            },
            _,
        ) => proposal_bytes(alloc, deal, *view, *number, entry.items())?,
        (
            Lie::Vote {
                phase,
                view,
                number,
                entry,
            },
            Seat::Agree(agree),
        ) => vote_bytes(alloc, deal, agree, *phase, *view, *number, entry.items())?,
        (Lie::Change { view }, Seat::Agree(agree)) => change_bytes(alloc, deal, agree, *view)?,
        (Lie::Share { number, answer }, Seat::Exec(exec)) => {
            share_bytes(alloc, deal, exec, *number, answer.items())?
        }
        (Lie::Reply { number, answer }, _) => reply_bytes(alloc, deal, *number, answer.items())?,
        _ => return Ok(None),
    };
    Ok(Some(bytes))
}

/// The bytes that a seat sends by a lie that it may send. Of a copy there are none: they stand in the pool, which shares the bytes of
/// the frame that is copied.
pub fn lie_bytes(alloc: Global, deal: &Deal, from: Seat, lie: &Lie) -> Result<Option<Bytes>, Memory>
    requires from { IsTrue (fits deal.now.origin.params from) }
    requires lie { IsTrue (lie_fits deal.now.origin.params from lie.now) }
    ensures bytes { IfOk result (λ found. found ≡ lie_bytes deal.now.origin from lie.now) }
    ensures some { IfOk result (λ found. is_some found ≡ not (is_copy lie.now)) }
{
    bytes_of(alloc, deal, from, lie)
}

/// For every deal, seat and lie: each signature and each list of shares in the lie's frame has the dealt values of the slot, at the point
/// and on the sides of the digest, by which a frame is checked.
pub fn law_lies_are_signed()
    ensures { LiesAreSigned }
{}
