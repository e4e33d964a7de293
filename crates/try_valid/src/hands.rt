//! Hand files that are written, read and written again, and values that are shown.

ghost use Rattle.std.specs.Prelude.{IsTrue};
ghost use Rattle.fw_base.specs.Sizes.{accepted};
ghost use Rattle.fw_base.specs.Seats.{fits};

use fw_base::{Params, Place, Seat, Slot};
use fw_deal::{Deal, deal_file, read_hand, write_hand};
use fw_frame::{Carried, Shown};
use fw_list::Memory;
use fw_valid::shown;
use std::alloc::Global;

/// The seed of all deals here.
pub const SEED: [u8; 32] = [0; 32];

/// Whether the hand file of a seat is read, and written as the same bytes again.
fn is_read_again(alloc: Global, params: &Params, seat: Seat) -> Result<bool, Memory>
    requires sizes { IsTrue (accepted params.now) }
    requires fits { IsTrue (fits params.now seat) }
{
    let file = deal_file(alloc, params, &SEED, &[], Some(seat))?;
    let Some((directory, hand)) = read_hand(alloc, file.items())? else {
        return Ok(false);
    };
    let again = match &hand {
        Some(hand) => write_hand(alloc, &directory, Some(hand))?,
        None => write_hand(alloc, &directory, None)?,
    };
    Ok(again.items() == file.items())
}

/// Of how many seats the hand file is read again.
fn read_again(alloc: Global, params: &Params) -> Result<u32, Memory>
    requires { IsTrue (accepted params.now) }
{
    let mut count: u32 = 0;
    for index in 0..params.seats() {
        if let Some(seat) = Seat::from_index(params, index) {
            if is_read_again(alloc, params, seat)? {
                count = count.saturating_add(1);
            }
        }
    }
    Ok(count)
}

/// How many are shown of the value that is dealt for a place and of another.
fn shown_of(alloc: Global, deal: &Deal) -> Result<usize, Memory> {
    let place = Place {
        slot: Slot::Reply { number: 1 },
        bit: 0,
        side: 0,
        point: 0,
    };
    let directory = deal.directory();
    if !place.fits(directory.params()) {
        return Ok(0);
    }
    let mut carried = Carried::new(alloc);
    carried.push(Shown {
        place,
        value: deal.dealt(&place),
    })?;
    carried.push(Shown { place, value: SEED })?;
    Ok(shown(alloc, directory, &carried)?.len())
}

/// A line that says of how many seats the hand file is read again, and how many of two values are shown.
pub fn told_hands(alloc: Global, params: &Params, deal: &Deal) -> Result<String, Memory>
    requires { IsTrue (accepted params.now) }
{
    let count = read_again(alloc, params)?;
    let seats = params.seats();
    let shown = shown_of(alloc, deal)?;
    Ok(format!(in alloc; "{count} of {seats} hand files read again, {shown} of 2 values shown\n")?)
}
