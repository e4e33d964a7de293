//! The rows of a directory: which slot and point each is of.

ghost use Rattle.std.specs.Prelude.{◌≡◌, ◌≤◌, ◌<◌, ◌+◌, ◌-◌, ◌*◌, IsTrue};
ghost use Rattle.fw_base.specs.Sizes.{accepted, agreements, executors};
ghost use Rattle.fw_base.specs.Places.{slot_fits, last_point, row_index, votes};
ghost use Rattle.fw_directory.specs.Directories.{rows};

use fw_base::{Params, Slot};

/// The line and the column of a place in lines of a width.
fn in_lines(place: u32, lines: u32, width: u32) -> (u32, u32)
    requires { place < lines * width }
    ensures line { result.0 < lines }
    ensures column { result.1 < width }
    ensures place { result.0 * width + result.1 ≡ place }
{
    (place / width, place % width)
}

/// The view, the number and the agreement node of a row of votes.
fn vote_at(params: &Params, row: u32) -> (u32, u32, u32)
    requires sizes { IsTrue (accepted params.now) }
    requires row { row < votes params.now }
    ensures view { result.0 < params.now.views }
    ensures number { (1 ≤ result.1) × (result.1 ≤ params.now.numbers) }
    ensures agree { result.2 < agreements params.now }
    ensures row { (result.0 * params.now.numbers + (result.1 - 1)) * agreements params.now + result.2 ≡ row }
{
    let (line, agree) = in_lines(row, params.views * params.numbers, params.agreements());
    let (view, before) = in_lines(line, params.views, params.numbers);
    (view, before + 1, agree)
}

/// The slot and the point of a row behind those of votes.
fn slot_behind(params: &Params, row: u32) -> (Slot, u32)
    requires sizes { IsTrue (accepted params.now) }
    requires row { row < rows params.now - 2 * votes params.now }
    ensures fits { IsTrue (slot_fits params.now result.0) }
    ensures point { result.1 ≤ last_point params.now result.0 }
    ensures row { row_index params.now result.0 result.1 ≡ 2 * votes params.now + row }
{
    let agreements = params.agreements();
    let changes = params.views * agreements;
    if row < changes {
        let (view, agree) = in_lines(row, params.views, agreements);
        return (Slot::Change { view, agree }, 0);
    }
    if row - changes < changes {
        let (view, agree) = in_lines(row - changes, params.views, agreements);
        return (Slot::NewView { view, agree }, 0);
    }
    let row = row - 2 * changes;
    let requests = params.clients * params.stamps;
    if row < requests {
        let (client, before) = in_lines(row, params.clients, params.stamps);
        return (
            Slot::Request {
                client,
                stamp: before + 1,
            },
            0,
        );
    }
    let (before, point) = in_lines(row - requests, params.numbers, params.executors() + 1);
    (Slot::Reply { number: before + 1 }, point)
}

/// The slot and the point of a row.
pub(crate) fn slot_at(params: &Params, row: u32) -> (Slot, u32)
    requires sizes { IsTrue (accepted params.now) }
    requires row { row < rows params.now }
    ensures fits { IsTrue (slot_fits params.now result.0) }
    ensures point { result.1 ≤ last_point params.now result.0 }
    ensures row { row_index params.now result.0 result.1 ≡ row }
{
    let votes = params.views * params.numbers * params.agreements();
    if row < votes {
        let (view, number, agree) = vote_at(params, row);
        return (
            Slot::Prepare {
                view,
                number,
                agree,
            },
            0,
        );
    }
    if row - votes < votes {
        let (view, number, agree) = vote_at(params, row - votes);
        return (
            Slot::Commit {
                view,
                number,
                agree,
            },
            0,
        );
    }
    slot_behind(params, row - 2 * votes)
}
