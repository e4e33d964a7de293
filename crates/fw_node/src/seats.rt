//! The seats of one kind, ascending.

ghost use Rattle.std.specs.Prelude.{◌≡◌, ◌<◌, map, IfOk, IsTrue};
ghost use Rattle.fw_list.specs.Lists.{numbers_from};
ghost use Rattle.fw_base.specs.declared.seat.Seat.TheVariants as seats;
ghost use Rattle.fw_base.specs.Sizes.{accepted, agreements, executors, width};

use fw_base::{Memory, Params, Seat, Seats};
use std::alloc::Global;

/// All agreement nodes.
pub fn agreement_seats(alloc: Global, params: &Params) -> Result<Seats, Memory>
    requires { IsTrue (accepted params.now) }
    ensures { IfOk result (λ all. all ≡ map seats.Agree (numbers_from 0 (agreements params.now))) }
{
    let mut all = Seats::new(alloc);
    for k in 0..params.agreements() {
        all.push(Seat::Agree(k))?;
    }
    Ok(all)
}

/// All executors.
pub fn executor_seats(alloc: Global, params: &Params) -> Result<Seats, Memory>
    requires { IsTrue (accepted params.now) }
    ensures { IfOk result (λ all. all ≡ map seats.Exec (numbers_from 0 (executors params.now))) }
{
    let mut all = Seats::new(alloc);
    for k in 0..params.executors() {
        all.push(Seat::Exec(k))?;
    }
    Ok(all)
}

/// The filters of a row.
pub fn row_seats(alloc: Global, params: &Params, row: u32) -> Result<Seats, Memory>
    requires { IsTrue (accepted params.now) }
    ensures { IfOk result (λ all. all ≡ map (seats.Filter row) (numbers_from 0 (width params.now))) }
{
    let mut all = Seats::new(alloc);
    for k in 0..params.width() {
        all.push(Seat::Filter(row, k))?;
    }
    Ok(all)
}
