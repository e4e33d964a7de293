//! What a filter keeps, looked up.

ghost use Rattle.std.specs.Prelude.{◌≡◌, nat_eq, reverse};
ghost use Rattle.std.specs.List.{list_any};
ghost use Rattle.std.specs.Option.{option_copied};
ghost use Rattle.fw_trace.specs.Filter as filters;

use fw_base::Seat;
use fw_list::{Bytes, Newest};
use fw_lookup::bytes_at;

/// The reply that is held of a number.
pub(crate) fn held_of(held: &Newest<(u32, Bytes)>, number: u32) -> Option<&Bytes>
    ensures { option_copied result ≡ filters.held_of held.now number }
{
    bytes_at(held, number)
}

/// Whether one of these requests has this number.
fn is_any_asked(asked: &[(Seat, u32)], number: u32) -> bool
    ensures { result ≡ list_any (λ ask. nat_eq ask.1 number) (reverse asked.now) }
{
    asked.iter().rev().any(|ask| ask.1 == number)
}

/// Whether a number was asked for from below.
pub(crate) fn was_asked(asked: &Newest<(Seat, u32)>, number: u32) -> bool
    ensures { result ≡ filters.asked_at_all asked.now number }
{
    is_any_asked(asked.oldest_first(), number)
}
