//! What is kept newest first, looked up: the newest bytes of a number, and whether a seat sent a number.
#![tactic(auto)]

ghost use Rattle.std.specs.Prelude.{◌≡◌, ◌&&◌, Some, nat_eq, reverse};
ghost use Rattle.std.specs.List.{find, list_any};
ghost use Rattle.std.specs.Option.{option_copied, option_map};
ghost use Rattle.fw_base.specs.Seats.{seat_eq};
ghost use Rattle.fw_trace.specs.Lists.{first_at};
ghost use Rattle.fw_trace.specs.Executor.{sent_before};

use fw_base::Seat;
use fw_list::{Bytes, Newest};

/// The last of these that has this number.
fn last_of(kept: &[(u32, Bytes)], number: u32) -> Option<&(u32, Bytes)>
    ensures { option_copied result ≡ find (λ one. nat_eq one.0 number) (reverse kept.now) }
{
    kept.iter().rev().find(|one| one.0 == number)
}

/// Its bytes.
fn last_bytes(kept: &[(u32, Bytes)], number: u32) -> Option<&Bytes>
    ensures { option_copied result ≡ option_map (λ one. one.1) (find (λ one. nat_eq one.0 number) (reverse kept.now)) }
{
    match last_of(kept, number) {
        Some(one) => Some(&one.1),
        None => None,
    }
}

/// The newest bytes of a number.
pub fn bytes_at(kept: &Newest<(u32, Bytes)>, number: u32) -> Option<&Bytes>
    ensures { option_copied result ≡ first_at (λ one. Some one) kept.now number }
{
    last_bytes(kept.oldest_first(), number)
}

/// Whether this is a number from this seat.
fn is_sent(sent: &(Seat, u32), seat: Seat, number: u32) -> bool
    ensures { result ≡ (seat_eq sent.now.0 seat && nat_eq sent.now.1 number) }
{
    sent.0.is(seat) && sent.1 == number
}

/// Whether one of these is.
fn is_any_sent(sent: &[(Seat, u32)], seat: Seat, number: u32) -> bool
    ensures { result ≡ list_any (λ one. seat_eq one.0 seat && nat_eq one.1 number) (reverse sent.now) }
{
    sent.iter().rev().any(|one| is_sent(one, seat, number))
}

/// Whether a seat sent a number.
pub fn was_sent(sent: &Newest<(Seat, u32)>, seat: Seat, number: u32) -> bool
    ensures { result ≡ sent_before sent.now seat number }
{
    is_any_sent(sent.oldest_first(), seat, number)
}
