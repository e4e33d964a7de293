//! The queue, as lists that are looked through.

ghost use Rattle.std.specs.Prelude.{◌≡◌, ◌+◌, ℕ, None, Some, Ok, false, true, not, nat_eq, is_some, map, IfOk, OnOk, OnErr};
ghost use Rattle.std.specs.List.{find};
ghost use Rattle.std.specs.Option.{option_copied, option_map};
ghost use Rattle.fw_queue.specs.Backlogs.{ready, again, replied, frame_with, frame_at, numbered};

use fw_base::Params;
use fw_list::{Bytes, Items, Memory};
use std::alloc::Global;
use std::marker::Model;

/// The first frame of a number.
#[derive(Drop)]
struct KeptFrame {
    number: u32,
    frame: Bytes,
}

/// The agreed frame and the reply of each number, and the last number that is gone.
#[derive(Drop)]
pub struct Queue {
    alloc: Global,
    params: Params,
    agreed: Items<KeptFrame>,
    replies: Items<KeptFrame>,
    gone: u32,
}

impl Model for Queue {
    ghost use Rattle.std.specs.Prelude.{map};
    ghost use Rattle.fw_queue.specs.Backlogs.{Backlog, numbered};

    ghost Value = { Backlog };

    ghost view = { λ q. record { params = q.params; agreed = map numbered q.agreed; replies = map numbered q.replies; gone = q.gone } };
}

/// The one of these that is of a number.
fn kept_of(kept: &[KeptFrame], number: u32) -> Option<&KeptFrame>
    ensures { option_copied result ≡ find (λ k. nat_eq k.number number) kept.now }
{
    kept.iter().find(|one| one.number == number)
}

/// The one of these that is of the number after this.
fn next_of(kept: &[KeptFrame], gone: u32) -> Option<&KeptFrame>
    ensures { option_copied result ≡ find (λ k. nat_eq k.number (gone + 1)) kept.now }
{
    kept.iter().find(|one| one.number as u64 == gone as u64 + 1)
}

/// The frame of a number, if it is among these.
fn frame_of(kept: &[KeptFrame], number: u32) -> Option<&[u8]>
    ensures { option_copied result ≡ frame_at (map numbered kept.now) number }
{
    match kept_of(kept, number) {
        Some(one) => Some(one.frame.items()),
        None => None,
    }
}

/// Keeps the frame of a number, where it is the first. After want of memory all is as before.
fn keep(
    alloc: Global,
    kept: &mut Items<KeptFrame>,
    number: u32,
    frame: &[u8],
) -> Result<bool, Memory>
    ensures first { IfOk result (λ first. first ≡ not (is_some (frame_at (map numbered kept.old) number))) }
    ensures kept { OnOk result ((n : ℕ) → frame_at (map numbered kept.new) n ≡ frame_with (map numbered kept.old) number frame.now n) }
    ensures again { is_some (frame_at (map numbered kept.old) number) ≡ true → result ≡ Ok false }
    ensures err { OnErr result (kept.new ≡ kept.old) }
{
    if kept_of(kept.items(), number).is_some() {
        return Ok(false);
    }
    let frame = Bytes::copy_of(alloc, frame)?;
    kept.push(KeptFrame { number, frame })?;
    Ok(true)
}

impl Queue {
    /// Nothing is agreed, answered or gone.
    pub fn new(alloc: Global, params: &Params) -> Result<Queue, Memory>
        ensures params { IfOk result (λ queue. queue.params ≡ params.now) }
        ensures agreed { IfOk result (λ queue. (n : ℕ) → frame_at queue.agreed n ≡ None) }
        ensures replies { IfOk result (λ queue. (n : ℕ) → frame_at queue.replies n ≡ None) }
        ensures gone { IfOk result (λ queue. queue.gone ≡ 0) }
    {
        Ok(Queue {
            alloc,
            params: *params,
            agreed: Items::new(alloc),
            replies: Items::new(alloc),
            gone: 0,
        })
    }

    /// Adds the agreed frame of a number. The answer is true exactly where it is the first; a later one needs no memory and changes
    /// nothing. After want of memory all is as before.
    pub fn agreed(&mut self, number: u32, frame: &[u8]) -> Result<bool, Memory>
        ensures first { IfOk result (λ first. first ≡ not (is_some (frame_at self.old.agreed number))) }
        ensures added { OnOk result ((n : ℕ) → frame_at self.new.agreed n ≡ frame_with self.old.agreed number frame.now n) }
        ensures again { is_some (frame_at self.old.agreed number) ≡ true → result ≡ Ok false }
        ensures params { self.new.params ≡ self.old.params }
        ensures replies { self.new.replies ≡ self.old.replies }
        ensures gone { self.new.gone ≡ self.old.gone }
        ensures err { OnErr result (self.new ≡ self.old) }
    {
        keep(self.alloc, &mut self.agreed, number, frame)
    }

    /// Adds the reply of a number. The answer is true exactly where it is the first; a later one needs no memory and changes nothing.
    /// After want of memory all is as before.
    pub fn reply(&mut self, number: u32, frame: &[u8]) -> Result<bool, Memory>
        ensures first { IfOk result (λ first. first ≡ not (is_some (frame_at self.old.replies number))) }
        ensures added { OnOk result ((n : ℕ) → frame_at self.new.replies n ≡ frame_with self.old.replies number frame.now n) }
        ensures again { is_some (frame_at self.old.replies number) ≡ true → result ≡ Ok false }
        ensures params { self.new.params ≡ self.old.params }
        ensures agreed { self.new.agreed ≡ self.old.agreed }
        ensures gone { self.new.gone ≡ self.old.gone }
        ensures err { OnErr result (self.new ≡ self.old) }
    {
        keep(self.alloc, &mut self.replies, number, frame)
    }

    /// The number that may go up: the one after the last that is gone, exactly where it is agreed and at most `pipe` above the replies.
    pub fn ready(&self) -> Option<u32>
        ensures { result ≡ ready self.now }
    {
        let next = next_of(self.agreed.items(), self.gone)?;
        let number = next.number;
        if number as u64 <= self.replied() as u64 + self.params.pipe as u64 {
            Some(number)
        } else {
            None
        }
    }

    /// The number that is ready goes up.
    pub fn gone(&mut self, number: u32)
        requires { ready self.old ≡ Some number }
        ensures { self.new ≡ record self.old { gone = number } }
    {
        self.gone = number;
    }

    /// The first number without a reply, exactly where it has gone up.
    pub fn again(&self) -> Option<u32>
        ensures { result ≡ again self.now }
    {
        let replied = self.replied();
        if replied < self.gone {
            Some(replied + 1)
        } else {
            None
        }
    }

    /// The greatest number such that the replies of 1 up to it were added.
    pub fn replied(&self) -> u32
        ensures { result ≡ replied self.now }
    {
        let numbers = self.params.numbers;
        for k in 0..numbers {
            if frame_of(self.replies.items(), k + 1).is_none() {
                return k;
            }
        }
        numbers
    }

    /// The agreed frame of a number that was added first, if one was.
    pub fn agreed_frame(&self, number: u32) -> Option<&[u8]>
        ensures { option_copied result ≡ frame_at self.now.agreed number }
    {
        frame_of(self.agreed.items(), number)
    }

    /// The reply of a number that was added first, if one was.
    pub fn reply_frame(&self, number: u32) -> Option<&[u8]>
        ensures { option_copied result ≡ frame_at self.now.replies number }
    {
        frame_of(self.replies.items(), number)
    }
}
