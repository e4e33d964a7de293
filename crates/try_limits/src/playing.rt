//! The run of what a line asks, and how it ends.

ghost use Rattle.std.specs.Prelude.{◌≡◌, ◌≤◌, ◌<◌, false, IfOk};
ghost use Rattle.fw_list.specs.declared.limits.TheConstants.{LONGEST_FRAME};
ghost use Rattle.fw_step.specs.declared.limits.TheConstants.{MOST_FLUSHED};
ghost use Rattle.try_limits.specs.declared.cast.TheConstants.{PARAMS};

use crate::asked::{Asked, ask_of};
use crate::cast::{PARAMS, cast};
use crate::schedule::schedule;
use crate::toy::Toy;
use fw_deal::Deal;
use fw_digest::Steps;
use fw_directory::Directory;
use fw_grid::{RunFault, World};
use fw_list::{Bytes, Items, Memory};
use fw_rules::Which;
use std::alloc::Global;
use std::marker::Brand;
use std::sync::ledger::{Blank, Ledger};

/// The directory of the deployment, of a seed of zeros.
fn smallest(alloc: Global) -> Result<Directory, Memory>
    ensures { IfOk result (λ d. d.params ≡ PARAMS) }
{
    let deal = Deal::new(alloc, &PARAMS, &[0; 32], &[])?;
    Ok(deal.into_directory())
}

/// The world of what is asked, before its first step.
fn world_of(alloc: Global, asked: &Asked) -> Result<World<Toy, Toy, Toy, Toy>, Memory>
    requires some { 1 ≤ asked.now.length }
    requires longest { asked.now.length ≤ LONGEST_FRAME }
    requires least { 1 ≤ asked.now.count }
    requires most { asked.now.count ≤ MOST_FLUSHED }
    ensures { IfOk result (λ w. w.seen.failed ≡ false) }
{
    let directory = smallest(alloc)?;
    let steps = schedule(alloc, asked.kind, asked.count)?;
    let grid = cast(alloc, asked.each, asked.length)?;
    let world = World::new(alloc, directory, Items::new(alloc), steps, grid)?;
    Ok(world)
}

/// Adds which limit a run would pass, and at which step.
fn add_limit(text: &mut Bytes, which: Which, step: u32) -> Result<(), Memory> {
    match which {
        Which::Frames => text.append(b"limit frames at step ")?,
        Which::Bytes => text.append(b"limit bytes at step ")?,
    }
    text.append_number(step)
}

/// How the run of what is asked ends, and how many frames were sent then.
fn played<L: Ledger>(alloc: Global, asked: &Asked, blank: Blank) -> Result<Bytes, Memory>
    requires some { 1 ≤ asked.now.length }
    requires longest { asked.now.length ≤ LONGEST_FRAME }
    requires least { 1 ≤ asked.now.count }
    requires most { asked.now.count ≤ MOST_FLUSHED }
    requires name { blank.name ≡ L.name }
    requires parts { blank.parts ≡ L.parts }
    requires own { 0 < blank.parts }
{
    let mut world = world_of(alloc, asked)?;
    let mut steps = Steps::<L>::new(blank);
    let mut text = Bytes::new(alloc);
    match world.run(&mut steps) {
        Ok(()) => text.append(b"ended")?,
        Err(RunFault::Limit { step, which }) => add_limit(&mut text, which, step)?,
        Err(RunFault::Memory) => return Err(Memory),
    }
    text.append(b": ")?;
    text.append_number(world.frames().len() as u32)?;
    text.append(b" frames")?;
    Ok(text)
}

/// The answer to a line: how the run that it asks ends; or the line itself, where it is a heading.
pub fn answer(alloc: Global, line: &str) -> Result<Bytes, Memory> {
    if line.starts_with("#") {
        return Bytes::copy_of(alloc, line.as_bytes());
    }
    match ask_of(line) {
        Some(asked) => played::<Brand>(alloc, &asked, Blank::new(1)),
        None => Bytes::copy_of(alloc, b"not asked"),
    }
}
