//! Many operations, one after another.

ghost use Rattle.std.specs.Prelude.{◌<◌};

use crate::generator::Generator;
use crate::sum::Sum;
use fw_list::{Bytes, Memory};
use fw_op::Op;
use fw_store::Store;
use std::alloc::Global;

/// How many clients there are, and how many keys each has.
const CLIENTS: u32 = 8;

const KEYS: u32 = 64;

/// The sum over all replies to so many operations, of all eight kinds or of two.
pub fn work(alloc: Global, is_mixed: bool, count: u32) -> Result<u64, Memory> {
    let mut store = Store::new(alloc, &[])?;
    for client in 0..CLIENTS {
        fill(alloc, &mut store, client)?;
    }
    let mut generator = Generator::new();
    let mut sum = Sum::new();
    for _ in 0..count {
        let client = generator.below(CLIENTS);
        let op = next(alloc, &mut generator, is_mixed)?;
        sum.add_reply(&store.apply(client, &op)?);
    }
    Ok(sum.value())
}

/// Gives a client a record of each key.
fn fill(alloc: Global, store: &mut Store, client: u32) -> Result<(), Memory> {
    for k in 0..KEYS {
        let key = key_of(alloc, k)?;
        let value = value_of(alloc, 0)?;
        let _done = store.apply(client, &Op::Put { key, value })?;
    }
    Ok(())
}

/// The next operation.
fn next(alloc: Global, generator: &mut Generator, is_mixed: bool) -> Result<Op, Memory> {
    let kind = generator.below(if is_mixed { 16 } else { 10 });
    let key = key_of(alloc, generator.below(KEYS))?;
    let old = value_of(alloc, generator.below(4))?;
    let new = value_of(alloc, generator.below(4))?;
    let client = generator.below(CLIENTS);
    match kind {
        0..=4 => Ok(Op::Put { key, value: new }),
        5..=9 => Ok(Op::Get { owner: client, key }),
        10 => Ok(Op::Del { key }),
        11 => Ok(Op::Cas { key, old, new }),
        12 => Ok(Op::Grant { key, client }),
        13 => Ok(Op::Revoke { key, client }),
        14 => Ok(Op::Count),
        _ => Ok(Op::Keys),
    }
}

fn key_of(alloc: Global, k: u32) -> Result<Bytes, Memory>
    requires { k < 64 }
{
    Bytes::copy_of(alloc, &[b'k', b'0' + (k / 10) as u8, b'0' + (k % 10) as u8])
}

fn value_of(alloc: Global, k: u32) -> Result<Bytes, Memory>
    requires { k < 4 }
{
    Bytes::copy_of(alloc, &[b'v', b'a', b'l', b'u', b'e', b'0' + k as u8])
}
