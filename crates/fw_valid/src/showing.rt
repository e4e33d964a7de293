//! Which of the values that a frame carries have their places' digests.

ghost use Rattle.std.specs.Prelude.{◌≡◌, ◌≢◌, [], IsTrue, IfOk, OnErr, All};
ghost use Rattle.fw_base.specs.Places.{place_fits};
ghost use Rattle.fw_valid.specs.Validity.{is_shown, shown};

use fw_directory::Directory;
use fw_frame::{Carried, Shown};
use fw_lamport::value_digest;
use fw_list::{Items, Memory};
use std::alloc::Global;

/// Whether a value has its place's digest.
fn is_shown(directory: &Directory, pair: &Shown) -> bool
    requires { IsTrue (place_fits directory.now.params pair.now.place) }
    ensures { result ≡ is_shown directory.now pair.now }
{
    value_digest(&pair.place, &pair.value) == directory.row(&pair.place)
}

/// Of the values that a frame carries those that have their place's digest, in order. Memory is wanted only where there are some.
pub fn shown(alloc: Global, directory: &Directory, carried: &Carried) -> Result<Carried, Memory>
    requires { All (λ pair. IsTrue (place_fits directory.now.params pair.place)) carried.now }
    ensures shown { IfOk result (λ list. list ≡ shown directory.now carried.now) }
    ensures memory { OnErr result (shown directory.now carried.now ≢ []) }
{
    let mut list = Items::new(alloc);
    let pairs = carried.items();
    for pair in pairs {
        if is_shown(directory, pair) {
            list.push(*pair)?;
        }
    }
    Ok(list)
}
