//! The words of the process.
#![tactic(auto)]

mod sizes;

use fw_list::Memory;
pub use sizes::{number_of, params_of};
use std::alloc::Global;
use std::env;
use std::io::ErrorKind;
use std::rt::Env;

/// The words after the program's name. Where one of them is no text, there are none. What the arguments are, no contract
/// can say: that is only tested.
pub fn words(rt: &(impl Env + Alloc<A = Global>)) -> Result<Vec<String>, Memory> {
    let mut words = Vec::new(rt.alloc());
    match env::args(rt) {
        Ok(all) => {
            for word in all.skip(1) {
                words.push(word)?;
            }
        }
        Err(error) => {
            if error.kind() == ErrorKind::OutOfMemory {
                return Err(Memory);
            }
        }
    }
    Ok(words)
}
