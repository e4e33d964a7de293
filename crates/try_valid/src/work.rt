//! What the words ask for, done on the bytes of the input.

ghost use Rattle.std.specs.Prelude.{IsTrue};
ghost use Rattle.fw_base.specs.Sizes.{accepted};

use crate::frames::{again, texts, times_hashed, times_read};
use crate::hands::{SEED, told_hands};
use crate::statuses::{DONE, NO_FRAME, USAGE};
use crate::valid::{count_changed, times_valid};
use fw_args::{number_of, params_of};
use fw_base::Params;
use fw_deal::Deal;
use fw_list::{Bytes, Memory};
use std::alloc::Global;

/// A text that is written, and the status.
fn told(alloc: Global, text: &str, status: u8) -> Result<(Bytes, u8), Memory> {
    Ok((Bytes::copy_of(alloc, text.as_bytes())?, status))
}

/// What is written of a frame, or of bytes that are none, and the status.
fn of_frame(alloc: Global, found: Option<Bytes>) -> Result<(Bytes, u8), Memory> {
    match found {
        Some(written) => Ok((written, DONE)),
        None => told(alloc, "no frame\n", NO_FRAME),
    }
}

/// What is written with a deal of these sizes, and the status.
fn dealt(
    alloc: Global,
    word: &str,
    count: u32,
    params: &Params,
    bytes: &[u8],
) -> Result<(Bytes, u8), Memory>
    requires { IsTrue (accepted params.now) }
{
    let deal = Deal::new(alloc, params, &SEED, &[])?;
    let directory = deal.directory();
    let text = match word {
        "changed" => {
            let valid = times_valid(alloc, directory, bytes, 1)?;
            let (tried, others) = count_changed(alloc, directory, bytes, count)?;
            format!(in alloc; "{valid} of 1 valid, of {tried} changed {others} valid\n")?
        }
        "times" => {
            let valid = times_valid(alloc, directory, bytes, count)?;
            format!(in alloc; "valid {valid} times\n")?
        }
        _ => told_hands(alloc, params, &deal)?,
    };
    told(alloc, text.as_str(), DONE)
}

/// What is written of a word, a count and sizes, and the status.
fn asked(
    alloc: Global,
    word: &str,
    count: u32,
    params: &Params,
    bytes: &[u8],
) -> Result<(Bytes, u8), Memory>
    requires { IsTrue (accepted params.now) }
{
    match word {
        "again" => of_frame(alloc, again(alloc, params, bytes)?),
        "texts" => of_frame(alloc, texts(alloc, params, bytes)?),
        "read" => {
            let found = times_read(alloc, params, bytes, count)?;
            let text = format!(in alloc; "read {found} times, {} bytes\n", bytes.len())?;
            told(alloc, text.as_str(), DONE)
        }
        "hash" => {
            let found = times_hashed(alloc, params, bytes, count)?;
            let text = format!(in alloc; "hashed {found} texts {count} times\n")?;
            told(alloc, text.as_str(), DONE)
        }
        "changed" | "times" | "hands" => dealt(alloc, word, count, params, bytes),
        _ => told(alloc, "usage\n", USAGE),
    }
}

/// What is written, and the status.
pub fn answer(alloc: Global, words: &[String], bytes: &[u8]) -> Result<(Bytes, u8), Memory> {
    let (word, count, sizes) = match words {
        [word, count, sizes @ ..] if sizes.len() == 8 => (word, number_of(count.as_str()), sizes),
        [word, sizes @ ..] => (word, Some(1), sizes),
        _ => return told(alloc, "usage\n", USAGE),
    };
    let (Some(count), Some(params)) = (count, params_of(sizes)) else {
        return told(alloc, "usage\n", USAGE);
    };
    asked(alloc, word.as_str(), count, &params, bytes)
}
