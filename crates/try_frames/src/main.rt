//! Reads cases, one a line, and prints what the public calls for digests, shares, signatures, bodies and frames answer to each.
//! An empty line, or one that begins with `#`, is printed as it is. The head of `stdin` says what a line may be.
#![tactic(auto)]

mod bodies;
mod digests;
mod frames;
mod notation;
mod sharing;
mod signing;

use bodies::Bodies;
use frames::Sizes;
use fw_list::Memory;
use std::alloc::Global;
use std::io;

/// The answer to a line of these words, if it is a case.
fn answer(
    alloc: Global,
    bodies: &mut Bodies,
    sizes: &mut Sizes,
    words: &[&str],
) -> Result<Option<String>, Memory> {
    let Some((first, rest)) = words.split_first() else {
        return Ok(None);
    };
    match *first {
        "digest" => digests::digest_of(alloc, rest),
        "hmac" => digests::code_of(alloc, rest),
        "product" | "products" | "inverse" | "eval" | "split" | "combine" | "through" | "shares" =>
            sharing::answer(alloc, first, rest),
        "deal" | "sign" | "verify" | "value" => signing::answer(alloc, first, rest),
        "key" | "seal" | "body" | "unseal" | "unseal-changed" => bodies.answer(alloc, first, rest),
        _ => sizes.answer(alloc, first, rest),
    }
}

/// What is printed for a line.
fn printed(
    alloc: Global,
    bodies: &mut Bodies,
    sizes: &mut Sizes,
    line: &str,
) -> Result<String, Memory> {
    if line.is_empty() || line.starts_with('#') {
        return Ok(String::from_str(alloc, line)?);
    }
    let mut words = Vec::new(alloc);
    for word in line.split_whitespace() {
        words.push(word)?;
    }
    match answer(alloc, bodies, sizes, words.as_slice())? {
        Some(text) => Ok(text),
        None => Ok(String::from_str(alloc, "no case")?),
    }
}

fn main(rt: HostRuntime) -> io::Result<()> {
    let mut bodies = Bodies::new();
    let mut sizes = Sizes::new();
    for line in rt.lines(rt.alloc()) {
        match printed(rt.alloc(), &mut bodies, &mut sizes, line?.as_str()) {
            Ok(text) => println!(rt; "{text}")?,
            Err(Memory) => println!(rt; "want of memory")?,
        }
    }
    Ok(())
}
