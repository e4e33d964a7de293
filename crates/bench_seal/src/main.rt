//! The work that `bench/seal` times: digests, authentication codes, and bodies sealed and opened, so many times over a
//! text of a length. The words are jobs of three words each, as `digest 1000 31`, and each job answers a checksum.
#![tactic(auto)]

ghost use Rattle.std.specs.Prelude.{◌≤◌, length};

use fw_args::words;
use fw_digest::{digest, hmac};
use fw_seal::{Body, BodyKey, Direction, seal, unseal};
use std::io;
use std::process::ExitCode;

/// The first four bytes as a number.
fn front(code: &[u8; 32]) -> u32 {
    u32::from_be_bytes([code[0], code[1], code[2], code[3]])
}

/// Digests of messages of 33 bytes more than the text, each of which holds the digest before.
fn digests(count: u32, text: &[u8]) -> u32 {
    let mut code = [0; 32];
    for _ in 0..count {
        code = digest(1, &code, text);
    }
    front(&code)
}

/// Codes of messages of one byte more than the text, each under the code before.
fn codes(count: u32, text: &[u8]) -> u32 {
    let mut code = [0; 32];
    for _ in 0..count {
        code = hmac(&code, &[1], text);
    }
    front(&code)
}

/// Bodies of the text, each under the tag of the body before.
fn bodies(count: u32, text: &[u8]) -> u32
    requires { length text.now ≤ 510 }
{
    let mut code = [0; 32];
    for number in 0..count {
        let key = BodyKey {
            stream_key: code,
            mac_key: code,
        };
        let body = seal(&key, Direction::Reply, 0, number & 0x7fff_ffff, text);
        code.copy_from_slice(&body.bytes[512..]);
    }
    front(&code)
}

/// The length and the last byte of what a body opens to.
fn opened(key: &BodyKey, way: Direction, body: &Body) -> u32 {
    let mut out = [0; 510];
    match unseal(key, way, 0, 1, body, &mut out) {
        Some(len) if len > 0 => u32::from(len).wrapping_add(u32::from(out[len as usize - 1])),
        _ => 0,
    }
}

/// Two bodies of the text, opened in turn.
fn texts(count: u32, text: &[u8]) -> u32
    requires { length text.now ≤ 510 }
{
    let key = BodyKey {
        stream_key: [1; 32],
        mac_key: [2; 32],
    };
    let request = seal(&key, Direction::Request, 0, 1, text);
    let reply = seal(&key, Direction::Reply, 0, 1, text);
    let mut sum = 0u32;
    for k in 0..count {
        let one = if k % 2 == 0 {
            opened(&key, Direction::Request, &request)
        } else {
            opened(&key, Direction::Reply, &reply)
        };
        sum = sum.wrapping_add(one);
    }
    sum
}

fn checksum(job: &[String]) -> Option<u32> {
    let [work, count, len] = job else {
        return None;
    };
    let count = count.parse::<u32>().ok()?;
    let len = len.parse::<usize>().ok()?;
    if len > 8192 {
        return None;
    }
    let text = [7; 8192];
    match work.as_str() {
        "digest" => Some(digests(count, &text[..len])),
        "hmac" => Some(codes(count, &text[..len])),
        "seal" if len <= 510 => Some(bodies(count, &text[..len])),
        "unseal" if len <= 510 => Some(texts(count, &text[..len])),
        _ => None,
    }
}

fn main(rt: HostRuntime) -> io::Result<ExitCode> {
    let Ok(words) = words(&rt) else {
        return Ok(ExitCode::from(10));
    };
    for job in words.chunks(3) {
        match checksum(job) {
            Some(sum) => println!(rt; "{sum}")?,
            None => return Ok(ExitCode::from(1)),
        }
    }
    Ok(ExitCode::from(0))
}
