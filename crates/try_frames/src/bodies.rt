//! Sealed bodies: four keys, and the body that was sealed last or given.

use crate::notation::{bytes_of, counted, digest as digest_in, number, said, shown};
use fw_digest::digest;
use fw_list::{BODY_LEN, LONGEST_TEXT, Memory};
use fw_seal::{Body, BodyKey, Direction, seal, unseal};
use std::alloc::Global;

/// No bytes of a key.
const BLANK: BodyKey = BodyKey {
    stream_key: [0; 32],
    mac_key: [0; 32],
};

/// The keys that lines have named so far, and the last body.
#[derive(Drop)]
pub struct Bodies {
    keys: [BodyKey; 4],
    body: Body,
}

/// Under which key, which way, of which client, and of which stamp or number.
#[derive(Clone, Copy)]
struct Under {
    key: BodyKey,
    way: Direction,
    client: u32,
    number: u32,
}

/// Whether all bytes are 0.
fn are_zeros(bytes: &[u8]) -> bool {
    bytes.iter().all(|byte| *byte == 0)
}

/// The length of the text that a body opens to, whose bytes stand in `out` before zeros alone; or nothing, with zeros alone.
fn opened(under: &Under, body: &Body, out: &mut [u8; 510]) -> Option<u16> {
    if under.number > 0x7fff_ffff {
        return None;
    }
    *out = [7; 510];
    unseal(&under.key, under.way, under.client, under.number, body, out)
}

/// How many of the bodies with one bit changed, of each byte in turn, open to nothing, with zeros alone.
fn refused(under: &Under, body: &Body) -> u32 {
    let mut count = 0u32;
    for k in 0..544 {
        let mut changed = *body;
        changed.bytes[k] ^= 1;
        let mut out = [0; 510];
        if opened(under, &changed, &mut out).is_none() && are_zeros(&out) {
            count = count.wrapping_add(1);
        }
    }
    count
}

impl Bodies {
    /// No key, and a body of zeros.
    pub fn new() -> Self {
        Bodies {
            keys: [BLANK; 4],
            body: Body { bytes: [0; 544] },
        }
    }

    /// `KEY WAY CLIENT NUMBER`.
    fn under(&self, words: &[&str]) -> Option<Under> {
        let [key, way, client, number_word] = words else {
            return None;
        };
        let key = *self.keys.get(number(key)? as usize)?;
        let way = match *way {
            "request" => Direction::Request,
            "reply" => Direction::Reply,
            _ => return None,
        };
        Some(Under {
            key,
            way,
            client: number(client)?,
            number: number(number_word)?,
        })
    }

    /// `key KEY STREAM MAC`: names a key.
    fn name(&mut self, words: &[&str]) -> Option<u32> {
        let [place, stream, mac] = words else {
            return None;
        };
        let place = number(place)?;
        if place > 3 {
            return None;
        }
        self.keys[place as usize] = BodyKey {
            stream_key: digest_in(stream)?,
            mac_key: digest_in(mac)?,
        };
        Some(place)
    }

    /// The digest of the last body.
    fn of_body(&self, alloc: Global) -> Result<Option<String>, Memory> {
        let Some((first, rest)) = self.body.bytes.split_first() else {
            return Ok(None);
        };
        shown(alloc, &digest(*first, rest, b""))
    }

    /// `seal TEXT KEY WAY CLIENT NUMBER`: the digest of the text's body, which is then the last.
    fn seal(&mut self, alloc: Global, words: &[&str]) -> Result<Option<String>, Memory> {
        let Some((text, words)) = words.split_first() else {
            return Ok(None);
        };
        let (Some(text), Some(under)) = (bytes_of(alloc, text)?, self.under(words)) else {
            return Ok(None);
        };
        if text.len() > LONGEST_TEXT || under.number > 0x7fff_ffff {
            return Ok(None);
        }
        self.body = seal(
            &under.key,
            under.way,
            under.client,
            under.number,
            text.items(),
        );
        self.of_body(alloc)
    }

    /// `body BYTES`: the digest of this body, which is then the last.
    fn give(&mut self, alloc: Global, words: &[&str]) -> Result<Option<String>, Memory> {
        let [bytes] = words else {
            return Ok(None);
        };
        let Some(bytes) = bytes_of(alloc, bytes)? else {
            return Ok(None);
        };
        if bytes.len() != BODY_LEN {
            return Ok(None);
        }
        self.body.bytes.copy_from_slice(bytes.items());
        self.of_body(alloc)
    }

    /// `unseal KEY WAY CLIENT NUMBER`: the text that the last body opens to, or `refused`.
    fn unseal(&self, alloc: Global, words: &[&str]) -> Result<Option<String>, Memory> {
        let Some(under) = self.under(words) else {
            return Ok(None);
        };
        let mut out = [0; 510];
        let (len, answer) = match opened(&under, &self.body, &mut out) {
            Some(len) if len <= 510 => (len as usize, None),
            _ => (0, Some("refused")),
        };
        if !are_zeros(&out[len..]) {
            return said(alloc, "other bytes than zeros behind the text");
        }
        match answer {
            Some(answer) => said(alloc, answer),
            None => shown(alloc, &out[..len]),
        }
    }

    /// `unseal-changed KEY WAY CLIENT NUMBER`: how many of the bodies with one bit changed, of each byte in turn, are refused.
    fn unseal_changed(&self, alloc: Global, words: &[&str]) -> Result<Option<String>, Memory> {
        let Some(under) = self.under(words) else {
            return Ok(None);
        };
        let count = refused(&under, &self.body);
        counted(alloc, count as usize, " of 544 refused")
    }

    /// The answer to a case of bodies.
    pub fn answer(
        &mut self,
        alloc: Global,
        first: &str,
        words: &[&str],
    ) -> Result<Option<String>, Memory> {
        match first {
            "key" => match self.name(words) {
                Some(_) => said(alloc, "named"),
                None => Ok(None),
            },
            "seal" => self.seal(alloc, words),
            "body" => self.give(alloc, words),
            "unseal" => self.unseal(alloc, words),
            "unseal-changed" => self.unseal_changed(alloc, words),
            _ => Ok(None),
        }
    }
}
