//! The answers to cases: of what is known so far, and of the texts so far.

use crate::kept::{Kept, seats_of};
use crate::notation::{number, place_of, said, words_of};
use fw_base::Params;
use fw_know::{TextFault, Texts};
use fw_list::{Bytes, Memory};
use std::alloc::Global;

/// What is known, once a deployment was named, and the book of texts.
#[derive(Drop)]
pub struct Stage {
    kept: Option<Kept>,
    texts: Texts,
}

/// Eight numbers, from f on.
fn params_of(words: &[&str]) -> Option<Params> {
    let [f, g, h, numbers, views, clients, stamps, pipe] = words else {
        return None;
    };
    Some(Params {
        f: number(f)?,
        g: number(g)?,
        h: number(h)?,
        numbers: number(numbers)?,
        views: number(views)?,
        clients: number(clients)?,
        stamps: number(stamps)?,
        pipe: number(pipe)?,
    })
}

/// `show PLACE ..`: adds what a frame to a faulty seat shows.
fn show(alloc: Global, kept: &mut Kept, words: &[&str]) -> Result<String, Memory> {
    if kept.add(alloc, words)? {
        said(alloc, "ok")
    } else {
        said(alloc, "no such place")
    }
}

/// `known PLACE`: whether it is known.
fn known(alloc: Global, kept: &Kept, words: &[&str]) -> Result<Option<String>, Memory> {
    let [word] = words else {
        return Ok(None);
    };
    let Some(place) = place_of(word) else {
        return Ok(None);
    };
    let word = match kept.is_known(&place) {
        Some(true) => "yes",
        Some(false) => "no",
        None => "no such place",
    };
    Ok(Some(said(alloc, word)?))
}

/// `first PLACE ..`: the first that isn't known, counted from 0.
fn first(alloc: Global, kept: &Kept, words: &[&str]) -> Result<String, Memory> {
    match kept.first(alloc, words)? {
        Some(Some(k)) => Ok(format!(in alloc; "{k}")?),
        Some(None) => said(alloc, "none"),
        None => said(alloc, "no such place"),
    }
}

/// The answer to a case of what is known so far.
fn of_kept(
    alloc: Global,
    kept: &mut Kept,
    word: &str,
    words: &[&str],
) -> Result<Option<String>, Memory> {
    match word {
        "show" => Ok(Some(show(alloc, kept, words)?)),
        "known" => known(alloc, kept, words),
        "first" => Ok(Some(first(alloc, kept, words)?)),
        _ => Ok(None),
    }
}

/// The digits of bytes.
fn digits(alloc: Global, bytes: &Bytes) -> Result<String, Memory> {
    Ok(hex::encode(alloc, bytes.items())?)
}

/// `text DIGEST TEXT`: adds this text under the digest that is this byte 32 times.
fn text(alloc: Global, texts: &mut Texts, words: &[&str]) -> Result<Option<String>, Memory> {
    let [digest, text] = words else {
        return Ok(None);
    };
    let Ok(byte) = digest.parse::<u8>() else {
        return Ok(None);
    };
    match texts.add([byte; 32], text.as_bytes()) {
        Ok(()) => Ok(Some(said(alloc, "ok")?)),
        Err(TextFault::Memory) => Err(Memory),
        Err(TextFault::Clash { old, new }) => {
            let old = digits(alloc, &old)?;
            let new = digits(alloc, &new)?;
            Ok(Some(format!(in alloc; "clash {old} {new}")?))
        }
    }
}

impl Stage {
    /// No deployment and no texts so far.
    pub fn new(alloc: Global) -> Self {
        Stage {
            kept: None,
            texts: Texts::new(alloc),
        }
    }

    /// `faulty F G H NUMBERS VIEWS CLIENTS STAMPS PIPE SEAT ..`: names a deployment and its faulty seats.
    fn faulty(&mut self, alloc: Global, words: &[&str]) -> Result<Option<String>, Memory> {
        if words.len() < 8 {
            return Ok(None);
        }
        let Some(params) = params_of(&words[..8]) else {
            return Ok(None);
        };
        if !params.are_accepted() {
            return Ok(Some(said(alloc, "refused")?));
        }
        let Some(seats) = seats_of(alloc, &params, &words[8..])? else {
            return Ok(Some(said(alloc, "no such seat")?));
        };
        self.kept = Some(Kept::new(alloc, &params, seats.as_slice())?);
        Ok(Some(said(alloc, "ok")?))
    }

    /// The answer to a line of this first word and this rest.
    pub fn answer(
        &mut self,
        alloc: Global,
        first: &str,
        rest: &str,
    ) -> Result<Option<String>, Memory> {
        let words = words_of(alloc, rest)?;
        match first {
            "faulty" => self.faulty(alloc, words.as_slice()),
            "text" => text(alloc, &mut self.texts, words.as_slice()),
            _ => match &mut self.kept {
                Some(kept) => of_kept(alloc, kept, first, words.as_slice()),
                None => Ok(Some(said(alloc, "no deployment")?)),
            },
        }
    }
}
