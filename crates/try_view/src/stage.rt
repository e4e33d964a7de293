//! The answers to cases: of the view changes that were added so far, and of choices.

ghost use Rattle.std.specs.Prelude.{IsTrue};
ghost use Rattle.fw_base.specs.Sizes.{accepted};
ghost use Rattle.fw_frame.specs.Writing.{IsWritableChange};

use crate::chosen::chosen_text;
use crate::kept::Kept;
use crate::made;
use crate::notation::{bytes_of, number, number_or_none, parts_of, said, two_numbers, words_of};
use fw_base::Params;
use fw_frame::{Change, Frame};
use fw_list::{Bytes, Memory};
use fw_view::Changes;
use std::alloc::Global;

/// The view changes so far, once sizes were named, and the bytes that a choice was last asked of.
#[derive(Drop)]
pub struct Stage {
    kept: Option<Kept>,
    bytes: Bytes,
}

/// Eight numbers, from f on.
fn params_of(words: &[&str]) -> Option<Params> {
    let [f, g, h, numbers, views, clients, stamps, pipe] = words else {
        return None;
    };
    Some(Params {
        f: number(f)?,
        g: number(g)?,
        h: number(h)?,
        numbers: number(numbers)?,
        views: number(views)?,
        clients: number(clients)?,
        stamps: number(stamps)?,
        pipe: number(pipe)?,
    })
}

/// Adds a view change: `first`, `again`, or `no such view`.
fn added(alloc: Global, kept: &mut Kept, change: &Change<'_>) -> Result<Option<String>, Memory>
    requires { IsWritableChange change.now }
{
    let word = match kept.add(change)? {
        Some(true) => "first",
        Some(false) => "again",
        None => "no such view",
    };
    Ok(Some(said(alloc, word)?))
}

/// `change BYTES`: adds the view change whose frame these bytes are.
fn change(alloc: Global, kept: &mut Kept, words: &[&str]) -> Result<Option<String>, Memory> {
    let [word] = words else {
        return Ok(None);
    };
    let Some(bytes) = bytes_of(alloc, word)? else {
        return Ok(None);
    };
    let params = kept.params();
    match Frame::read(alloc, &params, bytes.items())? {
        Some(Frame::Change(change)) => added(alloc, kept, &change),
        _ => Ok(Some(said(alloc, "no view change")?)),
    }
}

/// `made-change VIEW AGREE PROOF ..`: adds a view change that is made here.
fn made_change(alloc: Global, kept: &mut Kept, words: &[&str]) -> Result<Option<String>, Memory> {
    let Some((view, rest)) = words.split_first() else {
        return Ok(None);
    };
    let Some((agree, proofs)) = rest.split_first() else {
        return Ok(None);
    };
    let (Some(view), Some(agree)) = (number(view), number(agree)) else {
        return Ok(None);
    };
    match made::change(alloc, view, agree, proofs)? {
        Some(change) => added(alloc, kept, &change),
        None => Ok(None),
    }
}

/// `enough VIEW`: whether a quorum has sent changes to this view.
fn enough(alloc: Global, changes: &Changes, words: &[&str]) -> Result<Option<String>, Memory> {
    let [word] = words else {
        return Ok(None);
    };
    let Some(view) = number(word) else {
        return Ok(None);
    };
    let word = if changes.enough(view) { "yes" } else { "no" };
    Ok(Some(said(alloc, word)?))
}

/// `join OWN AGREE`: the view that this node joins, which is now in view OWN.
fn join(alloc: Global, changes: &Changes, words: &[&str]) -> Result<Option<String>, Memory> {
    let Some((own, agree)) = two_numbers(words) else {
        return Ok(None);
    };
    Ok(Some(number_or_none(alloc, changes.join(own, agree))?))
}

/// `frame VIEW AGREE`: how many bytes the frame of this node's first change to this view has.
fn frame(alloc: Global, changes: &Changes, words: &[&str]) -> Result<Option<String>, Memory> {
    let Some((view, agree)) = two_numbers(words) else {
        return Ok(None);
    };
    let count = match changes.frame(view, agree) {
        Some(bytes) => u32::try_from(bytes.len()).ok(),
        None => None,
    };
    Ok(Some(number_or_none(alloc, count)?))
}

/// What the new view whose frame these bytes are proposes at a number.
fn choice_of(
    alloc: Global,
    params: &Params,
    bytes: &[u8],
    number: u32,
) -> Result<Option<String>, Memory>
    requires { IsTrue (accepted params.now) }
{
    match Frame::read(alloc, params, bytes)? {
        Some(Frame::NewView { changes, .. }) => {
            Ok(Some(chosen_text(alloc, changes.items(), number)?))
        }
        _ => Ok(Some(said(alloc, "no new view")?)),
    }
}

/// `made-choice NUMBER | AGREE PROOF .. | AGREE PROOF ..`: the choice among view changes that are made here.
fn made_choice(alloc: Global, rest: &str) -> Result<Option<String>, Memory> {
    let parts = parts_of(alloc, rest)?;
    let Some((first, listed)) = parts.as_slice().split_first() else {
        return Ok(None);
    };
    let Some(number) = number(first.trim()) else {
        return Ok(None);
    };
    match made::changes(alloc, listed)? {
        Some(changes) => Ok(Some(chosen_text(alloc, changes.items(), number)?)),
        None => Ok(None),
    }
}

/// The answer to a case of the view changes so far.
fn of_kept(
    alloc: Global,
    kept: &mut Kept,
    first: &str,
    words: &[&str],
) -> Result<Option<String>, Memory> {
    match first {
        "change" => change(alloc, kept, words),
        "made-change" => made_change(alloc, kept, words),
        "enough" => enough(alloc, kept.changes(), words),
        "join" => join(alloc, kept.changes(), words),
        "frame" => frame(alloc, kept.changes(), words),
        _ => Ok(None),
    }
}

impl Stage {
    /// No sizes so far.
    pub fn new(alloc: Global) -> Self {
        Stage {
            kept: None,
            bytes: Bytes::new(alloc),
        }
    }

    /// `sizes F G H NUMBERS VIEWS CLIENTS STAMPS PIPE`: names the sizes, for which there are no view changes so far.
    fn sizes(&mut self, alloc: Global, words: &[&str]) -> Result<Option<String>, Memory> {
        let Some(params) = params_of(words) else {
            return Ok(None);
        };
        if !params.are_accepted() {
            return Ok(Some(said(alloc, "refused")?));
        }
        self.kept = Some(Kept::new(alloc, &params)?);
        Ok(Some(said(alloc, "ok")?))
    }

    /// `choice BYTES NUMBER`: the choice of the new view whose frame these bytes are; `=` stands for the bytes of the last such line.
    fn choice(&mut self, alloc: Global, words: &[&str]) -> Result<Option<String>, Memory> {
        let [word, number_word] = words else {
            return Ok(None);
        };
        let Some(number) = number(number_word) else {
            return Ok(None);
        };
        if *word != "=" {
            let Some(bytes) = bytes_of(alloc, word)? else {
                return Ok(None);
            };
            self.bytes = bytes;
        }
        match &self.kept {
            Some(kept) => choice_of(alloc, &kept.params(), self.bytes.items(), number),
            None => Ok(Some(said(alloc, "no sizes")?)),
        }
    }

    /// The answer to a line of this first word and this rest.
    pub fn answer(
        &mut self,
        alloc: Global,
        first: &str,
        rest: &str,
    ) -> Result<Option<String>, Memory> {
        if first == "made-choice" {
            return made_choice(alloc, rest);
        }
        let words = words_of(alloc, rest)?;
        match first {
            "sizes" => self.sizes(alloc, words.as_slice()),
            "choice" => self.choice(alloc, words.as_slice()),
            _ => match &mut self.kept {
                Some(kept) => of_kept(alloc, kept, first, words.as_slice()),
                None => Ok(Some(said(alloc, "no sizes")?)),
            },
        }
    }
}
