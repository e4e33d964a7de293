//! Nodes that are spoken to, and frames that have names.

ghost use Rattle.std.specs.Prelude.{◌≡◌, ◌<◌, length, IfOk, IfSome, IsTrue};
ghost use Rattle.fw_base.specs.Sizes.{accepted};
ghost use Rattle.fw_base.specs.Seats.{fits};
ghost use Rattle.fw_node.specs.Histories.{IsGiven};

use crate::fault::Fault;
use crate::node::AnyNode;
use crate::shown::{add_sent, said};
use fw_base::{Params, Seat};
use fw_client::ClientNode;
use fw_deal::Deal;
use fw_list::{Bytes, Items, Memory};
use fw_node::{Input, Outbox};
use std::alloc::Global;
use std::marker::Model;

/// A frame with a name.
#[derive(Drop)]
pub struct Named {
    pub name: Bytes,
    pub bytes: Bytes,
}

/// A deal, the nodes of its seats that were spoken to, the frames that have names, and what was sent last.
#[derive(Drop)]
pub struct Stage {
    alloc: Global,
    deal: Deal,
    nodes: Vec<AnyNode>,
    frames: Items<Named>,
    last: Outbox,
}

impl Model for Stage {
    ghost use Rattle.std.specs.Prelude.{List};
    ghost use Rattle.fw_deal.specs.Deals.{PlainDeal};
    ghost use Rattle.try_nodes.specs.declared.node.AnyNode.{AnyNode};
    ghost use Rattle.try_nodes.specs.Sizes.{AreOf};

    ghost Value = { PlainDeal × List AnyNode };

    ghost view = { λ s. (s.deal, s.nodes.items) };

    ghost invariant = { λ s. AreOf s.deal s.nodes.items };
}

impl Stage {
    /// The deal of a seed of zeros, where nobody was spoken to and nothing has a name.
    pub fn new(alloc: Global, params: &Params) -> Result<Stage, Memory>
        requires { IsTrue (accepted params.now) }
    {
        let deal = Deal::new(alloc, params, &[0; 32], &[])?;
        Ok(Stage {
            alloc,
            deal,
            nodes: Vec::new(alloc),
            frames: Items::new(alloc),
            last: Outbox::new(alloc),
        })
    }

    pub fn alloc(&self) -> Global {
        self.alloc
    }

    pub fn deal(&self) -> &Deal
        ensures { result.now ≡ self.now.0 }
    {
        &self.deal
    }

    /// The place of a seat's node.
    fn place(&self, seat: Seat) -> Option<usize>
        ensures { IfSome result (λ k. k < length self.now.1) }
    {
        for k in 0..self.nodes.len() {
            if self.nodes[k].seat().is(seat) {
                return Some(k);
            }
        }
        None
    }

    /// The place of a seat's node, which is a new one where the seat wasn't spoken to.
    pub fn meet(&mut self, seat: Seat) -> Result<usize, Memory>
        requires { IsTrue (fits self.old.0.origin.params seat) }
        ensures { IfOk result (λ k. k < length self.new.1) }
    {
        if let Some(k) = self.place(seat) {
            return Ok(k);
        }
        let k = self.nodes.len();
        let node = AnyNode::new(self.alloc, &self.deal, seat)?;
        self.nodes.push(node)?;
        Ok(k)
    }

    /// The node of a client that was spoken to.
    pub fn client(&self, seat: Seat) -> Result<&ClientNode, Fault> {
        let k = self.place(seat).ok_or(Fault::NoLine)?;
        match &self.nodes[k] {
            AnyNode::Client(node) => Ok(node),
            _ => Err(Fault::NoLine),
        }
    }

    /// Gives the node of a seat an input: the text of what it sends.
    pub fn take(&mut self, seat: Seat, input: Input<'_>) -> Result<Bytes, Fault>
        requires seat { IsTrue (fits self.old.0.origin.params seat) }
        requires op { IsGiven input }
    {
        let k = self.meet(seat)?;
        let mut out = Outbox::new(self.alloc);
        let node = &mut self.nodes[k];
        node.take(self.deal.directory(), input, &mut out)?;
        let mut text = said(self.alloc, "sent")?;
        add_sent(self.alloc, &mut text, self.frames.items(), out.sent())?;
        self.last = out;
        Ok(text)
    }

    /// The frame of a name.
    pub fn frame(&self, name: &str) -> Result<&Bytes, Fault> {
        for named in self.frames.items() {
            if named.name.items() == name.as_bytes() {
                return Ok(&named.bytes);
            }
        }
        Err(Fault::NoLine)
    }

    /// Gives a frame a name that is new.
    pub fn name(&mut self, name: &str, bytes: Bytes) -> Result<(), Fault> {
        if self.frame(name).is_ok() {
            return Err(Fault::NoLine);
        }
        let name = said(self.alloc, name)?;
        self.frames.push(Named { name, bytes })?;
        Ok(())
    }

    /// A copy of the frame behind the bar of this number, from 1, of what was sent last.
    pub fn sent(&self, number: u32) -> Result<Bytes, Fault> {
        let mut bars: u32 = 0;
        let mut before: &[u8] = &[];
        for sent in self.last.sent() {
            let bytes = sent.bytes.items();
            if bytes != before {
                bars = bars.saturating_add(1);
            }
            if bars == number {
                return Ok(Bytes::copy_of(self.alloc, bytes)?);
            }
            before = bytes;
        }
        Err(Fault::NoLine)
    }

    /// These bytes with another byte at a place.
    pub fn with_byte(&self, bytes: &[u8], place: usize, byte: u8) -> Result<Bytes, Fault> {
        let mut out = Bytes::new(self.alloc);
        for (k, old) in bytes.iter().enumerate() {
            out.push(if k == place { byte } else { *old })?;
        }
        Ok(out)
    }
}
