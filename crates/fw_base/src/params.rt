//! The sizes of a deployment, and what follows from them.

ghost use Rattle.std.specs.Prelude.{◌≡◌, ◌≤◌, ◌+◌, ◌*◌, ◌↔◌, IsTrue, IsOk, IfOk, IfErr, None, Some};
ghost use Rattle.fw_base.specs.Checks.{fault_of};
ghost use Rattle.fw_base.specs.Seats.{seats};
ghost use Rattle.fw_base.specs.Sizes.{accepted, agreements, executors, width, quorum, keys};
ghost use Rattle.fw_base.specs.declared.limits.TheConstants.{MOST_FAULTS, MOST_NUMBERS, MOST_VIEWS};

use crate::limits::{MOST_CLIENTS, MOST_FAULTS, MOST_KEYS, MOST_NUMBERS, MOST_STAMPS, MOST_VIEWS};

/// The sizes of a deployment: the faults that it bears of each kind, and its limits.
#[derive(Clone, Copy, Debug, PartialEq, Eq)]
pub struct Params {
    pub f: u32,
    pub g: u32,
    pub h: u32,
    pub numbers: u32,
    pub views: u32,
    pub clients: u32,
    pub stamps: u32,
    pub pipe: u32,
}

/// Why a deployment can't have these sizes.
#[derive(Clone, Copy, Debug, PartialEq, Eq)]
pub enum ParamFault {
    /// This field, from 0 in their order, is out of its limit.
    Field(u32),
    /// So many keys of one-time signatures are more than there may be.
    TooManyKeys(u32),
}

impl Params {
    /// The same sizes, if a deployment may have them, and else the first fault.
    pub fn check(self) -> Result<Params, ParamFault>
        ensures ok { IfOk result (λ same. (same ≡ self) × (fault_of self ≡ None)) }
        ensures err { IfErr result (λ fault. fault_of self ≡ Some fault) }
        ensures accepted { IsOk result ↔ IsTrue (accepted self) }
    {
        if self.f > MOST_FAULTS {
            return Err(ParamFault::Field(0));
        }
        if self.g > MOST_FAULTS {
            return Err(ParamFault::Field(1));
        }
        if self.h > MOST_FAULTS {
            return Err(ParamFault::Field(2));
        }
        if self.numbers < 1 || self.numbers > MOST_NUMBERS {
            return Err(ParamFault::Field(3));
        }
        if self.views < 1 || self.views > MOST_VIEWS {
            return Err(ParamFault::Field(4));
        }
        if self.clients < 1 || self.clients > MOST_CLIENTS {
            return Err(ParamFault::Field(5));
        }
        if self.stamps < 1 || self.stamps > MOST_STAMPS {
            return Err(ParamFault::Field(6));
        }
        if self.pipe < 1 || self.pipe > self.numbers {
            return Err(ParamFault::Field(7));
        }
        if self.clients * self.stamps > self.numbers {
            return Err(ParamFault::Field(3));
        }
        let keys = key_count(&self);
        if keys > MOST_KEYS {
            return Err(ParamFault::TooManyKeys(keys));
        }
        Ok(self)
    }

    /// Whether a deployment may have these sizes.
    pub fn are_accepted(&self) -> bool
        ensures { result ≡ accepted self.now }
    {
        self.check().is_ok()
    }

    /// How many agreement nodes there are.
    pub fn agreements(&self) -> u32
        requires { IsTrue (accepted self.now) }
        ensures { result ≡ agreements self.now }
    {
        agreement_nodes(self.f)
    }

    /// How many executors there are.
    pub fn executors(&self) -> u32
        requires { IsTrue (accepted self.now) }
        ensures { result ≡ executors self.now }
    {
        2 * self.g + 1
    }

    /// How many rows of filters there are, and how many filters in a row.
    pub fn width(&self) -> u32
        requires { IsTrue (accepted self.now) }
        ensures { result ≡ width self.now }
    {
        self.h + 1
    }

    /// How many agreement nodes decide.
    pub fn quorum(&self) -> u32
        requires { IsTrue (accepted self.now) }
        ensures { result ≡ quorum self.now }
    {
        2 * self.f + 1
    }

    /// How many keys of one-time signatures there are, without those of replies.
    pub fn keys(&self) -> u32
        requires { IsTrue (accepted self.now) }
        ensures { result ≡ keys self.now }
    {
        key_count(self)
    }

    /// How many seats there are.
    pub fn seats(&self) -> u32
        requires { IsTrue (accepted self.now) }
        ensures { result ≡ seats self.now }
    {
        let width = self.width();
        self.agreements() + self.executors() + width * width + self.clients
    }
}

/// How many agreement nodes bear so many faults.
fn agreement_nodes(f: u32) -> u32
    requires { f ≤ MOST_FAULTS }
    ensures { result ≡ 3 * f + 1 }
{
    3 * f + 1
}

/// How many keys of one-time signatures sizes within these limits have.
fn key_count(params: &Params) -> u32
    requires faults { params.now.f ≤ MOST_FAULTS }
    requires numbers { params.now.numbers ≤ MOST_NUMBERS }
    requires views { params.now.views ≤ MOST_VIEWS }
    requires stamps { params.now.clients * params.now.stamps ≤ params.now.numbers }
    ensures { result ≡ keys params.now }
{
    let agreements = agreement_nodes(params.f);
    let votes = params.views * params.numbers * agreements;
    2 * votes + 2 * (params.views * agreements) + params.clients * params.stamps
}
