//! The combiner of shares.

ghost use Rattle.std.specs.Prelude.{◌≡◌, [], false, true, None, IfOk, IfSome, OnOk, OnErr, IsOk, IsTrue};
ghost use Rattle.fw_base.specs.Sizes.{accepted};
ghost use Rattle.fw_trace.specs.Filter as filters;
ghost use Rattle.fw_frame.specs.Plain.{plain};
ghost use Rattle.fw_frame.specs.View.{viewed};
ghost use Rattle.fw_rules.specs.Roles.{combined_of};
ghost use Rattle.fw_share.specs.Shares.{IsSeen, share_in};
ghost use Rattle.fw_share.specs.Combining.{joining, added_if, made_if};

use crate::joining::reply_with;
use crate::kept::{KeptShare, answer_of, has_share};
use fw_base::Params;
use fw_frame::Frame;
use fw_list::{Bytes, Items, Memory};
use fw_valid::Checked;
use std::alloc::Global;
use std::marker::Model;

/// The shares of replies that a filter keeps: the first of each number and executor, in order.
#[derive(Drop)]
pub struct Combiner {
    alloc: Global,
    params: Params,
    shares: Items<KeptShare>,
}

impl Model for Combiner {
    ghost use Rattle.std.specs.Prelude.{map, All, IsTrue};
    ghost use Rattle.fw_base.specs.Sizes.{accepted};
    ghost use Rattle.fw_share.specs.Shares.{IsWhole, AreFirsts, valued};
    ghost use Rattle.fw_share.specs.Combining.{Combining};

    ghost Value = { Combining };

    ghost view = { λ c. record { params = c.params; kept = map valued c.shares } };

    ghost invariant = { λ c. IsTrue (accepted c.params) × All (IsWhole c.params) (map valued c.shares) × AreFirsts (map valued c.shares) };
}

impl Combiner {
    /// No shares so far.
    pub fn new(alloc: Global, params: &Params) -> Combiner
        requires { IsTrue (accepted params.now) }
        ensures { result ≡ record { params = params.now; kept = [] } }
    {
        Combiner {
            alloc,
            params: *params,
            shares: Items::new(alloc),
        }
    }

    /// Keeps a share of the deployment where it is the first of its number and executor. The answer is the reply's bytes exactly
    /// where this share is then the g + 1st with its number, client, stamp and body: they are joined from those shares. A frame
    /// that is no share changes nothing and gives none, and so does a second share of a number by its executor: those need no
    /// memory. After want of memory all is as before.
    pub fn add(&mut self, share: &Checked<'_>) -> Result<Option<Bytes>, Memory>
        requires { IsSeen self.old.params (viewed (plain share.now)) }
        ensures params { self.new.params ≡ self.old.params }
        ensures kept { OnOk result (self.new.kept ≡ added_if self.old.kept (share_in (viewed (plain share.now)))) }
        ensures made { IfOk result (λ made. made ≡ made_if self.old.params self.old.kept (share_in (viewed (plain share.now)))) }
        ensures first { IfOk result (λ made. IfSome (share_in (viewed (plain share.now))) (λ s. filters.has_share self.old.kept s.number s.exec ≡ false → combined_of (joining self.old.params) s.number self.old.kept ≡ None → made ≡ combined_of (joining self.old.params) s.number self.new.kept)) }
        ensures err { OnErr result (self.new ≡ self.old) }
        ensures other { share_in (viewed (plain share.now)) ≡ None → IsOk result }
        ensures again { IfSome (share_in (viewed (plain share.now))) (λ s. filters.has_share self.old.kept s.number s.exec ≡ true → IsOk result) }
    {
        let Frame::Share {
            number,
            exec,
            client,
            stamp,
            body,
            shares,
        } = share.frame()
        else {
            return Ok(None);
        };
        if has_share(self.shares.items(), *number, *exec) {
            return Ok(None);
        }
        let share = KeptShare {
            number: *number,
            exec: *exec,
            answer: answer_of(self.alloc, *client, *stamp, body)?,
            values: Bytes::copy_of(self.alloc, shares)?,
        };
        let made = reply_with(self.alloc, &self.params, self.shares.items(), &share)?;
        self.shares.push(share)?;
        Ok(made)
    }
}
