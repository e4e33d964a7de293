//! The passes of an agreement node, each over what the ones before it left.

ghost use Rattle.std.specs.Prelude.{◌≡◌, ◌≤◌, ◌<◌, ◌+◌, ℕ, List, length, map, drop, take, OnOk, IfOk, IfSome, IsTrue};
ghost use Rattle.std.specs.Option.{option_map};
ghost use Rattle.fw_base.specs.declared.params.Params.{Params};
ghost use Rattle.fw_base.specs.Sizes.{accepted};
ghost use Rattle.fw_hand.specs.Hands.{PlainHand};
ghost use Rattle.fw_rules.specs.Agree as agree;
ghost use Rattle.fw_rules.specs.Views as views;
ghost use Rattle.fw_kept.specs.Kept.{self_of, node_of, act_of, IsFor};
ghost use Rattle.fw_owned.specs.Pieces.{request_of};
ghost use Rattle.fw_kept.specs.Acts.{IsDoable, IsOpen};
ghost use Rattle.fw_act.specs.Doing.{IsAgreements};
ghost use Rattle.fw_agree.specs.Steps.{at, chooses};

use crate::turning::changes_view;
use fw_act::performs;
use fw_choose::{commits, goes_up, offers_choice, offers_request, pledges, prepares};
use fw_directory::Directory;
use fw_hand::Hand;
use fw_kept::{Act, Keeps};
use fw_list::Memory;
use fw_node::Outbox;
use std::alloc::Global;

/// A pass over the numbers of the list.
#[derive(Clone, Copy, Debug, PartialEq, Eq)]
pub enum Pass {
    /// Proposals of what the view's new view chooses.
    Choices,
    /// Prepare votes.
    Prepares,
    /// Commit votes.
    Pledges,
    /// What is agreed.
    Commits,
    /// What goes up.
    Ups,
}

/// What is chosen at a number.
fn chosen(
    alloc: Global,
    directory: &Directory,
    own: u32,
    keeps: &Keeps,
    pass: Pass,
    number: u32,
) -> Result<Option<Act>, Memory>
    requires sizes { IsTrue (accepted directory.now.params) }
    requires first { 1 ≤ number }
    requires last { number ≤ directory.now.params.numbers }
    requires for_sizes { IsFor directory.now.params keeps.now }
    ensures act { IfOk result (λ act. (hand : PlainHand) → option_map act_of act ≡ chooses pass (self_of directory.now hand own) (node_of keeps.now) number) }
    ensures doable { IfOk result (λ act. IfSome act (IsDoable directory.now.params)) }
    ensures open { IfOk result (λ act. IfSome act (IsOpen keeps.now)) }
{
    match pass {
        Pass::Choices => offers_choice(alloc, directory, own, keeps, number),
        Pass::Prepares => prepares(alloc, directory, own, keeps, number),
        Pass::Pledges => pledges(alloc, directory, keeps, number),
        Pass::Commits => commits(alloc, directory, keeps, number),
        Pass::Ups => goes_up(alloc, directory, keeps, number),
    }
}

/// Does what was chosen, where something was.
fn does(
    alloc: Global,
    directory: &Directory,
    own: u32,
    hand: &Hand,
    keeps: &mut Keeps,
    act: Option<Act>,
    out: &mut Outbox,
) -> Result<(), Memory>
    requires hand { IsAgreements directory.now.params own hand.now }
    requires doable { IfSome act (IsDoable directory.now.params) }
    requires open { IfSome act (IsOpen keeps.old) }
    requires for_sizes { IsFor directory.now.params keeps.old }
    ensures step { OnOk result (at keeps.new out.new ≡ agree.acted (self_of directory.now hand.now own) (at keeps.old out.old) (option_map act_of act)) }
    ensures sizes { (p : Params) → IsFor p keeps.old → IsFor p keeps.new }
    ensures begins { take (length out.old) out.new ≡ out.old }
{
    match act {
        Some(act) => performs(alloc, directory, own, hand, keeps, act, out),
        None => Ok(()),
    }
}

/// Goes over all numbers of the list: at each, what is chosen then is done.
fn goes_over(
    alloc: Global,
    directory: &Directory,
    own: u32,
    hand: &Hand,
    keeps: &mut Keeps,
    pass: Pass,
    out: &mut Outbox,
) -> Result<(), Memory>
    requires hand { IsAgreements directory.now.params own hand.now }
    requires for_sizes { IsFor directory.now.params keeps.old }
    ensures step { OnOk result (let me = self_of directory.now hand.now own in at keeps.new out.new ≡ agree.for_each me (chooses pass me) (agree.numbers me) (at keeps.old out.old)) }
    ensures sizes { (p : Params) → IsFor p keeps.old → IsFor p keeps.new }
    ensures begins { take (length out.old) out.new ≡ out.old }
{
    for k in 0..directory.params().numbers {
        let act = chosen(alloc, directory, own, keeps, pass, k + 1)?;
        does(alloc, directory, own, hand, keeps, act, out)?;
    }
    Ok(())
}

/// The proposal of the remembered request at a place.
fn offered(
    alloc: Global,
    directory: &Directory,
    own: u32,
    keeps: &Keeps,
    place: usize,
) -> Result<Option<Act>, Memory>
    requires sizes { IsTrue (accepted directory.now.params) }
    requires place { place < length keeps.now.requests }
    ensures act { IfOk result (λ act. (hand : PlainHand) (s : agree.Step (List ℕ)) → s.0 ≡ node_of keeps.now → let me = self_of directory.now hand own in let requests = map request_of keeps.now.requests in agree.for_each me (agree.offers_request me) (drop place requests) s ≡ agree.for_each me (agree.offers_request me) (drop (place + 1) requests) (agree.acted me s (option_map act_of act))) }
    ensures doable { IfOk result (λ act. IfSome act (IsDoable directory.now.params)) }
    ensures open { IfOk result (λ act. IfSome act (IsOpen keeps.now)) }
{
    match keeps.requests.at(place) {
        Some(request) => offers_request(alloc, directory, own, keeps, request),
        None => Ok(None),
    }
}

/// Goes over the remembered requests: each that waits is proposed.
fn offers_requests(
    alloc: Global,
    directory: &Directory,
    own: u32,
    hand: &Hand,
    keeps: &mut Keeps,
    out: &mut Outbox,
) -> Result<(), Memory>
    requires hand { IsAgreements directory.now.params own hand.now }
    requires for_sizes { IsFor directory.now.params keeps.old }
    ensures step { OnOk result (let me = self_of directory.now hand.now own in at keeps.new out.new ≡ agree.for_each me (agree.offers_request me) (map request_of keeps.old.requests) (at keeps.old out.old)) }
    ensures sizes { (p : Params) → IsFor p keeps.old → IsFor p keeps.new }
    ensures begins { take (length out.old) out.new ≡ out.old }
{
    for place in 0..keeps.requests.len() {
        let act = offered(alloc, directory, own, keeps, place)?;
        does(alloc, directory, own, hand, keeps, act, out)?;
    }
    Ok(())
}

/// Makes the passes that order numbers in a view. After want of memory the outbox begins with what it had.
fn orders(
    alloc: Global,
    directory: &Directory,
    own: u32,
    hand: &Hand,
    keeps: &mut Keeps,
    out: &mut Outbox,
) -> Result<(), Memory>
    requires hand { IsAgreements directory.now.params own hand.now }
    requires for_sizes { IsFor directory.now.params keeps.old }
    ensures step { OnOk result (at keeps.new out.new ≡ agree.passes (self_of directory.now hand.now own) (at keeps.old out.old)) }
    ensures sizes { (p : Params) → IsFor p keeps.old → IsFor p keeps.new }
    ensures begins { take (length out.old) out.new ≡ out.old }
{
    goes_over(alloc, directory, own, hand, keeps, Pass::Choices, out)?;
    offers_requests(alloc, directory, own, hand, keeps, out)?;
    goes_over(alloc, directory, own, hand, keeps, Pass::Prepares, out)?;
    goes_over(alloc, directory, own, hand, keeps, Pass::Pledges, out)?;
    goes_over(alloc, directory, own, hand, keeps, Pass::Commits, out)?;
    goes_over(alloc, directory, own, hand, keeps, Pass::Ups, out)
}

/// Makes all passes: those that turn its view, then those that order numbers in it. After want of memory the outbox begins with what it
/// had.
pub(crate) fn passes(
    alloc: Global,
    directory: &Directory,
    own: u32,
    hand: &Hand,
    keeps: &mut Keeps,
    out: &mut Outbox,
) -> Result<(), Memory>
    requires hand { IsAgreements directory.now.params own hand.now }
    requires for_sizes { IsFor directory.now.params keeps.old }
    ensures step { OnOk result (at keeps.new out.new ≡ views.passes (self_of directory.now hand.now own) (at keeps.old out.old)) }
    ensures sizes { IsFor directory.now.params keeps.new }
    ensures begins { take (length out.old) out.new ≡ out.old }
{
    changes_view(alloc, directory, own, hand, keeps, out)?;
    orders(alloc, directory, own, hand, keeps, out)
}
