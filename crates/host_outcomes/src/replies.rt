//! The orders that are given to tenants, and the replies to all.

ghost use Rattle.std.specs.Prelude.{◌≡◌, ◌≤◌, ◌<◌, ◌+◌, ℕ, ◌++◌, ◌∷◌, List, IfOk, OnOk, filter, is_none, length, map, not, slice_index_or};
ghost use Rattle.std.specs.List.{AllByRecursion};
ghost use Rattle.host_judge.specs.host_text.specs.declared.script.Free.{Free as AnyFree};
ghost use Rattle.host_judge.specs.host_text.specs.Laws.{IsFree, IsSpeltFabric};
ghost use Rattle.fab_orders.specs.ten_parcel.specs.Parcels.{IsParcel};
ghost use Rattle.fab_orders.specs.declared.outcomes.Answer.{Answer as AnyAnswer};
ghost use Rattle.host_judge.specs.host_form.specs.Orders.{free_line};
ghost use Rattle.host_report.specs.Ends.{is_refused};
ghost use Rattle.host_outcomes.specs.Given.{answered, costs_begun, costs_of, given, order_for, reply_for, wanted_by, with_reply};
ghost use Rattle.host_outcomes.specs.Steps.{said_at_once, AreMade};

use crate::tenants::{begun_of, ended_of, number_among, reply_at_once, tenant_in};
use crate::words::words_of;
use fab_orders::outcomes::{Answer, Order, Reached, Start, Wanted};
use host_judge::block::{FreeLine, Reply};
use host_judge::refusal::Refusal;
use host_judge::script::{Free, Script};
use host_report::transit::Transit;
use std::alloc::{AllocError, Global};
use ten_files::name::copy_text;

/// What an order wants of its tenant.
fn wanted_of(alloc: Global, order: &Free) -> Result<Wanted, AllocError>
    ensures { IfOk result (λ w. w ≡ wanted_by order.now) }
{
    match order {
        Free::Move(_, fabric) => Ok(Wanted::Move(*fabric)),
        Free::Stop(_) => Ok(Wanted::Stop),
        Free::Save(_, name) => Ok(Wanted::Save(copy_text(alloc, name)?)),
        Free::Watch(_) => Ok(Wanted::Watch),
    }
}

/// An order, to the number that its tenant has among those that run.
fn order_of(alloc: Global, refusals: &[Option<Refusal>], order: &Free) -> Result<Order, AllocError>
    requires { (fabrics : ℕ) × IsFree fabrics (length refusals.now) order.now }
    ensures { IfOk result (λ o. o ≡ order_for (map is_refused refusals.now) order.now) }
{
    let tenant = number_among(refusals, tenant_in(order));
    let wanted = wanted_of(alloc, order)?;
    Ok(Order { tenant, wanted })
}

/// An order is given to its tenant as it begins.
fn is_given(script: &Script, refusals: &[Option<Refusal>], starts: &[Start], order: &Free) -> bool
    requires running { length starts.now ≡ length (filter (λ r. not r) (map is_refused refusals.now)) }
    requires order { IsFree (length script.now.fabrics) (length refusals.now) order.now }
    requires parcels { AllByRecursion (λ s. IsParcel s.transit.parcel) starts.now }
    requires spelt { AllByRecursion IsSpeltFabric script.now.fabrics }
    ensures { result ≡ is_none (said_at_once script.now.fabrics (map is_refused refusals.now) (costs_begun starts.now) order.now) }
{
    let parcel = begun_of(refusals, starts, tenant_in(order));
    reply_at_once(script.fabrics.as_slice(), parcel, order).is_none()
}

/// One order more, where it is given.
fn add_order(
    alloc: Global,
    orders: &mut Vec<Order>,
    script: &Script,
    refusals: &[Option<Refusal>],
    starts: &[Start],
    order: &Free,
) -> Result<(), AllocError>
    requires running { length starts.now ≡ length (filter (λ r. not r) (map is_refused refusals.now)) }
    requires order { IsFree (length script.now.fabrics) (length refusals.now) order.now }
    requires parcels { AllByRecursion (λ s. IsParcel s.transit.parcel) starts.now }
    requires spelt { AllByRecursion IsSpeltFabric script.now.fabrics }
    ensures { OnOk result ((rest : List AnyFree) → orders.new.items ++ given script.now.fabrics (map is_refused refusals.now) (costs_begun starts.now) rest ≡ orders.old.items ++ given script.now.fabrics (map is_refused refusals.now) (costs_begun starts.now) (order.now ∷ rest)) }
{
    if is_given(script, refusals, starts, order) {
        orders.push(order_of(alloc, refusals, order)?)?;
    }
    Ok(())
}

/// The orders of a script that are given to its tenants as they begin. An `Err` is want of memory alone.
pub fn orders_of(
    alloc: Global,
    script: &Script,
    refusals: &[Option<Refusal>],
    starts: &[Start],
) -> Result<Vec<Order>, AllocError>
    requires count { length refusals.now ≡ length script.now.tenants }
    requires running { length starts.now ≡ length (filter (λ r. not r) (map is_refused refusals.now)) }
    requires orders { AllByRecursion (IsFree (length script.now.fabrics) (length script.now.tenants)) script.now.free }
    requires parcels { AllByRecursion (λ s. IsParcel s.transit.parcel) starts.now }
    requires spelt { AllByRecursion IsSpeltFabric script.now.fabrics }
    ensures { IfOk result (λ orders. orders.items ≡ given script.now.fabrics (map is_refused refusals.now) (costs_begun starts.now) script.now.free) }
{
    let mut orders = Vec::new(alloc);
    for order in script.free.as_slice() {
        add_order(alloc, &mut orders, script, refusals, starts, order)?;
    }
    Ok(orders)
}

/// The reply that says what came of an order.
fn reply_by(reached: Reached) -> Reply
    ensures { result ≡ reply_for reached }
{
    match reached {
        Reached::At(tick) => Reply::At(tick),
        Reached::Ended(tick) => Reply::Ended(tick),
    }
}

/// The reply to an order that isn't given to its tenant, which has ended so.
fn reply_to(
    script: &Script,
    refusals: &[Option<Refusal>],
    ended: &[Transit],
    order: &Free,
) -> Option<Reply>
    requires running { length ended.now ≡ length (filter (λ r. not r) (map is_refused refusals.now)) }
    requires order { IsFree (length script.now.fabrics) (length refusals.now) order.now }
    requires parcels { AllByRecursion (λ e. IsParcel e.parcel) ended.now }
    requires spelt { AllByRecursion IsSpeltFabric script.now.fabrics }
    ensures { result ≡ said_at_once script.now.fabrics (map is_refused refusals.now) (costs_of ended.now) order.now }
{
    let parcel = ended_of(refusals, ended, tenant_in(order));
    reply_at_once(script.fabrics.as_slice(), parcel, order)
}

/// The line of an order.
fn line_of(
    alloc: Global,
    script: &Script,
    order: &Free,
    reply: Reply,
) -> Result<FreeLine, AllocError>
    requires { IsFree (length script.now.fabrics) (length script.now.tenants) order.now }
    ensures { IfOk result (λ line. line ≡ free_line script.now (with_reply order.now reply)) }
{
    let words = words_of(alloc, script, order)?;
    Ok(FreeLine { words, reply })
}

/// The lines of some orders, and how many answers were taken for them.
#[derive(Drop)]
struct Lines {
    lines: Vec<FreeLine>,
    next: usize,
}

impl Lines {
    /// What the next answer says.
    fn next_reply(&mut self, answers: &[Answer]) -> Reply
        requires { self.now.next < length answers.now }
        ensures reply { (d : AnyAnswer) → result ≡ reply_for (slice_index_or answers.now self.old.next d).reached }
        ensures next { self.new.next ≡ self.old.next + 1 }
        ensures lines { self.new.lines ≡ self.old.lines }
    {
        let reply = reply_by(answers[self.next].reached);
        self.next += 1;
        reply
    }

    /// The line of one order more. An `Err` is want of memory alone.
    fn add(
        &mut self,
        alloc: Global,
        script: &Script,
        refusals: &[Option<Refusal>],
        ended: &[Transit],
        answers: &[Answer],
        order: &Free,
    ) -> Result<(), AllocError>
        requires count { length refusals.now ≡ length script.now.tenants }
        requires running { length ended.now ≡ length (filter (λ r. not r) (map is_refused refusals.now)) }
        requires order { IsFree (length script.now.fabrics) (length script.now.tenants) order.now }
        requires parcels { AllByRecursion (λ e. IsParcel e.parcel) ended.now }
        requires spelt { AllByRecursion IsSpeltFabric script.now.fabrics }
        requires made { (rest : List AnyFree) × AreMade script.now (map is_refused refusals.now) (costs_of ended.now) answers.now self.now.lines.items self.now.next (order.now ∷ rest) }
        ensures { OnOk result ((rest : List AnyFree) → AreMade script.now (map is_refused refusals.now) (costs_of ended.now) answers.now self.old.lines.items self.old.next (order.now ∷ rest) → AreMade script.now (map is_refused refusals.now) (costs_of ended.now) answers.now self.new.lines.items self.new.next rest) }
    {
        let reply = match reply_to(script, refusals, ended, order) {
            Some(reply) => reply,
            None => self.next_reply(answers),
        };
        self.lines.push(line_of(alloc, script, order, reply)?)?;
        Ok(())
    }
}

/// The lines of the free orders of a script, where tenants have ended so, and orders that were given have these answers. An `Err` is want of memory alone.
pub fn replies(
    alloc: Global,
    script: &Script,
    refusals: &[Option<Refusal>],
    ended: &[Transit],
    answers: &[Answer],
) -> Result<Vec<FreeLine>, AllocError>
    requires count { length refusals.now ≡ length script.now.tenants }
    requires running { length ended.now ≡ length (filter (λ r. not r) (map is_refused refusals.now)) }
    requires orders { AllByRecursion (IsFree (length script.now.fabrics) (length script.now.tenants)) script.now.free }
    requires parcels { AllByRecursion (λ e. IsParcel e.parcel) ended.now }
    requires spelt { AllByRecursion IsSpeltFabric script.now.fabrics }
    requires given { map (λ a. a.order.value) answers.now ≡ given script.now.fabrics (map is_refused refusals.now) (costs_of ended.now) script.now.free }
    ensures { IfOk result (λ lines. lines.items ≡ map (free_line script.now) (answered script.now.fabrics (map is_refused refusals.now) (costs_of ended.now) script.now.free answers.now)) }
{
    let mut made = Lines {
        lines: Vec::new(alloc),
        next: 0,
    };
    for order in script.free.as_slice() {
        made.add(alloc, script, refusals, ended, answers, order)?;
    }
    Ok(made.lines)
}
