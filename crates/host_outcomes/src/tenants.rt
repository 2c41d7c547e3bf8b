//! The tenants of free orders.

ghost use Rattle.std.specs.Prelude.{◌≡◌, ◌≤◌, ◌<◌, IfSome, filter, is_none, length, map, not, option_copied, option_map, take};
ghost use Rattle.std.specs.List.{AllByRecursion};
ghost use Rattle.ten_files.specs.vl_design.specs.Cost as design;
ghost use Rattle.host_judge.specs.host_text.specs.Laws.{IsSpeltFabric};
ghost use Rattle.fab_orders.specs.ten_parcel.specs.Parcels.{run_of, IsParcel};
ghost use Rattle.host_judge.specs.host_form.specs.Origins as form;
ghost use Rattle.host_judge.specs.host_form.specs.Orders.{tenant_of};
ghost use Rattle.host_report.specs.Ends.{is_refused};
ghost use Rattle.host_outcomes.specs.Given.{costs_begun, costs_of, has_place, rank};
ghost use Rattle.host_outcomes.specs.Steps.{at_once, cost_in, IsFreeWithin};

use fab_orders::outcomes::Start;
use fab_orders::parcel::Parcel;
use host_judge::block::Reply;
use host_judge::refusal::Refusal;
use host_judge::script::{FabricLine, Free};
use host_report::transit::Transit;

/// How many of the first n tenants are not refused.
fn count_before(refusals: &[Option<Refusal>], n: usize) -> usize
    requires { n ≤ length refusals.now }
    ensures { result ≡ length (filter (λ r. is_none r) (take n refusals.now)) }
{
    refusals[..n].iter().filter(|r| r.is_none()).count()
}

/// The number of a tenant among those that run: how many before it are not refused.
pub(crate) fn number_among(refusals: &[Option<Refusal>], n: u32) -> u32
    requires { n ≤ length refusals.now }
    ensures { result ≡ rank (map is_refused refusals.now) n }
{
    count_before(refusals, n as usize) as u32
}

/// The number of the tenant of an order.
pub(crate) fn tenant_in(order: &Free) -> u32
    ensures { result ≡ tenant_of order.now }
{
    match order {
        Free::Move(tenant, _) | Free::Stop(tenant) | Free::Save(tenant, _) | Free::Watch(tenant) =>
            *tenant,
    }
}

/// A tenant as it begins, by its number, where it isn't refused.
pub(crate) fn begun_of<'a>(
    refusals: &[Option<Refusal>],
    starts: &'a [Start],
    n: u32,
) -> Option<&'a Parcel>
    requires number { n < length refusals.now }
    requires running { length starts.now ≡ length (filter (λ r. not r) (map is_refused refusals.now)) }
    requires parcels { AllByRecursion (λ s. IsParcel s.transit.parcel) starts.now }
    ensures cost { option_map (λ p. design.cost (run_of p).flat) (option_copied result) ≡ cost_in (map is_refused refusals.now) (costs_begun starts.now) n }
    ensures parcel { IfSome result (λ p. IsParcel p.now) }
{
    match &refusals[n as usize] {
        Some(_) => None,
        None => Some(&starts[number_among(refusals, n) as usize].transit.parcel),
    }
}

/// A tenant as it has ended, by its number, where it isn't refused.
pub(crate) fn ended_of<'a>(
    refusals: &[Option<Refusal>],
    ended: &'a [Transit],
    n: u32,
) -> Option<&'a Parcel>
    requires number { n < length refusals.now }
    requires running { length ended.now ≡ length (filter (λ r. not r) (map is_refused refusals.now)) }
    requires parcels { AllByRecursion (λ e. IsParcel e.parcel) ended.now }
    ensures cost { option_map (λ p. design.cost (run_of p).flat) (option_copied result) ≡ cost_in (map is_refused refusals.now) (costs_of ended.now) n }
    ensures parcel { IfSome result (λ p. IsParcel p.now) }
{
    match &refusals[n as usize] {
        Some(_) => None,
        None => Some(&ended[number_among(refusals, n) as usize].parcel),
    }
}

/// A fabric is large enough for a tenant.
fn has_room(fabric: &FabricLine, parcel: &Parcel) -> bool
    requires parcel { IsParcel parcel.now }
    requires spelt { IsSpeltFabric fabric.now }
    ensures { result ≡ form.fits (design.cost (run_of parcel.now).flat) fabric.now.capacity }
{
    let cost = parcel.cost();
    cost.regs <= fabric.capacity.registers
        && cost.cells <= fabric.capacity.cells
        && cost.mem <= fabric.capacity.memory
}

/// An order is no move to a fabric that is too small.
fn is_placed(fabrics: &[FabricLine], parcel: &Parcel, order: &Free) -> bool
    requires order { IsFreeWithin (length fabrics.now) order.now }
    requires parcel { IsParcel parcel.now }
    requires spelt { AllByRecursion IsSpeltFabric fabrics.now }
    ensures { result ≡ has_place fabrics.now (design.cost (run_of parcel.now).flat) order.now }
{
    match order {
        Free::Move(_, fabric) => has_room(&fabrics[*fabric as usize], parcel),
        Free::Stop(_) | Free::Save(_, _) | Free::Watch(_) => true,
    }
}

/// The reply to an order that isn't given to its tenant: to a refused one, or to one that has no place.
pub(crate) fn reply_at_once(
    fabrics: &[FabricLine],
    parcel: Option<&Parcel>,
    order: &Free,
) -> Option<Reply>
    requires order { IsFreeWithin (length fabrics.now) order.now }
    requires parcel { IfSome parcel (λ p. IsParcel p.now) }
    requires spelt { AllByRecursion IsSpeltFabric fabrics.now }
    ensures { result ≡ at_once fabrics.now (option_map (λ p. design.cost (run_of p).flat) (option_copied parcel.entry)) order.now }
{
    match parcel {
        None => Some(Reply::Refused),
        Some(parcel) => {
            if is_placed(fabrics, parcel, order) {
                None
            } else {
                Some(Reply::Small)
            }
        }
    }
}
