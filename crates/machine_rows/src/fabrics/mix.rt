//! Tenants of a fabric in which one event follows another as a number chooses, until all have ended: each ends as it does alone.

ghost use Rattle.std.specs.Prelude.{IfSome};
ghost use Rattle.fab_model.specs.ten_parcel.specs.Parcels.{IsParcel};
ghost use Rattle.machine_rows.specs.Cores.{IsCore};

use crate::fabrics::arrivals::Arrival;
use crate::fabrics::orders::{arrive, cycle, hold, is_at_rest, leave, rebuild, serve, take};
use crate::fabrics::row::Row;
use crate::fabrics::tenants::alone;
use fab_core::cores::FabCore;
use fab_model::parcel::Parcel;
use std::alloc::{AllocError, Global};

/// The most events.
const MOST_EVENTS: u32 = 1_000_000;

/// What came of the tenants.
#[derive(Drop)]
pub struct Mixed {
    /// The number that chooses.
    chosen: u64,
    /// How many ended as alone.
    same: u64,
    /// How many ended otherwise.
    others: u64,
}

/// The next number: a linear congruential generator's.
fn chosen_behind(chosen: u64) -> u64 {
    chosen
        .wrapping_mul(6_364_136_223_846_793_005)
        .wrapping_add(1_442_695_040_888_963_407)
}

/// The arrival of a tenant.
fn arrival_in<'a>(arrivals: &'a [Arrival], number: u32) -> Option<&'a Arrival> {
    for arrival in arrivals {
        if arrival.number == number {
            return Some(arrival);
        }
    }
    None
}

/// Whether a tenant has ended as it does alone.
fn is_as_alone(
    alloc: Global,
    row: &Row,
    arrivals: &[Arrival],
    parcel: &Parcel,
) -> Result<bool, AllocError>
    requires { IsParcel parcel.now }
{
    let Some(arrival) = arrival_in(arrivals, parcel.number()) else {
        return Ok(false);
    };
    match alone(alloc, row, arrival)? {
        None => Ok(false),
        Some(other) => Ok(
            parcel.ticks() == other.ticks()
                && parcel.cycles() == other.cycles()
                && parcel.printed() == other.printed(),
        ),
    }
}

/// A tenant that has ended is compared with its run alone.
fn compare(
    alloc: Global,
    row: &Row,
    arrivals: &[Arrival],
    parcel: &Parcel,
    mixed: &mut Mixed,
) -> Result<(), AllocError>
    requires { IsParcel parcel.now }
{
    if is_as_alone(alloc, row, arrivals, parcel)? {
        mixed.same = mixed.same.saturating_add(1);
    } else {
        mixed.others = mixed.others.saturating_add(1);
    }
    Ok(())
}

/// A tenant that came out comes back, unless it has ended: then it is compared.
fn back(
    alloc: Global,
    core: &mut FabCore,
    row: &Row,
    arrivals: &[Arrival],
    parcel: Parcel,
    mixed: &mut Mixed,
) -> Result<(), AllocError>
    requires core { IsCore core.old }
    requires parcel { IsParcel parcel }
    ensures { IsCore core.new }
{
    if parcel.ended().is_some() {
        return compare(alloc, row, arrivals, &parcel, mixed);
    }
    arrive(alloc, core, parcel)?;
    Ok(())
}

/// Who comes out of a fabric that holds, where all rest: one that is due leaves, or else some tenant is taken, if it is there.
fn comes_out(core: &mut FabCore, choice: u64) -> Option<Parcel>
    requires { IsCore core.old }
    ensures core { IsCore core.new }
    ensures parcel { IfSome result IsParcel }
{
    if let Some(leaving) = leave(core) {
        return Some(leaving.parcel);
    }
    if choice % 3 != 0 {
        return None;
    }
    take(core, (choice / 3 % 8) as u32)
}

/// An event at a fabric that holds, where all rest: a tenant comes out and comes back, or else the bank is made anew.
fn at_rest(
    alloc: Global,
    core: &mut FabCore,
    row: &Row,
    arrivals: &[Arrival],
    choice: u64,
    mixed: &mut Mixed,
) -> Result<(), AllocError>
    requires { IsCore core.old }
    ensures { IsCore core.new }
{
    match comes_out(core, choice) {
        Some(parcel) => back(alloc, core, row, arrivals, parcel, mixed),
        None => {
            rebuild(alloc, core)?;
            Ok(())
        }
    }
}

/// An event at a fabric that doesn't hold, or where some don't rest.
fn on_the_way(alloc: Global, core: &mut FabCore, choice: u64) -> Result<(), AllocError>
    requires { IsCore core.old }
    ensures { IsCore core.new }
{
    let waits = core.next_trap().is_some();
    if choice % 8 < 7 && core.can_cycle() && (choice % 8 >= 4 || !waits) {
        cycle(core, 1);
        return Ok(());
    }
    if waits {
        serve(alloc, core)?;
        return Ok(());
    }
    hold(core);
    Ok(())
}

/// One event.
fn step(
    alloc: Global,
    core: &mut FabCore,
    row: &Row,
    arrivals: &[Arrival],
    mixed: &mut Mixed,
) -> Result<(), AllocError>
    requires { IsCore core.old }
    ensures { IsCore core.new }
{
    mixed.chosen = chosen_behind(mixed.chosen);
    let choice = mixed.chosen / 4_294_967_296;
    if is_at_rest(&*core) {
        return at_rest(alloc, core, row, arrivals, choice / 8, mixed);
    }
    on_the_way(alloc, core, choice)
}

/// Events until all tenants of a fabric have ended: how many ended as alone.
pub fn mix(
    alloc: Global,
    core: &mut FabCore,
    row: &Row,
    arrivals: &[Arrival],
    seed: u64,
) -> Result<String, AllocError>
    requires { IsCore core.old }
    ensures { IsCore core.new }
{
    let mut mixed = Mixed {
        chosen: seed,
        same: 0,
        others: 0,
    };
    'events: for _ in 0..MOST_EVENTS {
        if core.residents() == 0 && core.waiting() == 0 {
            return format!(in alloc; "{} as alone, {} otherwise\n", mixed.same, mixed.others);
        }
        step(alloc, core, row, arrivals, &mut mixed)?;
    }
    String::from_str(alloc, "it doesn't end\n")
}
