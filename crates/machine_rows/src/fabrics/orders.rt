//! Orders to a core, and what comes of them.

ghost use Rattle.std.specs.Prelude.{◌≡◌, None, IfSome};
ghost use Rattle.fab_core.specs.Standing.{IsFabric, IsPointOf};
ghost use Rattle.fab_model.specs.Fabrics.{Fabric};
ghost use Rattle.fab_model.specs.Points.{ended, Point};
ghost use Rattle.fab_model.specs.Worlds.{is_at_rest};
ghost use Rattle.fab_model.specs.ten_parcel.specs.Parcels.{IsParcel};
ghost use Rattle.machine_rows.specs.Cores.{IsCore};

use crate::fabrics::outcomes::{refused_text, told_of, told_text};
use fab_core::cores::FabCore;
use fab_core::laws::{points_tell_of_tenants, tenants_at_rest_have_points};
use fab_core::leaving::Leaving;
use fab_model::laws::{each_number_stays_once, who_comes_first_is_found};
use fab_model::parcel::Parcel;
use std::alloc::{AllocError, Global};

/// A tenant at rest that hasn't ended comes to a fabric.
fn comes(alloc: Global, core: &mut FabCore, parcel: Parcel) -> Result<String, AllocError>
    requires core { IsCore core.old }
    requires parcel { (p : Point) × IsPointOf parcel p × (ended p ≡ None) }
    ensures { IsCore core.new }
{
    match core.arrive(parcel) {
        Ok(()) => String::from_str(alloc, "arrives\n"),
        Err(refused) => refused_text(alloc, refused.why),
    }
}

/// A tenant at rest comes to a fabric, unless its run has ended.
pub fn arrive(alloc: Global, core: &mut FabCore, parcel: Parcel) -> Result<String, AllocError>
    requires core { IsCore core.old }
    requires parcel { IsParcel parcel }
    ensures { IsCore core.new }
{
    tenants_at_rest_have_points();
    points_tell_of_tenants();
    if parcel.ended().is_some() {
        return told_text(alloc, told_of(&parcel));
    }
    comes(alloc, core, parcel)
}

/// So many cycles: how many residents did each together.
pub fn cycle(core: &mut FabCore, times: u64) -> usize
    requires { IsCore core.old }
    ensures { IsCore core.new }
{
    let mut all = 0_usize;
    'cycles: for _ in 0..times {
        all = all.saturating_add(core.cycle());
    }
    all
}

/// What the first resident that waits, waits for, is done.
pub fn serve(alloc: Global, core: &mut FabCore) -> Result<String, AllocError>
    requires { IsCore core.old }
    ensures { IsCore core.new }
{
    who_comes_first_is_found();
    each_number_stays_once();
    let Some(tenant) = core.next_trap() else {
        return String::from_str(alloc, "nobody waits\n");
    };
    if core.serve(alloc, tenant)? {
        return format!(in alloc; "saves {tenant}\n");
    }
    format!(in alloc; "serves {tenant}\n")
}

/// No resident starts another tick.
pub fn hold(core: &mut FabCore) -> &'static str
    requires { IsCore core.old }
    ensures { IsCore core.new }
{
    if core.holding() {
        return "holds already\n";
    }
    core.hold();
    "holds\n"
}

/// The fabric holds, and all its residents rest.
pub fn is_at_rest(core: &FabCore) -> bool
    requires { IsCore core.now }
    ensures { (f : Fabric) → IsFabric core.now f → result ≡ is_at_rest f }
{
    core.holding() && core.still()
}

/// How many residents there are, and how many wait in line.
fn counts_text(alloc: Global, residents: usize, waiting: usize) -> Result<String, AllocError> {
    format!(in alloc; "{residents} residents, {waiting} in line\n")
}

/// The joined bank is made anew, where it may be.
pub fn rebuild(alloc: Global, core: &mut FabCore) -> Result<String, AllocError>
    requires { IsCore core.old }
    ensures { IsCore core.new }
{
    if !is_at_rest(&*core) {
        return String::from_str(alloc, "not now\n");
    }
    core.rebuild(alloc)?;
    counts_text(alloc, core.residents(), core.waiting())
}

/// A tenant is taken, where it may be.
pub fn take(core: &mut FabCore, number: u32) -> Option<Parcel>
    requires { IsCore core.old }
    ensures core { IsCore core.new }
    ensures parcel { IfSome result IsParcel }
{
    points_tell_of_tenants();
    if !is_at_rest(&*core) {
        return None;
    }
    core.take(number)
}

/// The tenant that leaves first, where it may, and why.
pub fn leave(core: &mut FabCore) -> Option<Leaving>
    requires { IsCore core.old }
    ensures core { IsCore core.new }
    ensures parcel { IfSome result (λ l. IsParcel l.parcel) }
{
    points_tell_of_tenants();
    who_comes_first_is_found();
    each_number_stays_once();
    if !is_at_rest(&*core) {
        return None;
    }
    match core.next_leaving() {
        None => None,
        Some(tenant) => Some(core.leave(tenant)),
    }
}

/// A tenant at a place, with its tick.
fn place_text(alloc: Global, place: &str, tenant: (u32, u64)) -> Result<String, AllocError> {
    let (number, tick) = tenant;
    format!(in alloc; "{place} {number} at {tick}\n")
}

/// Who is where: residents and line, each with its tick.
pub fn show(alloc: Global, core: &FabCore) -> Result<String, AllocError>
    requires { IsCore core.now }
{
    let mut text = String::new(alloc);
    for place in 0..core.residents() {
        let line = place_text(alloc, "resident", core.resident(place))?;
        text.push_str(line.as_str())?;
    }
    for place in 0..core.waiting() {
        let line = place_text(alloc, "in line", core.waiter(place))?;
        text.push_str(line.as_str())?;
    }
    Ok(text)
}
