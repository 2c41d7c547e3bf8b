//! What orders come to.

ghost use Rattle.fab_model.specs.ten_parcel.specs.Parcels.{IsParcel};
ghost use Rattle.machine_rows.specs.Cores.{IsCore};

use crate::fabrics::arrivals::{Arrival, arrival_of, number_of, small_of, word};
use crate::fabrics::mix::mix;
use crate::fabrics::orders::{arrive, cycle, hold, leave, rebuild, serve, show, take};
use crate::fabrics::outcomes::{left_text, told_of, told_text};
use crate::fabrics::row::Row;
use crate::fabrics::tenants::loaded;
use crate::fabrics::{desks, joined, race};
use fab_core::cores::FabCore;
use fab_model::parcel::Parcel;
use std::alloc::{AllocError, Global};
use std::sync::Wait;
use std::thread::Threads;
use vl_design::capacity::Cost;

/// The core of a fabric with the capacity of the first order.
fn core_of(alloc: Global, orders: &str) -> FabCore
    ensures { IsCore result }
{
    let line = orders.lines().next().unwrap_or("");
    FabCore::new(
        alloc,
        Cost {
            regs: number_of(word(line, 1)),
            cells: number_of(word(line, 2)),
            mem: number_of(word(line, 3)),
        },
    )
}

/// A tenant is loaded and arrives.
fn arrives(
    alloc: Global,
    core: &mut FabCore,
    row: &Row,
    arrivals: &mut Vec<Arrival>,
    line: &str,
) -> Result<String, AllocError>
    requires { IsCore core.old }
    ensures { IsCore core.new }
{
    arrivals.push(arrival_of(alloc, line)?)?;
    match loaded(alloc, row, &arrivals[arrivals.len() - 1])? {
        None => String::from_str(alloc, "no tenant\n"),
        Some(parcel) => arrive(alloc, core, parcel),
    }
}

/// A tenant is taken.
fn takes(alloc: Global, core: &mut FabCore, number: u32) -> Result<String, AllocError>
    requires { IsCore core.old }
    ensures { IsCore core.new }
{
    match take(core, number) {
        None => String::from_str(alloc, "nobody is taken\n"),
        Some(parcel) => told_text(alloc, told_of(&parcel)),
    }
}

/// A tenant that left comes back, unless its run has ended: what comes of that.
fn again(alloc: Global, core: &mut FabCore, parcel: Parcel) -> Result<String, AllocError>
    requires core { IsCore core.old }
    requires parcel { IsParcel parcel }
    ensures { IsCore core.new }
{
    if parcel.ended().is_some() {
        return Ok(String::new(alloc));
    }
    arrive(alloc, core, parcel)
}

/// A tenant leaves, and comes back where it moves.
fn leaves(alloc: Global, core: &mut FabCore) -> Result<String, AllocError>
    requires { IsCore core.old }
    ensures { IsCore core.new }
{
    match leave(core) {
        None => String::from_str(alloc, "nobody leaves\n"),
        Some(leaving) => {
            let why = leaving.why;
            let told = told_of(&leaving.parcel);
            let more = again(alloc, core, leaving.parcel)?;
            left_text(alloc, why, told, more.as_str())
        }
    }
}

/// What a test of a core answers.
fn tested(alloc: Global, core: &FabCore, kind: &str) -> Result<String, AllocError>
    requires { IsCore core.now }
{
    if kind == "trap" {
        return match core.next_trap() {
            None => String::from_str(alloc, "nobody waits\n"),
            Some(tenant) => format!(in alloc; "{tenant} waits\n"),
        };
    }
    if kind == "fits" {
        let fits = core.head_fits();
        return String::from_str(
            alloc,
            if fits {
                "the head fits\n"
            } else {
                "the head doesn't fit\n"
            },
        );
    }
    show(alloc, core)
}

/// What an order comes to.
fn answer(
    alloc: Global,
    core: &mut FabCore,
    row: &Row,
    arrivals: &mut Vec<Arrival>,
    line: &str,
) -> Result<String, AllocError>
    requires { IsCore core.old }
    ensures { IsCore core.new }
{
    let number = number_of(word(line, 1));
    match word(line, 0) {
        "fabric" => Ok(String::new(alloc)),
        "arrive" => arrives(alloc, core, row, arrivals, line),
        "cycle" => {
            let count = cycle(core, number);
            format!(in alloc; "{count} cycles\n")
        }
        "serve" => serve(alloc, core),
        "hold" => String::from_str(alloc, hold(core)),
        "rebuild" => rebuild(alloc, core),
        "take" => takes(alloc, core, small_of(word(line, 1))),
        "leave" => leaves(alloc, core),
        "mix" => mix(alloc, core, row, arrivals.as_slice(), number),
        kind => tested(alloc, &*core, kind),
    }
}

/// What the orders of a row come to at a core.
fn answers_at(
    alloc: Global,
    core: &mut FabCore,
    row: &Row,
    arrivals: &mut Vec<Arrival>,
) -> Result<String, AllocError>
    requires { IsCore core.old }
    ensures { IsCore core.new }
{
    let mut text = String::new(alloc);
    'orders: for line in row.orders.as_str().lines() {
        let more = answer(alloc, core, row, arrivals, line)?;
        text.push_str(more.as_str())?;
    }
    Ok(text)
}

/// What the orders of a row come to at a core.
fn at_core(alloc: Global, row: &Row) -> Result<String, AllocError> {
    let mut core = core_of(alloc, row.orders.as_str());
    let mut arrivals = Vec::new(alloc);
    answers_at(alloc, &mut core, row, &mut arrivals)
}

/// What the orders of a row come to.
fn answers<R: Threads + Wait + Sync>(
    rt: &R,
    alloc: Global,
    row: &Row,
) -> Result<String, AllocError> {
    let orders = row.orders.as_str();
    if orders.starts_with("race ") {
        return race::answers(rt, alloc, row);
    }
    if orders.starts_with("desk ") {
        return desks::answers(rt, alloc, row);
    }
    if orders.starts_with("joined ") {
        return joined::answers(alloc, orders);
    }
    at_core(alloc, row)
}

/// `ok` and the row's name where its orders come to what is wanted, else both.
pub fn compared<R: Threads + Wait + Sync>(
    rt: &R,
    alloc: Global,
    row: &Row,
) -> Result<String, AllocError> {
    let answers = answers(rt, alloc, row)?;
    if answers.as_str() == row.wanted.as_str() {
        return format!(in alloc; "ok {}", row.name);
    }
    format!(in alloc;
        "{}:\n{}is wanted, but this came:\n{answers}",
        row.name, row.wanted
    )
}
