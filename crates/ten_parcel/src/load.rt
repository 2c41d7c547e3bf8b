//! Runs of tenants that begin.

ghost use Rattle.std.specs.Prelude.{◌≡◌, IfOk, IsSome, None};
ghost use Rattle.std.specs.Arc.{arc_value};
ghost use Rattle.ten_core.specs.Begins.{CanBegin};
ghost use Rattle.ten_parcel.specs.Loads.{IsBegun, IsEngineAt};

use crate::bank::boundary_bank;
use crate::reopen::open_table;
use crate::resume::{machine_before, resumed_bank};
use std::alloc::{AllocError, Global};
use std::sync::Arc;
use sub_nodes::facts_laws::other_nodes_lead_to_others;
use sub_nodes::laws::one_node_rises;
use ten_core::Bank;
use ten_core::engine::Engine;
use ten_core::hold_laws::settled_nets_change_no_bank;
use ten_core::origin::Origin;
use ten_zero::early::Early;
use ten_zero::zero::run_zero;
use vl_run::Table;
use vl_run::machine::Machine;

/// A run that has begun.
#[derive(Drop)]
pub enum Begun {
    /// It goes on: its engine and the bank, at the first boundary.
    Runs(Engine, Bank),
    /// It has finished in time zero: what it started from, and what it came to.
    Over(Arc<Origin, Global>, Early),
}

/// The engine of a run that has come to the first boundary after so many acts, with these files open.
fn engine_at(origin: Arc<Origin, Global>, table: Table, machine: Machine, acts: u64) -> Engine
    ensures { IsEngineAt (arc_value origin) table machine acts result }
{
    let next = origin.image.rise;
    Engine {
        origin,
        open: table,
        printed: machine.printed,
        asked: machine.saves,
        ticks: machine.ticks,
        cycles: acts,
        next,
        waits: false,
        finished: false,
    }
}

/// A run from time zero, which is run here in software.
fn begin_anew(alloc: Global, origin: Origin) -> Result<Begun, AllocError>
    requires begins { CanBegin origin }
    requires start { origin.start ≡ None }
    ensures { IfOk result (IsBegun origin) }
{
    one_node_rises();
    other_nodes_lead_to_others();
    let early = run_zero(
        alloc,
        &origin.image.design,
        &origin.files,
        origin.image.order.as_slice(),
    )?;
    if early.machine.finished {
        let origin = Arc::new(alloc, origin)?;
        return Ok(Begun::Over(origin, early));
    }
    let Early { machine, acts } = early;
    let bank = boundary_bank(alloc, &origin.image, &machine)?;
    let table = open_table(&origin.files, &machine.table);
    let origin = Arc::new(alloc, origin)?;
    Ok(Begun::Runs(engine_at(origin, table, machine, acts), bank))
}

/// A run that is resumed.
fn begin_again(alloc: Global, origin: Origin) -> Result<Begun, AllocError>
    requires begins { CanBegin origin }
    requires start { IsSome origin.start }
    ensures { IfOk result (IsBegun origin) }
{
    one_node_rises();
    other_nodes_lead_to_others();
    settled_nets_change_no_bank();
    match &origin.start {
        None => unreachable!(),
        Some(held) => {
            let machine = machine_before(alloc, &origin.image.design, held)?;
            let bank = resumed_bank(alloc, &origin.image, &machine, held)?;
            let table = open_table(&origin.files, held.files.as_slice());
            let origin = Arc::new(alloc, origin)?;
            Ok(Begun::Runs(engine_at(origin, table, machine, 0), bank))
        }
    }
}

/// Begins a run: from time zero, which is run here in software, unless it is resumed from what another run held. An `Err` is want of memory
/// alone.
pub fn begin(alloc: Global, origin: Origin) -> Result<Begun, AllocError>
    requires { CanBegin origin }
    ensures { IfOk result (IsBegun origin) }
{
    match origin.start {
        None => begin_anew(alloc, origin),
        Some(_) => begin_again(alloc, origin),
    }
}
