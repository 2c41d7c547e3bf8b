//! Rounds, and the call that runs tenants by them.

ghost use Rattle.std.specs.Prelude.{◌≡◌, ◌<◌, ℕ, [], slice_index_or, vec_len, All, IfOk};
ghost use Rattle.fab_rounds.specs.declared.workers.Worker.{Worker as AnyWorker};
ghost use Rattle.fab_orders.specs.Starts.{AreLabels, AreStarts};
ghost use Rattle.fab_orders.specs.Orders.{AreOrders};
ghost use Rattle.fab_orders.specs.Outcomes.{IsOutcome};
ghost use Rattle.fab_rounds.specs.Ledgers.{AreAll, HaveBegun, IsAtDesk, IsBetween, IsLedger, IsSameRun, IsTurned, Operates};

use crate::closing::closed;
use crate::ledgers::Ledger;
use crate::opening::{begun, open_all};
use crate::operating::{finished, operated};
use crate::posts::Opened;
use crate::sorting::are_all;
use crate::workers::{Crew, Worker, turned};
use fab_desk::desk::Desk;
use fab_desk::noted::Label;
use fab_io::gate::Gate;
use fab_orders::outcomes::{Order, Outcome, Start};
use std::alloc::{AllocError, Global};
use std::snapshot::Snapshot;
use std::sync::Wait;
use std::thread::{Threads, join};

/// The workers turn their desks, while what is ordered is done.
fn turned_beside<R: Threads + Wait + Sync, G: Gate + Sync>(
    rt: &R,
    alloc: Global,
    gate: &G,
    desks: &[Desk],
    ledger: Ledger,
    crew: Crew,
) -> (Result<Crew, AllocError>, Result<Ledger, AllocError>)
    requires crew { All (IsAtDesk desks.now) crew.workers.items }
    requires ledger { IsLedger desks.now ledger }
    requires none { ledger.moving.items ≡ [] }
    requires begun { HaveBegun ledger }
    ensures count { IfOk result.0 (λ v. vec_len v.workers ≡ vec_len crew.workers) }
    ensures each { IfOk result.0 (λ v. (i : ℕ) (d : AnyWorker) → i < vec_len crew.workers → IsTurned desks.now (slice_index_or crew.workers.items i d) (slice_index_or v.workers.items i d)) }
    ensures operates { IfOk result.1 (λ l. Operates desks.now ledger l) }
{
    join(
        rt,
        ||
            requires { All (IsAtDesk desks.now) crew.workers.items }
        { turned(rt, alloc, gate, desks, crew) },
        ||
            requires { IsLedger desks.now ledger × (ledger.moving.items ≡ []) × HaveBegun ledger }
        { operated(rt, alloc, gate, desks, ledger) },
    )
}

/// One round: the workers turn their desks, and then what came out is taken over, and what moves is put in line. An `Err` is want of
/// memory alone.
fn round<R: Threads + Wait + Sync, G: Gate + Sync>(
    rt: &R,
    alloc: Global,
    gate: &G,
    desks: &[Desk],
    ledger: Ledger,
    workers: Vec<Worker>,
) -> Result<(Ledger, Vec<Worker>), AllocError>
    requires { IsBetween desks.now ledger workers.items }
    ensures between { IfOk result (λ r. IsBetween desks.now r.0 r.1.items) }
    ensures same { IfOk result (λ r. IsSameRun ledger r.0) }
{
    let (crew, ledger) = turned_beside(rt, alloc, gate, desks, ledger, Crew { workers });
    let mut ledger = ledger?;
    let Crew { mut workers } = crew?;
    ledger.take_all(alloc, &mut workers)?;
    let ledger = ledger.put_all(rt, desks)?;
    Ok((ledger, workers))
}

/// Rounds, until all have ended. An `Err` is want of memory alone.
fn rounds_of<R: Threads + Wait + Sync, G: Gate + Sync>(
    rt: &R,
    alloc: Global,
    gate: &G,
    desks: &[Desk],
    ledger: Ledger,
    workers: Vec<Worker>,
    tenants: usize,
) -> Result<(Ledger, Vec<Worker>), AllocError>
    requires { IsBetween desks.now ledger workers.items }
    ensures between { IfOk result (λ r. IsBetween desks.now r.0 r.1.items) }
    ensures same { IfOk result (λ r. IsSameRun ledger r.0) }
    ensures all { IfOk result (λ r. AreAll tenants r.0.done.items) }
{
    let (mut ledger, mut workers) = (ledger, workers);
    for _ in rt.forever() {
        if are_all(ledger.done.as_slice(), tenants) {
            return Ok((ledger, workers));
        }
        (ledger, workers) = round(rt, alloc, gate, desks, ledger, workers)?;
    }
    unreachable!()
}

/// Runs tenants until each has ended, while orders are done, one after the other. An `Err` is want of memory alone. It may wait.
pub fn run<R: Threads + Wait + Sync, G: Gate + Sync>(
    rt: &R,
    alloc: Global,
    gate: &G,
    labels: Vec<Label>,
    starts: Vec<Start>,
    orders: Vec<Order>,
) -> Result<Outcome, AllocError>
    requires labels { AreLabels starts.items labels.items }
    requires starts { AreStarts labels.items starts.items }
    requires orders { AreOrders labels.items starts.items orders.items }
    ensures { IfOk result (λ out. IsOutcome labels.items starts.items orders.items out) }
{
    let tenants = starts.len();
    let named = Snapshot::of(&labels);
    let Opened {
        desks,
        firsts,
        workers,
    } = open_all(alloc, labels)?;
    let ledger = begun(alloc, firsts, named, starts, orders)?;
    let ledger = ledger.put_all(rt, &desks)?;
    let (ledger, workers) = rounds_of(rt, alloc, gate, &desks, ledger, workers, tenants)?;
    let ledger = finished(&desks, ledger)?;
    closed(rt, alloc, desks, ledger, workers)
}
