//! Closing the desks.

ghost use Rattle.std.specs.Prelude.{◌≡◌, ◌≢◌, false, [], length, IfOk};
ghost use Rattle.fab_core.specs.fab_lock.specs.Facts.{IsSeatOf};
ghost use Rattle.fab_rounds.specs.Ledgers.{AreAll, IsBetween, IsFirst, IsShut};
ghost use Rattle.fab_orders.specs.Outcomes.{IsOutcome};

use crate::ledgers::Ledger;
use crate::workers::Worker;
use fab_desk::closed::Closed;
use fab_desk::desk::{Desk, DeskSeat};
use fab_orders::outcomes::Outcome;
use std::alloc::{AllocError, Global};
use std::sync::Wait;

/// Joins the worker's seat into the first one, and ends the desk.
fn close_one<R: Wait>(rt: &R, desk: Desk, first: DeskSeat, other: DeskSeat) -> Closed
    requires first { IsFirst desk first }
    requires other { IsSeatOf desk other }
    requires apart { other.view.low ≢ 0 }
    requires any_puts { desk.label.any_puts ≡ false }
    ensures label { result.label ≡ desk.label }
    ensures shut { IsShut first other result }
{
    let mut seat = first;
    desk.join_seat(&mut seat, other);
    desk.close(rt, seat)
}

/// Ends all desks. An `Err` is want of memory alone.
pub(crate) fn closed<R: Wait>(
    rt: &R,
    alloc: Global,
    desks: Vec<Desk>,
    ledger: Ledger,
    workers: Vec<Worker>,
) -> Result<Outcome, AllocError>
    requires between { IsBetween desks.items ledger workers.items }
    requires all { AreAll (length ledger.loaded.value.items) ledger.done.items }
    requires orders { ledger.orders.items ≡ [] }
    ensures { IfOk result (λ out. IsOutcome ledger.labels.value.items ledger.loaded.value.items ledger.asked.value.items out) }
{
    let Ledger {
        firsts,
        done,
        answers,
        ..
    } = ledger;
    let (mut desks, mut firsts, mut workers) = (desks, firsts, workers);
    let mut bays = Vec::new(alloc);
    while let Some(desk) = desks.pop() {
        let Some(first) = firsts.pop() else {
            unreachable!();
        };
        let Some(worker) = workers.pop() else {
            unreachable!();
        };
        bays.insert(0, close_one(rt, desk, first, worker.seat))?;
    }
    Ok(Outcome {
        ended: done,
        bays,
        answers,
    })
}
