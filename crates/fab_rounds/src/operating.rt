//! What is ordered, while workers turn their desks and where they have ended.

ghost use Rattle.std.specs.Prelude.{◌≡◌, [], length, IfOk};
ghost use Rattle.fab_rounds.specs.Ledgers.{AreAll, HaveBegun, IsLedger, Operates};

use crate::ledgers::Ledger;
use crate::seeking::count_of;
use fab_desk::desk::Desk;
use fab_io::gate::Gate;
use std::alloc::{AllocError, Global};
use std::sync::Wait;

/// Does the orders that wait, in order, as far as their tenants are found, once the gate is passed. An `Err` is want of memory alone.
pub(crate) fn operated<R: Wait, G: Gate>(
    rt: &R,
    alloc: Global,
    gate: &G,
    desks: &[Desk],
    ledger: Ledger,
) -> Result<Ledger, AllocError>
    requires ledger { IsLedger desks.now ledger }
    requires none { ledger.moving.items ≡ [] }
    requires begun { HaveBegun ledger }
    ensures { IfOk result (λ l. Operates desks.now ledger l) }
{
    let mut ledger = ledger;
    let fabrics = count_of(desks);
    for _ in 0..ledger.orders.len() {
        gate.pass(fabrics, (ledger.answers.len() as u64).saturating_add(1));
        if !ledger.tried(rt, alloc, desks)? {
            break;
        }
    }
    Ok(ledger)
}

/// Answers the orders that still wait where all tenants have ended. An `Err` is want of memory alone.
pub(crate) fn finished(desks: &[Desk], ledger: Ledger) -> Result<Ledger, AllocError>
    requires ledger { IsLedger desks.now ledger }
    requires none { ledger.moving.items ≡ [] }
    requires begun { HaveBegun ledger }
    requires all { AreAll (length ledger.loaded.value.items) ledger.done.items }
    ensures operates { IfOk result (λ l. Operates desks.now ledger l) }
    ensures all { IfOk result (λ l. AreAll (length l.loaded.value.items) l.done.items) }
    ensures orders { IfOk result (λ l. l.orders.items ≡ []) }
{
    let mut ledger = ledger;
    while let Some(next) = ledger.next() {
        ledger.finish(desks, next)?;
    }
    Ok(ledger)
}
