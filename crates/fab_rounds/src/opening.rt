//! The desks, with the seats of the main thread and of the workers; and the ledger before anything is put in line.

ghost use Rattle.std.specs.Prelude.{◌≡◌, ◌<◌, ◌≤◌, ◌∷◌, ℕ, [], length, reverse, slice_index_or, All, IfOk, OnOk};
ghost use Rattle.fab_desk.specs.fab_bay.specs.declared.noted.Label.{Label as AnyLabel};
ghost use Rattle.fab_core.specs.fab_model.specs.Tokens.{Token};
ghost use Rattle.fab_orders.specs.Starts.{AreLabels, AreStarts};
ghost use Rattle.fab_orders.specs.Orders.{AreOrders};
ghost use Rattle.fab_rounds.specs.Ledgers.{in_hand, labels_of, start_sum, AreFresh, IsKept};
ghost use Rattle.fab_rounds.specs.Openings.{AreSeated, Opens};

use crate::ledgers::Ledger;
use crate::posts::Opened;
use crate::workers::Worker;
use fab_desk::desk::{Desk, DeskSeat};
use fab_desk::noted::Label;
use fab_orders::outcomes::{Order, Start};
use std::alloc::{AllocError, Global};
use std::snapshot::Snapshot;

impl Opened {
    /// One desk more, before the others. An `Err` is want of memory alone.
    fn open(&mut self, alloc: Global, label: Label) -> Result<(), AllocError>
        requires some { 1 ≤ label.tenants }
        requires seated { AreSeated self.old }
        ensures { OnOk result (Opens label self.old self.new) }
    {
        let fabric = label.fabric;
        let (desk, mut first) = Desk::new(alloc, label)?;
        let seat = desk.seat(&mut first);
        let worker = Worker {
            fabric,
            seat,
            out: Vec::new(alloc),
            turns: 0,
            failed: false,
        };
        self.desks.insert(0, desk)?;
        self.firsts.insert(0, first)?;
        self.workers.insert(0, worker)?;
        Ok(())
    }
}

/// A desk for each label. An `Err` is want of memory alone.
pub(crate) fn open_all(alloc: Global, labels: Vec<Label>) -> Result<Opened, AllocError>
    requires some { All (λ l. 1 ≤ l.tenants) labels.items }
    ensures seated { IfOk result (λ o. AreSeated o) }
    ensures labels { IfOk result (λ o. labels_of o.desks.items ≡ labels.items) }
{
    let mut posts = Opened {
        desks: Vec::new(alloc),
        firsts: Vec::new(alloc),
        workers: Vec::new(alloc),
    };
    let mut labels = labels;
    while let Some(label) = labels.pop() {
        posts.open(alloc, label)?;
    }
    Ok(posts)
}

/// Orders in reverse, so that the last is the next. An `Err` is want of memory alone.
fn backwards(alloc: Global, orders: Vec<Order>) -> Result<Vec<Order>, AllocError>
    ensures { IfOk result (λ r. r.items ≡ reverse orders.items) }
{
    let mut orders = orders;
    let mut reversed = Vec::new(alloc);
    while let Some(order) = orders.pop() {
        reversed.push(order)?;
    }
    Ok(reversed)
}

/// The ledger before anything is put in line. An `Err` is want of memory alone.
pub(crate) fn begun(
    alloc: Global,
    firsts: Vec<DeskSeat>,
    labels: Snapshot<Vec<Label>>,
    starts: Vec<Start>,
    orders: Vec<Order>,
) -> Result<Ledger, AllocError>
    requires labels { AreLabels starts.items labels.value.items }
    requires starts { AreStarts labels.value.items starts.items }
    requires orders { AreOrders labels.value.items starts.items orders.items }
    requires fresh { AreFresh firsts.items }
    ensures kept { IfOk result (λ l. IsKept l) }
    ensures firsts { IfOk result (λ l. l.firsts ≡ firsts) }
    ensures labels { IfOk result (λ l. l.labels ≡ labels) }
    ensures loaded { IfOk result (λ l. l.loaded.value ≡ starts) }
    ensures asked { IfOk result (λ l. l.asked.value ≡ orders) }
    ensures none { IfOk result (λ l. l.answers.items ≡ []) }
    ensures sums { IfOk result (λ l. (f : Token → ℕ) → in_hand f l ≡ start_sum f starts.items) }
{
    let asked = Snapshot::of(&orders);
    let waiting = backwards(alloc, orders)?;
    let mut ledger = Ledger {
        firsts,
        moving: Vec::new(alloc),
        done: Vec::new(alloc),
        causes: Vec::new(alloc),
        orders: waiting,
        answers: Vec::new(alloc),
        loaded: Snapshot::of(&starts),
        labels,
        asked,
    };
    let mut starts = starts;
    while let Some(start) = starts.pop() {
        ledger.take_start(start)?;
    }
    Ok(ledger)
}
