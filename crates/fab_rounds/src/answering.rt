//! What comes of orders.

ghost use Rattle.std.specs.Prelude.{◌≡◌, ◌<◌, ◌≤◌, [], length, None, OnOk, IfOk, true, false};
ghost use Rattle.fab_core.specs.vl_design.specs.declared.design.End.{End};
ghost use Rattle.fab_core.specs.vl_design.specs.Alone.{Ends};
ghost use Rattle.fab_core.specs.vl_design.specs.Queue.{Queue};
ghost use Rattle.fab_core.specs.ten_parcel.specs.Parcels.{number_of, run_of, ticks_of};
ghost use Rattle.fab_core.specs.fab_model.specs.Points.{ended, Point};
ghost use Rattle.fab_core.specs.Standing.{IsPointOf};
ghost use Rattle.fab_core.specs.fab_model.specs.Tokens.{token_of};
ghost use Rattle.fab_orders.specs.declared.outcomes.Wanted.TheVariants as wanted;
ghost use Rattle.fab_rounds.specs.declared.ledgers.Ledger.{Ledger as AnyLedger};
ghost use Rattle.fab_rounds.specs.Ledgers.{AreAll, HaveBegun, IsKept, IsLedger, Operates};
ghost use Rattle.fab_rounds.specs.Tries.{is_watch, Answers, IsHolding, IsNext, MayTell, Seeks, TakesOut, Tells};

use crate::ledgers::Ledger;
use crate::putting::put_again;
use crate::seeking::{Hit, Next, ticks_among};
use crate::shells::{saved, stopped};
use crate::sorting::insert_done;
use fab_core::Text;
use fab_core::laws::points_tell_of_tenants;
use fab_desk::desk::Desk;
use fab_orders::outcomes::{Answer, Finding, Order, Reached, Wanted};
use std::alloc::{AllocError, Global};
use std::snapshot::Snapshot;
use std::sync::Wait;

impl Ledger {
    /// Answers the next order, for which nobody was taken out. An `Err` is want of memory alone.
    pub(crate) fn tell(&mut self, reached: Reached) -> Result<(), AllocError>
        requires kept { IsKept self.old }
        requires tells { MayTell reached self.old }
        ensures { OnOk result (Tells self.old self.new) }
    {
        let Some(order) = self.orders.pop() else {
            unreachable!();
        };
        self.answers.push(Answer {
            order: Snapshot::of(&order),
            reached,
            finding: None,
        })?;
        Ok(())
    }

    /// Moves the tenant that was taken out. An `Err` is want of memory alone.
    fn moved<R: Wait>(
        &mut self,
        rt: &R,
        desks: &[Desk],
        order: Snapshot<Order>,
        hit: Hit,
        fabric: u32,
    ) -> Result<(), AllocError>
        requires holding { IsHolding desks.now order.value hit.fabric hit.transit self.old }
        requires wanted { order.value.wanted ≡ wanted.Move fabric }
        requires point { (p : Point) × IsPointOf hit.transit.parcel p × (ended p ≡ None) }
        ensures { OnOk result (Answers desks.now (λ f. f (token_of hit.transit)) self.old self.new) }
    {
        let ticks = hit.transit.parcel.ticks();
        self.answers.push(Answer {
            order,
            reached: Reached::At(ticks),
            finding: Some(Finding {
                fabric: hit.fabric,
                transit: Snapshot::of(&hit.transit),
            }),
        })?;
        let place = fabric as usize;
        put_again(rt, &desks[place], &mut self.firsts[place], hit.transit)
    }

    /// Makes a snapshot of the tenant that was taken out, and puts it in line where it was. An `Err` is want of memory alone.
    fn saved<R: Wait>(
        &mut self,
        rt: &R,
        alloc: Global,
        desks: &[Desk],
        order: Snapshot<Order>,
        hit: Hit,
        name: Text,
    ) -> Result<(), AllocError>
        requires holding { IsHolding desks.now order.value hit.fabric hit.transit self.old }
        requires wanted { order.value.wanted ≡ wanted.Save name }
        requires point { (p : Point) × IsPointOf hit.transit.parcel p × (ended p ≡ None) }
        ensures { OnOk result (Answers desks.now (λ f. f (token_of hit.transit)) self.old self.new) }
    {
        let ticks = hit.transit.parcel.ticks();
        self.answers.push(Answer {
            order,
            reached: Reached::At(ticks),
            finding: Some(Finding {
                fabric: hit.fabric,
                transit: Snapshot::of(&hit.transit),
            }),
        })?;
        let place = hit.fabric as usize;
        let transit = saved(alloc, hit.transit, name)?;
        put_again(rt, &desks[place], &mut self.firsts[place], transit)
    }

    /// Stops the tenant that was taken out. An `Err` is want of memory alone.
    fn stopped(
        &mut self,
        desks: &[Desk],
        order: Snapshot<Order>,
        hit: Hit,
    ) -> Result<(), AllocError>
        requires holding { IsHolding desks.now order.value hit.fabric hit.transit self.old }
        requires wanted { order.value.wanted ≡ wanted.Stop }
        requires point { (p : Point) × IsPointOf hit.transit.parcel p × (ended p ≡ None) }
        ensures { OnOk result (Answers desks.now (λ f. f (token_of hit.transit)) self.old self.new) }
    {
        points_tell_of_tenants();
        let ticks = hit.transit.parcel.ticks();
        self.answers.push(Answer {
            order,
            reached: Reached::At(ticks),
            finding: Some(Finding {
                fabric: hit.fabric,
                transit: Snapshot::of(&hit.transit),
            }),
        })?;
        insert_done(&mut self.done, stopped(hit.transit))
    }

    /// The tenant that was taken out had ended. An `Err` is want of memory alone.
    fn over(&mut self, desks: &[Desk], order: Snapshot<Order>, hit: Hit) -> Result<(), AllocError>
        requires holding { IsHolding desks.now order.value hit.fabric hit.transit self.old }
        requires watch { is_watch order.value.wanted ≡ false }
        requires ends { (end : End) × (last : Queue) × Ends (run_of hit.transit.parcel) (ticks_of hit.transit.parcel) end last }
        ensures { OnOk result (Answers desks.now (λ f. f (token_of hit.transit)) self.old self.new) }
    {
        points_tell_of_tenants();
        let ticks = hit.transit.parcel.ticks();
        self.answers.push(Answer {
            order,
            reached: Reached::Ended(ticks),
            finding: Some(Finding {
                fabric: hit.fabric,
                transit: Snapshot::of(&hit.transit),
            }),
        })?;
        insert_done(&mut self.done, hit.transit)
    }

    /// Does the next order, for which a tenant was taken out. An `Err` is want of memory alone.
    fn found<R: Wait>(
        &mut self,
        rt: &R,
        alloc: Global,
        desks: &[Desk],
        hit: Hit,
    ) -> Result<(), AllocError>
        requires out { (l : AnyLedger) × IsLedger desks.now l × TakesOut desks.now (number_of hit.transit.parcel) hit.fabric hit.transit l self.old }
        requires next { IsNext (number_of hit.transit.parcel) false self.old.orders.items }
        ensures { OnOk result (Answers desks.now (λ f. f (token_of hit.transit)) self.old self.new) }
    {
        points_tell_of_tenants();
        let Some(order) = self.orders.pop() else {
            unreachable!();
        };
        let asked = Snapshot::of(&order);
        if hit.transit.parcel.ended().is_some() {
            return self.over(desks, asked, hit);
        }
        match order.wanted {
            Wanted::Move(fabric) => self.moved(rt, desks, asked, hit, fabric),
            Wanted::Stop => self.stopped(desks, asked, hit),
            Wanted::Save(name) => self.saved(rt, alloc, desks, asked, hit, name),
            Wanted::Watch => unreachable!(),
        }
    }

    /// Tells how far the tenant of the next order has come. An `Err` is want of memory alone.
    fn watched(&mut self, desks: &[Desk], tenant: u32) -> Result<(), AllocError>
        requires ledger { IsLedger desks.now self.old }
        requires begun { HaveBegun self.old }
        requires next { IsNext tenant true self.old.orders.items }
        ensures { OnOk result ((l : AnyLedger) × Seeks desks.now self.old l × Tells l self.new) }
    {
        let ticks = self.progress(desks, tenant);
        self.tell(Reached::At(ticks))
    }

    /// Answers the next order where its tenant has ended, or else it waits. An `Err` is want of memory alone.
    fn missed(&mut self, tenant: u32) -> Result<bool, AllocError>
        requires kept { IsKept self.old }
        requires next { IsNext tenant false self.old.orders.items }
        ensures done { IfOk result (λ r. r ≡ true → Tells self.old self.new) }
        ensures waits { IfOk result (λ r. r ≡ false → self.new ≡ self.old) }
    {
        let Some(ticks) = ticks_among(self.done.as_slice(), tenant) else {
            return Ok(false);
        };
        self.tell(Reached::Ended(ticks))?;
        Ok(true)
    }

    /// Tries the next order. False where it waits, or where there is none. An `Err` is want of memory alone.
    pub(crate) fn tried<R: Wait>(
        &mut self,
        rt: &R,
        alloc: Global,
        desks: &[Desk],
    ) -> Result<bool, AllocError>
        requires ledger { IsLedger desks.now self.old }
        requires none { self.old.moving.items ≡ [] }
        requires begun { HaveBegun self.old }
        ensures { IfOk result (λ r. Operates desks.now self.old self.new) }
    {
        let Some(next) = self.next() else {
            return Ok(false);
        };
        if next.watch {
            self.watched(desks, next.tenant)?;
            return Ok(true);
        }
        let Some(hit) = self.sought(rt, alloc, desks, next.tenant)? else {
            return self.missed(next.tenant);
        };
        self.found(rt, alloc, desks, hit)?;
        Ok(true)
    }

    /// Answers the next order where all tenants have ended. An `Err` is want of memory alone.
    pub(crate) fn finish(&mut self, desks: &[Desk], next: Next) -> Result<(), AllocError>
        requires ledger { IsLedger desks.now self.old }
        requires begun { HaveBegun self.old }
        requires all { AreAll (length self.old.loaded.value.items) self.old.done.items }
        requires next { IsNext next.tenant next.watch self.old.orders.items }
        ensures { OnOk result ((l : AnyLedger) × Seeks desks.now self.old l × Tells l self.new) }
    {
        if next.watch {
            return self.watched(desks, next.tenant);
        }
        let ticks = self.done[next.tenant as usize].parcel.ticks();
        self.tell(Reached::Ended(ticks))
    }
}
