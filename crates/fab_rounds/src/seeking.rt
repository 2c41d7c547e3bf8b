//! Looking for the tenant of the next order.

ghost use Rattle.std.specs.Prelude.{◌≡◌, ◌<◌, ◌≤◌, [], length, max, IfOk, IfSome, MatchOption};
ghost use Rattle.fab_rounds.specs.declared.ledgers.Ledger.{Ledger as AnyLedger};
ghost use Rattle.fab_orders.specs.Totals.{total};
ghost use Rattle.fab_rounds.specs.Ledgers.{ended_at, reach_in, IsLedger};
ghost use Rattle.fab_rounds.specs.Tries.{is_watch, DidSeek, IsNext, Seeks, TakesOut};

use crate::ledgers::Ledger;
use fab_core::transit::Transit;
use fab_desk::desk::Desk;
use fab_desk::leaving::{Found, Taken};
use fab_orders::outcomes::Wanted;
use std::alloc::{AllocError, Global};
use std::sync::Wait;

/// The tenant of the next order, and whether that is a watch.
#[derive(Clone, Copy, Debug, Drop)]
pub(crate) struct Next {
    pub(crate) tenant: u32,
    pub(crate) watch: bool,
}

/// A tenant that came out, and on which fabric.
#[derive(Drop)]
pub(crate) struct Hit {
    pub(crate) fabric: u32,
    pub(crate) transit: Transit,
}

/// Whether a watch is wanted.
fn is_watch(wanted: &Wanted) -> bool
    ensures { result ≡ is_watch wanted.now }
{
    match wanted {
        Wanted::Watch => true,
        _ => false,
    }
}

/// The number of desks, as far as fabrics have numbers.
pub(crate) fn count_of(desks: &[Desk]) -> u32
    ensures { result ≤ length desks.now }
{
    let count = desks.len();
    if count < u32::MAX as usize {
        count as u32
    } else {
        u32::MAX
    }
}

/// The greater of two ticks.
fn greater(a: u64, b: u64) -> u64
    ensures { result ≡ max a b }
{
    if a < b { b } else { a }
}

/// At which tick a tenant has ended, if it is among these.
pub(crate) fn ticks_among(done: &[Transit], tenant: u32) -> Option<u64>
    ensures { IfSome result (λ k. 0 < total (ended_at tenant k) done.now) }
{
    for transit in done {
        if transit.parcel.number() == tenant {
            return Some(transit.parcel.ticks());
        }
    }
    None
}

impl Ledger {
    /// The next order, if one waits.
    pub(crate) fn next(&self) -> Option<Next>
        ensures { MatchOption result (self.now.orders.items ≡ []) (λ n. IsNext n.tenant n.watch self.now.orders.items) }
    {
        let count = self.orders.len();
        if count == 0 {
            return None;
        }
        let order = &self.orders[count - 1];
        Some(Next {
            tenant: order.tenant,
            watch: is_watch(&order.wanted),
        })
    }

    /// Takes a tenant out at one desk, if it is there. An `Err` is want of memory alone.
    fn take_at<R: Wait>(
        &mut self,
        rt: &R,
        alloc: Global,
        desks: &[Desk],
        place: usize,
        tenant: u32,
    ) -> Result<Option<Transit>, AllocError>
        requires ledger { IsLedger desks.now self.old }
        requires place { place < length desks.now }
        ensures { IfOk result (λ r. DidSeek desks.now tenant place r self.old self.new) }
    {
        let Taken { found, .. } = desks[place].take(rt, alloc, &mut self.firsts[place], tenant)?;
        match found {
            Found::Here(transit) => Ok(Some(transit)),
            Found::Absent => Ok(None),
            Found::Short => Err(AllocError),
        }
    }

    /// Takes a tenant out where it is, if it is at a desk. An `Err` is want of memory alone.
    pub(crate) fn sought<R: Wait>(
        &mut self,
        rt: &R,
        alloc: Global,
        desks: &[Desk],
        tenant: u32,
    ) -> Result<Option<Hit>, AllocError>
        requires ledger { IsLedger desks.now self.old }
        ensures { IfOk result (λ r. MatchOption r (Seeks desks.now self.old self.new) (λ h. (l : AnyLedger) × Seeks desks.now self.old l × TakesOut desks.now tenant h.fabric h.transit l self.new)) }
    {
        let count = count_of(desks);
        for fabric in 0..count {
            if let Some(transit) = self.take_at(rt, alloc, desks, fabric as usize, tenant)? {
                return Ok(Some(Hit { fabric, transit }));
            }
        }
        Ok(None)
    }

    /// The greatest tick to which a tenant has come, as the first seats now know.
    pub(crate) fn progress(&mut self, desks: &[Desk], tenant: u32) -> u64
        requires ledger { IsLedger desks.now self.old }
        requires tenant { tenant < length self.old.loaded.value.items }
        ensures seeks { Seeks desks.now self.old self.new }
        ensures above { reach_in tenant self.old.firsts.items ≤ result }
        ensures below { result ≤ reach_in tenant self.new.firsts.items }
    {
        let mut most = 0;
        for place in 0..desks.len() {
            let ticks = desks[place].progress(&mut self.firsts[place], tenant);
            most = greater(most, ticks);
        }
        most
    }
}
