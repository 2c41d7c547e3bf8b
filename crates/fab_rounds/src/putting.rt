//! Putting tenants in line.

ghost use Rattle.std.specs.Prelude.{◌≡◌, ◌<◌, ◌≤◌, ◌+◌, ℕ, [], true, None, All, IfOk, OnOk};
ghost use Rattle.fab_core.specs.ten_parcel.specs.Parcels.{cost_of, number_of, origin_in, ticks_of};
ghost use Rattle.fab_core.specs.fab_model.specs.Fabrics.{within};
ghost use Rattle.fab_core.specs.fab_model.specs.Points.{ended, Point};
ghost use Rattle.fab_core.specs.Standing.{IsPointOf};
ghost use Rattle.fab_core.specs.fab_model.specs.Origins.{StartsFrom};
ghost use Rattle.fab_core.specs.fab_model.specs.Tokens.{token_of, Token};
ghost use Rattle.fab_rounds.specs.Ledgers.{reach, reach_in, seat_outs, seat_puts, IsFirst, IsLedger, IsMoving, IsSameAnswers, IsSameRun, KeepsReach, KeepsSums, PutsOne};

use crate::ledgers::{Ledger, Moving};
use fab_core::transit::Transit;
use fab_desk::desk::{Desk, DeskSeat};
use fab_desk::leaving::DeskError;
use fab_orders::outcomes::Cause;
use std::alloc::AllocError;
use std::snapshot::Snapshot;
use std::sync::Wait;

/// Puts a tenant in line, again and again while one of its number is there. An `Err` is want of memory alone.
pub(crate) fn put_again<R: Wait>(
    rt: &R,
    desk: &Desk,
    seat: &mut DeskSeat,
    transit: Transit,
) -> Result<(), AllocError>
    requires first { IsFirst desk.now seat.old }
    requires point { (p : Point) × IsPointOf transit.parcel p × (ended p ≡ None) }
    requires tenant { number_of transit.parcel < desk.now.label.tenants }
    requires own { StartsFrom desk.now.label.origins (number_of transit.parcel) (origin_in transit.parcel) }
    requires place { within (cost_of transit.parcel) desk.now.label.capacity ≡ true }
    ensures first { IsFirst desk.now seat.new }
    ensures puts { OnOk result ((f : Token → ℕ) → seat_puts f seat.new ≡ seat_puts f seat.old + f (token_of transit)) }
    ensures outs { (f : Token → ℕ) → seat_outs f seat.new ≡ seat_outs f seat.old }
    ensures reach { (t : ℕ) → reach t seat.old ≤ reach t seat.new }
    ensures there { OnOk result (ticks_of transit.parcel ≤ reach (number_of transit.parcel) seat.new) }
{
    let mut transit = transit;
    for _ in rt.forever() {
        match desk.put(rt, seat, transit) {
            Ok(_) => return Ok(()),
            Err(refused) => match refused.why {
                DeskError::Doubled(_) => transit = refused.transit,
                DeskError::Memory => return Err(AllocError),
                DeskError::TooLarge(_, _) => unreachable!(),
            },
        }
    }
    unreachable!()
}

impl Ledger {
    /// Puts a tenant in line where it moves to, and writes why. An `Err` is want of memory alone.
    fn put_one<R: Wait>(&mut self, rt: &R, desks: &[Desk], next: Moving) -> Result<(), AllocError>
        requires ledger { IsLedger desks.now self.old }
        requires next { IsMoving self.old.loaded.value.items self.old.labels.value.items next }
        ensures { OnOk result (PutsOne desks.now next.transit self.old self.new) }
    {
        let Moving {
            reason,
            fabric,
            transit,
        } = next;
        let cause = Cause {
            reason,
            fabric,
            transit: Snapshot::of(&transit),
        };
        self.causes.push(cause)?;
        let place = fabric as usize;
        put_again(rt, &desks[place], &mut self.firsts[place], transit)
    }

    /// Puts all that move in line, in the order of their numbers. An `Err` is want of memory alone.
    pub(crate) fn put_all<R: Wait>(self, rt: &R, desks: &[Desk]) -> Result<Ledger, AllocError>
        requires { IsLedger desks.now self }
        ensures ledger { IfOk result (λ l. IsLedger desks.now l) }
        ensures same { IfOk result (λ l. IsSameRun self l) }
        ensures sums { IfOk result (λ l. KeepsSums self l) }
        ensures answers { IfOk result (λ l. IsSameAnswers self l) }
        ensures reach { IfOk result (λ l. KeepsReach self l) }
        ensures there { IfOk result (λ l. All (λ m. ticks_of m.transit.parcel ≤ reach_in (number_of m.transit.parcel) l.firsts.items) self.moving.items) }
        ensures none { IfOk result (λ l. l.moving.items ≡ []) }
    {
        let mut ledger = self;
        while let Some(next) = ledger.moving.pop() {
            ledger.put_one(rt, desks, next)?;
        }
        Ok(ledger)
    }
}
