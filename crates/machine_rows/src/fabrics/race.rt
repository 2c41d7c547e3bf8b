//! Two threads that put tenants in line at one desk, each from its own seat.

ghost use Rattle.std.specs.Prelude.{◌≡◌, ◌≤◌, true, IfOk, IfSome};
ghost use Rattle.fab_model.specs.ten_parcel.specs.Parcels.{IsParcel};
ghost use Rattle.machine_rows.specs.Desks.{IsAt};

use crate::fabrics::arrivals::{arrival_of, number_of, word};
use crate::fabrics::desks::{Wanted, put, turn, wanted_of};
use crate::fabrics::row::Row;
use crate::fabrics::tenants::begun;
use fab_core::laws::{points_tell_of_tenants, tenants_at_rest_have_points};
use fab_desk::bay::Bay;
use fab_desk::desk::{Desk, DeskSeat};
use fab_desk::noted::Label;
use fab_model::Kind;
use fab_model::transit::Transit;
use std::alloc::{AllocError, Global};
use std::sync::Wait;
use std::thread::{Threads, join};

/// The most turns of a desk.
const MOST_TURNS: u32 = 1_000;

/// Puts a tenant at rest in line, unless its run has ended or its number is too large. True where it is in line.
fn puts<R: Wait>(rt: &R, wanted: Wanted, desk: &Desk, seat: &mut DeskSeat, transit: Transit) -> bool
    requires at { IsAt wanted desk.now seat.old }
    requires parcel { IsParcel transit.parcel }
    ensures { IsAt wanted desk.now seat.new }
{
    tenants_at_rest_have_points();
    points_tell_of_tenants();
    if transit.parcel.number() >= wanted.tenants {
        return false;
    }
    if transit.parcel.ended().is_some() {
        return false;
    }
    put(rt, wanted, desk, seat, transit).is_ok()
}

/// What one of the threads does: it puts a tenant in line, and gives its seat back.
fn from_seat<R: Wait>(
    rt: &R,
    wanted: Wanted,
    desk: &Desk,
    mut seat: DeskSeat,
    transit: Transit,
) -> (DeskSeat, bool)
    requires at { IsAt wanted desk.now seat }
    requires parcel { IsParcel transit.parcel }
    ensures { IsAt wanted desk.now result.0 }
{
    let done = puts(rt, wanted, desk, &mut seat, transit);
    (seat, done)
}

/// Both threads put a tenant in line.
fn both<R: Threads + Wait + Sync>(
    rt: &R,
    wanted: Wanted,
    desk: &Desk,
    mut seat: DeskSeat,
    first: Transit,
    second: Transit,
) -> (DeskSeat, bool)
    requires at { IsAt wanted desk.now seat }
    requires any { wanted.any_puts ≡ true }
    requires first { IsParcel first.parcel }
    requires second { IsParcel second.parcel }
    ensures { IsAt wanted desk.now result.0 }
{
    if seat.room() == 0 {
        return (seat, false);
    }
    let other = desk.seat(&mut seat);
    let (one, two) = join(
        rt,
        move || -> (DeskSeat, bool)
            requires { IsAt wanted desk.now seat × IsParcel first.parcel }
            ensures { IsAt wanted desk.entry.now result.0 }
        { from_seat(rt, wanted, desk, seat, first) },
        move || -> (DeskSeat, bool)
            requires { IsAt wanted desk.now other × IsParcel second.parcel }
            ensures { IsAt wanted desk.entry.now result.0 }
        { from_seat(rt, wanted, desk, other, second) },
    );
    let (mut seat, done) = one;
    let (other, too) = two;
    desk.join_seat(&mut seat, other);
    (seat, done && too)
}

/// Turns until nobody is there.
fn to_end<R: Wait>(
    rt: &R,
    alloc: Global,
    wanted: Wanted,
    desk: &Desk,
    seat: &mut DeskSeat,
) -> Result<bool, AllocError>
    requires { IsAt wanted desk.now seat.old }
    ensures { IsAt wanted desk.now seat.new }
{
    'turns: for _ in 0..MOST_TURNS {
        let turn = turn(rt, alloc, wanted, desk, seat, 4_096)?;
        if turn.idle {
            return Ok(true);
        }
    }
    Ok(false)
}

/// How many tenants left at this tick.
fn left_at(bay: &Bay, tick: u64) -> u32 {
    let mut count = 0_u32;
    for note in bay.history() {
        if matches!(note.entry.kind, Kind::Left) && note.entry.from == tick {
            count = count.saturating_add(1);
        }
    }
    count
}

/// A tenant of this number with three ticks.
fn runner(alloc: Global, row: &Row, order: &str) -> Result<Option<Transit>, AllocError>
    ensures { IfOk result (λ o. IfSome o (λ t. IsParcel t.parcel)) }
{
    let arrival = arrival_of(alloc, order)?;
    begun(alloc, row, &arrival)
}

/// A race at a desk: both threads put a tenant in line. True where both tenants run to their third ticks and leave there.
fn race_of<R: Threads + Wait + Sync>(
    rt: &R,
    alloc: Global,
    wanted: Wanted,
    first: Transit,
    second: Transit,
) -> Result<bool, AllocError>
    requires any { wanted.any_puts ≡ true }
    requires some { 1 ≤ wanted.tenants }
    requires first { IsParcel first.parcel }
    requires second { IsParcel second.parcel }
{
    let (desk, seat) = Desk::new(alloc, wanted.label())?;
    let (mut seat, done) = both(rt, wanted, &desk, seat, first, second);
    let idle = to_end(rt, alloc, wanted, &desk, &mut seat);
    let closed = desk.close(rt, seat);
    Ok(done && idle? && left_at(closed.bay(), 3) == 2)
}

/// A race of two tenants of the row.
fn race<R: Threads + Wait + Sync>(
    rt: &R,
    alloc: Global,
    wanted: Wanted,
    row: &Row,
) -> Result<bool, AllocError>
    requires any { wanted.any_puts ≡ true }
    requires some { 1 ≤ wanted.tenants }
{
    let Some(first) = runner(alloc, row, "put 0 3")? else {
        return Ok(false);
    };
    let Some(second) = runner(alloc, row, "put 1 3")? else {
        return Ok(false);
    };
    race_of(rt, alloc, wanted, first, second)
}

/// So many races: how many ended well.
pub fn answers<R: Threads + Wait + Sync>(
    rt: &R,
    alloc: Global,
    row: &Row,
) -> Result<String, AllocError> {
    let orders = row.orders.as_str();
    let wanted = wanted_of(orders);
    if !wanted.any_puts {
        return String::from_str(alloc, "only one seat may put\n");
    }
    let times = number_of(word(orders.lines().next().unwrap_or(""), 6));
    let mut well = 0_u64;
    for _ in 0..times {
        if race(rt, alloc, wanted, row)? {
            well = well.saturating_add(1);
        }
    }
    format!(in alloc; "{well} of {times}\n")
}
