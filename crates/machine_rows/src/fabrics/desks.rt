//! Orders to a desk, and what comes of them.

ghost use Rattle.std.specs.Prelude.{◌≡◌, ◌<◌, ◌≤◌, None, All, IfOk};
ghost use Rattle.fab_core.specs.Standing.{IsPointOf};
ghost use Rattle.fab_model.specs.Points.{ended, Point};
ghost use Rattle.fab_model.specs.ten_parcel.specs.Parcels.{number_of, IsParcel};
ghost use Rattle.machine_rows.specs.Desks.{IsAt, IsOut};

use crate::fabrics::arrivals::{Arrival, arrival_of, number_of, small_of, word};
use crate::fabrics::notes::{
    entries_text, entry_text, found_text, history_text, leaving_text, refused_text, turn_text,
};
use crate::fabrics::row::Row;
use crate::fabrics::tenants::begun;
use fab_core::laws::{points_tell_of_tenants, tenants_at_rest_have_points};
use fab_desk::desk::{Desk, DeskSeat};
use fab_desk::leaving::{Leaving, Receipt, Refused, Taken, Turn};
use fab_desk::noted::Label;
use fab_model::transit::Transit;
use std::alloc::{AllocError, Global};
use std::sync::Wait;
use vl_design::capacity::Cost;

/// What a row says of its desk.
#[derive(Clone, Copy, Drop)]
pub struct Wanted {
    /// What the fabric has.
    pub capacity: Cost,
    /// Tenants have numbers below this one.
    pub tenants: u32,
    /// Every seat may put.
    pub any_puts: bool,
}

impl Wanted {
    /// The label of such a desk; what tenants start from isn't named.
    pub fn label(self) -> Label
        ensures tenants { result.tenants ≡ self.tenants }
        ensures any { result.any_puts ≡ self.any_puts }
        ensures origins { result.origins ≡ None }
    {
        Label {
            fabric: 0,
            capacity: self.capacity,
            tenants: self.tenants,
            any_puts: self.any_puts,
            origins: None,
        }
    }
}

/// A tenant that hasn't ended is put in line, or given back.
pub fn put<R: Wait>(
    rt: &R,
    wanted: Wanted,
    desk: &Desk,
    seat: &mut DeskSeat,
    transit: Transit,
) -> Result<Receipt, Refused>
    requires at { IsAt wanted desk.now seat.old }
    requires transit { (p : Point) × IsPointOf transit.parcel p × (ended p ≡ None) }
    requires tenant { number_of transit.parcel < wanted.tenants }
    ensures { IsAt wanted desk.now seat.new }
{
    desk.put(rt, seat, transit)
}

/// A turn of at most so many cycles.
pub fn turn<R: Wait>(
    rt: &R,
    alloc: Global,
    wanted: Wanted,
    desk: &Desk,
    seat: &mut DeskSeat,
    most: u64,
) -> Result<Turn, AllocError>
    requires at { IsAt wanted desk.now seat.old }
    requires some { 1 ≤ most }
    ensures at { IsAt wanted desk.now seat.new }
    ensures out { IfOk result (λ t. All (λ l. IsParcel l.transit.parcel) t.leaving.items) }
{
    points_tell_of_tenants();
    desk.turn(rt, alloc, seat, most)
}

/// A tenant is taken out, if it is there.
fn take<R: Wait>(
    rt: &R,
    alloc: Global,
    wanted: Wanted,
    desk: &Desk,
    seat: &mut DeskSeat,
    tenant: u32,
) -> Result<Taken, AllocError>
    requires { IsAt wanted desk.now seat.old }
    ensures at { IsAt wanted desk.now seat.new }
    ensures out { IfOk result (λ t. IsOut t.found) }
{
    points_tell_of_tenants();
    desk.take(rt, alloc, seat, tenant)
}

/// The greatest tick posted for a tenant.
fn progress(wanted: Wanted, desk: &Desk, seat: &mut DeskSeat, tenant: u32) -> u64
    requires at { IsAt wanted desk.now seat.old }
    requires tenant { tenant < wanted.tenants }
    ensures { IsAt wanted desk.now seat.new }
{
    desk.progress(seat, tenant)
}

/// A tenant at rest is put in line, unless its run has ended, or its number is too large: what comes of that.
fn comes<R: Wait>(
    rt: &R,
    alloc: Global,
    wanted: Wanted,
    desk: &Desk,
    seat: &mut DeskSeat,
    transit: Transit,
) -> Result<String, AllocError>
    requires at { IsAt wanted desk.now seat.old }
    requires parcel { IsParcel transit.parcel }
    ensures { IsAt wanted desk.now seat.new }
{
    tenants_at_rest_have_points();
    points_tell_of_tenants();
    if transit.parcel.number() >= wanted.tenants {
        return String::from_str(alloc, "no such number\n");
    }
    if transit.parcel.ended().is_some() {
        return String::from_str(alloc, "it has ended\n");
    }
    match put(rt, wanted, desk, seat, transit) {
        Ok(receipt) => entry_text(alloc, receipt.entry),
        Err(refused) => refused_text(alloc, &refused),
    }
}

/// A tenant is loaded and put in line.
fn arrives<R: Wait>(
    rt: &R,
    alloc: Global,
    wanted: Wanted,
    desk: &Desk,
    seat: &mut DeskSeat,
    row: &Row,
    line: &str,
) -> Result<String, AllocError>
    requires { IsAt wanted desk.now seat.old }
    ensures { IsAt wanted desk.now seat.new }
{
    let arrival = arrival_of(alloc, line)?;
    match begun(alloc, row, &arrival)? {
        None => String::from_str(alloc, "no tenant\n"),
        Some(transit) => comes(rt, alloc, wanted, desk, seat, transit),
    }
}

/// A tenant that left comes back, unless its run has ended: what comes of that.
fn back<R: Wait>(
    rt: &R,
    alloc: Global,
    wanted: Wanted,
    desk: &Desk,
    seat: &mut DeskSeat,
    transit: Transit,
) -> Result<String, AllocError>
    requires at { IsAt wanted desk.now seat.old }
    requires parcel { IsParcel transit.parcel }
    ensures { IsAt wanted desk.now seat.new }
{
    if transit.parcel.ended().is_some() {
        return Ok(String::new(alloc));
    }
    comes(rt, alloc, wanted, desk, seat, transit)
}

/// A tenant that left is told of, and comes back.
fn again<R: Wait>(
    rt: &R,
    alloc: Global,
    wanted: Wanted,
    desk: &Desk,
    seat: &mut DeskSeat,
    leaving: Leaving,
) -> Result<String, AllocError>
    requires at { IsAt wanted desk.now seat.old }
    requires parcel { IsParcel leaving.transit.parcel }
    ensures { IsAt wanted desk.now seat.new }
{
    let told = leaving_text(alloc, &leaving);
    let more = back(rt, alloc, wanted, desk, seat, leaving.transit);
    joined(told?, more?)
}

/// The last of the tenants that left is told of, and comes back where it left for another fabric.
fn leave_last<R: Wait>(
    rt: &R,
    alloc: Global,
    wanted: Wanted,
    desk: &Desk,
    seat: &mut DeskSeat,
    leaving: &mut Vec<Leaving>,
) -> Result<String, AllocError>
    requires at { IsAt wanted desk.now seat.old }
    requires parcels { All (λ l. IsParcel l.transit.parcel) leaving.old.items }
    ensures at { IsAt wanted desk.now seat.new }
    ensures parcels { All (λ l. IsParcel l.transit.parcel) leaving.new.items }
{
    match leaving.pop() {
        None => Ok(String::new(alloc)),
        Some(one) => again(rt, alloc, wanted, desk, seat, one),
    }
}

/// Tenants that left: each is told of, the last one first, and comes back where it left for another fabric; none is left.
fn leave<R: Wait>(
    rt: &R,
    alloc: Global,
    wanted: Wanted,
    desk: &Desk,
    seat: &mut DeskSeat,
    leaving: &mut Vec<Leaving>,
) -> Result<String, AllocError>
    requires at { IsAt wanted desk.now seat.old }
    requires parcels { All (λ l. IsParcel l.transit.parcel) leaving.old.items }
    ensures { IsAt wanted desk.now seat.new }
{
    let mut text = String::new(alloc);
    let count = leaving.len();
    'left: for _ in 0..count {
        let more = leave_last(rt, alloc, wanted, desk, seat, leaving)?;
        text.push_str(more.as_str())?;
    }
    Ok(text)
}

/// Two texts, one behind the other.
fn joined(mut text: String, more: String) -> Result<String, AllocError> {
    text.push_str(more.as_str())?;
    Ok(text)
}

/// A turn, and what comes of it.
fn turns<R: Wait>(
    rt: &R,
    alloc: Global,
    wanted: Wanted,
    desk: &Desk,
    seat: &mut DeskSeat,
    most: u64,
) -> Result<String, AllocError>
    requires at { IsAt wanted desk.now seat.old }
    requires some { 1 ≤ most }
    ensures { IsAt wanted desk.now seat.new }
{
    let mut turn = turn(rt, alloc, wanted, desk, seat, most)?;
    let told = turn_text(alloc, &turn);
    let more = leave(rt, alloc, wanted, desk, seat, &mut turn.leaving);
    joined(told?, more?)
}

/// What was taken out.
fn taken_text(alloc: Global, taken: &Taken) -> Result<String, AllocError> {
    let text = entries_text(alloc, &taken.entries)?;
    let more = found_text(alloc, &taken.found)?;
    joined(text, more)
}

/// A tenant is taken out, and what comes of that.
fn takes<R: Wait>(
    rt: &R,
    alloc: Global,
    wanted: Wanted,
    desk: &Desk,
    seat: &mut DeskSeat,
    tenant: u32,
) -> Result<String, AllocError>
    requires { IsAt wanted desk.now seat.old }
    ensures { IsAt wanted desk.now seat.new }
{
    let taken = take(rt, alloc, wanted, desk, seat, tenant)?;
    taken_text(alloc, &taken)
}

/// How far a tenant has come by its progress word.
fn progresses(
    alloc: Global,
    wanted: Wanted,
    desk: &Desk,
    seat: &mut DeskSeat,
    tenant: u32,
) -> Result<String, AllocError>
    requires { IsAt wanted desk.now seat.old }
    ensures { IsAt wanted desk.now seat.new }
{
    if tenant >= wanted.tenants {
        return String::from_str(alloc, "no such number\n");
    }
    let tick = progress(wanted, desk, seat, tenant);
    format!(in alloc; "{tenant} is at {tick}\n")
}

/// What an order comes to.
fn answer<R: Wait>(
    rt: &R,
    alloc: Global,
    wanted: Wanted,
    desk: &Desk,
    seat: &mut DeskSeat,
    row: &Row,
    line: &str,
) -> Result<String, AllocError>
    requires { IsAt wanted desk.now seat.old }
    ensures { IsAt wanted desk.now seat.new }
{
    match word(line, 0) {
        "put" => arrives(rt, alloc, wanted, desk, seat, row, line),
        "turn" => turns(
            rt,
            alloc,
            wanted,
            desk,
            seat,
            number_of(word(line, 1)).max(1),
        ),
        "take" => takes(rt, alloc, wanted, desk, seat, small_of(word(line, 1))),
        "progress" => progresses(alloc, wanted, desk, seat, small_of(word(line, 1))),
        _ => Ok(String::new(alloc)),
    }
}

/// What the orders of a row come to at a desk.
fn answers_at<R: Wait>(
    rt: &R,
    alloc: Global,
    wanted: Wanted,
    desk: &Desk,
    seat: &mut DeskSeat,
    row: &Row,
) -> Result<String, AllocError>
    requires { IsAt wanted desk.now seat.old }
    ensures { IsAt wanted desk.now seat.new }
{
    let mut text = String::new(alloc);
    'orders: for line in row.orders.as_str().lines() {
        let more = answer(rt, alloc, wanted, desk, seat, row, line)?;
        text.push_str(more.as_str())?;
    }
    Ok(text)
}

/// What the first order says: the fabric's capacity, and for how many tenants the desk is, at least one; with a word more, every seat may
/// put.
pub fn wanted_of(orders: &str) -> Wanted
    ensures { 1 ≤ result.tenants }
{
    let line = orders.lines().next().unwrap_or("");
    Wanted {
        capacity: Cost {
            regs: number_of(word(line, 1)),
            cells: number_of(word(line, 2)),
            mem: number_of(word(line, 3)),
        },
        tenants: small_of(word(line, 4)).max(1),
        any_puts: !word(line, 5).is_empty(),
    }
}

/// A desk is closed: its history.
fn closed_text<R: Wait>(
    rt: &R,
    alloc: Global,
    wanted: Wanted,
    desk: Desk,
    seat: DeskSeat,
) -> Result<String, AllocError>
    requires { IsAt wanted desk seat }
{
    let closed = desk.close(rt, seat);
    history_text(alloc, closed.bay())
}

/// What the orders of a row come to at a desk, and the history behind them.
pub fn answers<R: Wait>(rt: &R, alloc: Global, row: &Row) -> Result<String, AllocError> {
    let wanted = wanted_of(row.orders.as_str());
    let (desk, mut seat) = Desk::new(alloc, wanted.label())?;
    let text = answers_at(rt, alloc, wanted, &desk, &mut seat, row);
    let history = closed_text(rt, alloc, wanted, desk, seat);
    joined(text?, history?)
}
