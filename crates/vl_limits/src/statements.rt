//! What statements count, their loops turn by turn (IEEE 1364-2005, clauses 9.4 to 9.6).

ghost use Rattle.std.specs.Prelude.{◌≡◌, ◌<◌, ◌+◌, ◌*◌, min, if◌then◌else◌, nat_lt, length, slice_set, sum_by, All, IfOk, OnOk};
ghost use Rattle.vl_design.specs.Exec.{most_turns};
ghost use Rattle.vl_design.specs.Seen.{stm_of, stms_of};
ghost use Rattle.vl_loops.specs.Limits.{else_count, items_count, stm_count, stms_count};
ghost use Rattle.vl_loops.specs.Loops.{HasHeads, HaveHeads, ItemsHaveHeads};
ghost use Rattle.vl_loops.specs.Rooms.{rows_of, scope_of, state_of, AreNumbers};
ghost use Rattle.vl_limits.specs.Tallies.{counted_of};
ghost use Rattle.vl_limits.specs.Walks.{is_missing, item, items_of};

use crate::expressions::{exp_sum, exps_sum, target_sum};
use crate::sums::{Tally, plus, times};
use crate::tasks::{task_sum, whole_sum};
use std::alloc::{AllocError, Global};
use vl_base::place::Place;
use vl_design::design::{CaseItem, Stmt, StmtNode};
use vl_loops::header::turns_of;
use vl_loops::room::Room;

/// A null statement at the place of its `if` stands for an `else` that isn't there.
fn is_missing(at: Place, a: &Stmt) -> bool
    ensures { result ≡ is_missing at (stm_of a.now) }
{
    match &a.node {
        StmtNode::Nop => at.line == a.place.line && at.column == a.place.column,
        StmtNode::Seq(_) | StmtNode::If(_, _, _) | StmtNode::Case(_, _, _) => false,
        StmtNode::For(_, _, _, _, _) | StmtNode::Repeat(_, _) => false,
        StmtNode::Set(_, _) | StmtNode::Later(_, _) | StmtNode::Sys(_) => false,
    }
}

/// What a loop of more turns than are allowed counts, where it is one.
fn endless_sum(tally: &Tally<'_>, sum: u32, endless: bool) -> u32
    ensures { result ≡ min tally.now.cap (sum + (if endless then tally.now.endless else 0)) }
{
    if endless {
        plus(tally.cap, sum, tally.endless)
    } else {
        plus(tally.cap, sum, 0)
    }
}

/// A sum with what so many turns count of which one counts this.
#[tactic(auto, using(crate::proofs::Counting::products))]
fn repeated_sum(tally: &Tally<'_>, sum: u32, count: u32, once: u32) -> u32
    ensures { result ≡ min tally.now.cap (sum + ((if nat_lt most_turns count then tally.now.endless else 0) + count * once)) }
{
    let ended = endless_sum(tally, sum, count > 4096);
    plus(tally.cap, ended, times(tally.cap, count, once))
}

/// A sum with what a statement counts.
#[cycle(statements)]
#[tactic(auto, using(crate::proofs::Counting::counts))]
pub(crate) fn stm_sum(
    alloc: Global,
    tally: &Tally<'_>,
    room: &Room<'_>,
    numbers: &mut [u128],
    sum: u32,
    a: &Stmt,
) -> Result<u32, AllocError>
    requires heads { HasHeads (rows_of room.now) (stm_of a.now) }
    requires numbers { AreNumbers (rows_of room.now) numbers.old }
    ensures sum { IfOk result (λ r. r ≡ min tally.now.cap (sum + stm_count (counted_of tally.now) (scope_of room.now) (stm_of a.now) (state_of numbers.old))) }
    ensures kept { OnOk result (numbers.new ≡ numbers.old) }
{
    if sum >= tally.cap {
        return Ok(tally.cap);
    }
    let own = plus(tally.cap, sum, tally.statement);
    match &a.node {
        StmtNode::Nop => Ok(own),
        StmtNode::Seq(parts) => stms_sum(alloc, tally, room, numbers, own, parts.as_slice()),
        StmtNode::If(test, chosen, other) => {
            let tested = whole_sum(tally, own, test);
            let first = stm_sum(alloc, tally, room, numbers, tested, chosen)?;
            else_sum(alloc, tally, room, numbers, first, a.place, other)
        }
        StmtNode::Case(subject, items, _) => {
            let tested = exp_sum(tally, own, subject);
            items_sum(alloc, tally, room, numbers, tested, items.as_slice())
        }
        StmtNode::For(variable, start, test, step, body) => {
            let all = turns_of(alloc, room, numbers, *variable, start, test, step)?;
            let ended = endless_sum(tally, own, all.endless);
            turns_sum(
                alloc,
                tally,
                room,
                numbers,
                ended,
                *variable,
                &all.numbers,
                body,
            )
        }
        StmtNode::Repeat(count, body) => {
            let once = stm_sum(alloc, tally, room, numbers, 0, body)?;
            Ok(repeated_sum(tally, own, *count, once))
        }
        StmtNode::Set(target, source) => {
            let whole = whole_sum(tally, own, source);
            Ok(target_sum(tally, whole, target))
        }
        StmtNode::Later(target, source) => {
            let whole = whole_sum(tally, own, source);
            Ok(target_sum(tally, whole, target))
        }
        StmtNode::Sys(call) => Ok(task_sum(tally, own, call)),
    }
}

/// A sum with what the `else` of an `if` at a place counts.
#[cycle(statements)]
fn else_sum(
    alloc: Global,
    tally: &Tally<'_>,
    room: &Room<'_>,
    numbers: &mut [u128],
    sum: u32,
    at: Place,
    other: &Stmt,
) -> Result<u32, AllocError>
    requires heads { HasHeads (rows_of room.now) (stm_of other.now) }
    requires numbers { AreNumbers (rows_of room.now) numbers.old }
    ensures sum { IfOk result (λ r. r ≡ min tally.now.cap (sum + else_count (counted_of tally.now) at (stm_of other.now) (stm_count (counted_of tally.now) (scope_of room.now) (stm_of other.now) (state_of numbers.old)))) }
    ensures kept { OnOk result (numbers.new ≡ numbers.old) }
{
    if is_missing(at, other) {
        return Ok(plus(tally.cap, sum, 0));
    }
    stm_sum(alloc, tally, room, numbers, sum, other)
}

/// A sum with what statements count.
#[cycle(statements)]
fn stms_sum(
    alloc: Global,
    tally: &Tally<'_>,
    room: &Room<'_>,
    numbers: &mut [u128],
    sum: u32,
    parts: &[Stmt],
) -> Result<u32, AllocError>
    requires heads { HaveHeads (rows_of room.now) (stms_of parts.now) }
    requires numbers { AreNumbers (rows_of room.now) numbers.old }
    ensures sum { IfOk result (λ r. r ≡ min tally.now.cap (sum + stms_count (counted_of tally.now) (scope_of room.now) (stms_of parts.now) (state_of numbers.old))) }
    ensures kept { OnOk result (numbers.new ≡ numbers.old) }
{
    let mut all = plus(tally.cap, sum, 0);
    for a in parts {
        all = stm_sum(alloc, tally, room, numbers, all, a)?;
    }
    Ok(all)
}

/// A sum with what the items of a case count.
#[cycle(statements)]
fn items_sum(
    alloc: Global,
    tally: &Tally<'_>,
    room: &Room<'_>,
    numbers: &mut [u128],
    sum: u32,
    items: &[CaseItem],
) -> Result<u32, AllocError>
    requires heads { ItemsHaveHeads (rows_of room.now) (items_of items.now) }
    requires numbers { AreNumbers (rows_of room.now) numbers.old }
    ensures sum { IfOk result (λ r. r ≡ min tally.now.cap (sum + items_count (counted_of tally.now) (scope_of room.now) (items_of items.now) (state_of numbers.old))) }
    ensures kept { OnOk result (numbers.new ≡ numbers.old) }
{
    let mut all = plus(tally.cap, sum, 0);
    for one in items {
        let labelled = exps_sum(tally, all, one.labels.as_slice());
        all = stm_sum(alloc, tally, room, numbers, labelled, &one.body)?;
    }
    Ok(all)
}

/// A sum with what the turns of a loop count, in which its variable has these numbers.
#[cycle(statements)]
fn turns_sum(
    alloc: Global,
    tally: &Tally<'_>,
    room: &Room<'_>,
    numbers: &mut [u128],
    sum: u32,
    variable: u32,
    turns: &[u128],
    body: &Stmt,
) -> Result<u32, AllocError>
    requires heads { HasHeads (rows_of room.now) (stm_of body.now) }
    requires there { variable < length numbers.old }
    requires fits { All (λ v. AreNumbers (rows_of room.now) (slice_set numbers.old variable v)) turns.now }
    ensures sum { IfOk result (λ r. r ≡ min tally.now.cap (sum + sum_by (λ v. stm_count (counted_of tally.now) (scope_of room.now) (stm_of body.now) (state_of (slice_set numbers.old variable v))) turns.now)) }
    ensures kept { OnOk result (numbers.new ≡ numbers.old) }
{
    let before = numbers[variable as usize];
    let mut all = plus(tally.cap, sum, 0);
    for number in turns {
        numbers[variable as usize] = *number;
        all = stm_sum(alloc, tally, room, numbers, all, body)?;
    }
    numbers[variable as usize] = before;
    Ok(all)
}
