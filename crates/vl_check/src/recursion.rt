//! The first call on a cycle of calls (IEEE 1364-2005, clause 10.4).

ghost use Rattle.std.specs.Prelude.{◌≡◌, ◌<◌, ◌+◌, ◌^◌, length, IfOk};
ghost use Rattle.vl_design.specs.Seen.{placed};
ghost use Rattle.vl_design.specs.First.{IsFirst};
ghost use Rattle.vl_check.specs.Recursion.{IsRecursion};
ghost use Rattle.vl_check.specs.Tables as x;

use crate::calls_calls::{Call, table};
use crate::free::is_free;
use crate::search::reaches;
use std::alloc::{AllocError, Global};
use vl_design::design::Design;
use vl_design::stop::Stop;
use vl_design::stops::construct_if;

/// The first of a fault so far and the calls in a function that lead back to it.
fn calls_fault(
    alloc: Global,
    table: &[Vec<Call>],
    best: Option<Stop>,
    f: u32,
    calls: &[Call],
) -> Result<Option<Stop>, AllocError>
    requires within { x.IsClosed (x.rows_of table.now) }
    requires f { f < length table.now }
    requires row { calls.now ≡ x.row (x.rows_of table.now) f }
    requires first { IsFirst (x.IsBefore (x.rows_of table.now) f) best }
    ensures { IfOk result (IsFirst (x.IsBefore (x.rows_of table.now) (f + 1))) }
{
    let mut first = best;
    for call in calls {
        let back = reaches(alloc, table, call.callee, f)?;
        first = construct_if(first, back, call.place, 20);
    }
    Ok(first)
}

/// The first of the calls that lead back to the functions that they stand in, found call by call.
fn search_all(alloc: Global, table: &[Vec<Call>]) -> Result<Option<Stop>, AllocError>
    requires few { length table.now < 2 ^ 32 }
    requires within { x.IsClosed (x.rows_of table.now) }
    ensures { IfOk result (IsFirst (x.IsCycleCall (x.rows_of table.now))) }
{
    let mut best = None;
    for f in 0..table.len() {
        best = calls_fault(alloc, table, best, f as u32, table[f].as_slice())?;
    }
    Ok(best)
}

/// The first of the calls that lead back to the functions that they stand in. None, at once, where the functions have an order.
fn table_fault(alloc: Global, table: &[Vec<Call>]) -> Result<Option<Stop>, AllocError>
    requires few { length table.now < 2 ^ 32 }
    requires within { x.IsClosed (x.rows_of table.now) }
    ensures { IfOk result (IsFirst (x.IsCycleCall (x.rows_of table.now))) }
{
    let free = is_free(alloc, table)?;
    if free {
        return Ok(None);
    }
    search_all(alloc, table)
}

/// The first recursion of functions in a design: a call, in the body of a function, of a function that is the same or leads back
/// to it by calls. None where there is none. More than `u32::MAX` functions are too many for memory.
pub fn recursive_call(alloc: Global, design: &Design) -> Result<Option<Stop>, AllocError>
    ensures { IfOk result (IsFirst (IsRecursion (placed design.now))) }
{
    let funcs = design.funcs.as_slice();
    if funcs.len() > u32::MAX as usize {
        return Err(AllocError);
    }
    let table = table(alloc, funcs)?;
    table_fault(alloc, table.as_slice())
}
