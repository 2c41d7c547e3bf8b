//! Cells of the bodies of functions: each counts at each of its calls, and calls nest as deep as there are functions
//! (IEEE 1364-2005, clause 10.4).

ghost use Rattle.std.specs.Prelude.{◌≡◌, length, map, All, IfOk, true};
ghost use Rattle.vl_design.specs.Laws.{IsUnrolled};
ghost use Rattle.vl_design.specs.Seen as seen;
ghost use Rattle.vl_design.specs.Trees.{flat_of};
ghost use Rattle.vl_cost.specs.Walks.{next_cells, AreBodies, HasNoLoop};

use crate::passes::passed;
use crate::statements::stm_cells;
use std::alloc::{AllocError, Global};
use vl_design::design::{Design, Func};
use vl_limits::order::call_order;

/// What bodies count where calls nest one deeper.
fn next_bodies(alloc: Global, funcs: &[Func], before: &[u64]) -> Result<Vec<u64>, AllocError>
    requires { All (λ f. HasNoLoop (seen.stm_of f.body)) funcs.now }
    ensures { IfOk result (λ v. v.items ≡ map (next_cells before.now) funcs.now) }
{
    let mut all = Vec::new(alloc);
    for func in funcs {
        let cells = stm_cells(before, &func.body);
        all.push(cells)?;
    }
    Ok(all)
}

/// Two tables are the same.
fn is_same(a: &[u64], b: &[u64]) -> bool
    ensures { result ≡ true → a.now ≡ b.now }
{
    a == b
}

/// What the body of each function of a design counts: in each round calls nest one deeper, until nothing changes.
fn rounds_of(alloc: Global, design: &Design) -> Result<Vec<u64>, AllocError>
    requires { IsUnrolled (flat_of design.now) }
    ensures { IfOk result (λ v. AreBodies (flat_of design.now) (length (flat_of design.now).funs) v.items) }
{
    let funcs = design.funcs.as_slice();
    let mut all = Vec::new(alloc);
    for _round in 0..funcs.len() {
        let next = next_bodies(alloc, funcs, &all)?;
        if is_same(&next, &all) {
            return Ok(next);
        }
        all = next;
    }
    Ok(all)
}

/// What the body of each function of a design counts. If functions lead to no circle of calls, one pass finds it.
pub(crate) fn bodies_of(alloc: Global, design: &Design) -> Result<Vec<u64>, AllocError>
    requires { IsUnrolled (flat_of design.now) }
    ensures { IfOk result (λ v. AreBodies (flat_of design.now) (length (flat_of design.now).funs) v.items) }
{
    let funcs = design.funcs.as_slice();
    let order = call_order(alloc, funcs)?;
    let all = passed(alloc, funcs, order.as_slice())?;
    let next = next_bodies(alloc, funcs, &all)?;
    if is_same(&next, &all) {
        return Ok(all);
    }
    rounds_of(alloc, design)
}
