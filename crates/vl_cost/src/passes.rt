//! Cells of the bodies of functions, found in one pass in which those that are called come first; the order is a hint.

ghost use Rattle.std.specs.Prelude.{◌≡◌, ◌≤◌, ℕ, suc, length, slice_index, All, IfOk};
ghost use Rattle.vl_design.specs.Seen as seen;
ghost use Rattle.vl_limits.specs.Bodies.{rounds, AtMost};
ghost use Rattle.vl_cost.specs.Walks.{next_cells, HasNoLoop};

use crate::statements::stm_cells;
use std::alloc::{AllocError, Global};
use vl_design::design::Func;
use vl_limits::order::number_at;

/// The cells of a function come into its place of the table.
fn replace(funcs: &[Func], number: usize, table: &mut Vec<u64>)
    requires { All (λ f. HasNoLoop (seen.stm_of f.body)) funcs.now }
    ensures { (n : ℕ) → AtMost table.old.items (rounds next_cells funcs.now n) → AtMost table.new.items (rounds next_cells funcs.now (suc n)) }
{
    if number >= funcs.len() || number >= table.len() {
        return;
    }
    let cells = stm_cells(table.as_slice(), &funcs[number].body);
    table[number] = cells;
}

/// What the body of each function counts, at most: all of it, if each comes in the order behind those that it calls.
pub(crate) fn passed(alloc: Global, funcs: &[Func], order: &[usize]) -> Result<Vec<u64>, AllocError>
    requires { All (λ f. HasNoLoop (seen.stm_of f.body)) funcs.now }
    ensures { IfOk result (λ v. AtMost v.items (rounds next_cells funcs.now (length funcs.now))) }
{
    let mut table = vec![in alloc; 0; funcs.len()]?;
    for index in 0..funcs.len() {
        replace(funcs, number_at(order, index), &mut table);
    }
    Ok(table)
}
