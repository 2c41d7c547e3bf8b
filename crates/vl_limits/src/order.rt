//! An order of functions in which those that are called come first (IEEE 1364-2005, clause 10.4.3).

ghost use Rattle.std.specs.Prelude.{◌≡◌, ◌<◌, length, slice_index, All, IfOk, OnOk};

use crate::calls::calls_of;
use std::alloc::{AllocError, Global};
use vl_design::design::Func;

/// The functions that call none.
fn first_functions(alloc: Global, counts: &[usize]) -> Result<Vec<usize>, AllocError>
    ensures { IfOk result (λ v. All (λ x. x < length counts.now) v.items) }
{
    let mut order = Vec::new(alloc);
    for (function, count) in counts.iter().enumerate() {
        if *count == 0 {
            order.push(function)?;
        }
    }
    Ok(order)
}

/// One call of a caller is done; behind its last one it comes next in the order.
fn finish_call(
    counts: &mut Vec<usize>,
    order: &mut Vec<usize>,
    caller: usize,
) -> Result<(), AllocError>
    requires { All (λ x. x < length counts.old.items) order.old.items }
    ensures long { OnOk result (length counts.new.items ≡ length counts.old.items) }
    ensures within { OnOk result (All (λ x. x < length counts.new.items) order.new.items) }
{
    if caller >= counts.len() {
        return Ok(());
    }
    let left = counts[caller].saturating_sub(1);
    counts[caller] = left;
    if left == 0 {
        order.push(caller)?;
    }
    Ok(())
}

/// The calls by these callers are done.
fn finish_calls(
    counts: &mut Vec<usize>,
    order: &mut Vec<usize>,
    callers: &[usize],
) -> Result<(), AllocError>
    requires { All (λ x. x < length counts.old.items) order.old.items }
    ensures long { OnOk result (length counts.new.items ≡ length counts.old.items) }
    ensures within { OnOk result (All (λ x. x < length counts.new.items) order.new.items) }
{
    for caller in callers {
        finish_call(counts, order, *caller)?;
    }
    Ok(())
}

/// All calls of the function at a place of the order are done, if it has come so far.
fn finish_function(
    counts: &mut Vec<usize>,
    order: &mut Vec<usize>,
    callers: &[Vec<usize>],
    index: usize,
) -> Result<(), AllocError>
    requires { All (λ x. x < length counts.old.items) order.old.items }
    ensures long { OnOk result (length counts.new.items ≡ length counts.old.items) }
    ensures within { OnOk result (All (λ x. x < length counts.new.items) order.new.items) }
{
    if index >= order.len() {
        return Ok(());
    }
    let function = order[index];
    if function >= callers.len() {
        return Ok(());
    }
    finish_calls(counts, order, callers[function].as_slice())
}

/// An order of functions, by their numbers, in which each stands behind those that it calls; a function that leads to a
/// circle of calls isn't in it. It takes time in proportion to the bodies. What stands on it as more than a hint has to look,
/// since of its numbers no more is said than that there are such functions.
pub fn call_order(alloc: Global, funcs: &[Func]) -> Result<Vec<usize>, AllocError>
    ensures { IfOk result (λ v. All (λ x. x < length funcs.now) v.items) }
{
    let calls = calls_of(alloc, funcs)?;
    let mut counts = calls.counts;
    let mut order = first_functions(alloc, counts.as_slice())?;
    for index in 0..funcs.len() {
        finish_function(&mut counts, &mut order, calls.callers.as_slice(), index)?;
    }
    Ok(order)
}

/// The number at a place of an order; past its end one that no function has.
pub fn number_at(order: &[usize], index: usize) -> usize
    ensures { index < length order.now → result ≡ slice_index order.now index }
{
    if index < order.len() {
        order[index]
    } else {
        usize::MAX
    }
}
