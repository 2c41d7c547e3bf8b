//! What the bodies of functions count, found in one pass in which those that are called come first; the order is a hint.

ghost use Rattle.std.specs.Prelude.{◌≡◌, ◌≤◌, ℕ, suc, length, map, slice_index, All, IfOk, OnOk};
ghost use Rattle.vl_design.specs.Seen.{stm_of};
ghost use Rattle.vl_loops.specs.Loops.{HasHeads};
ghost use Rattle.vl_limits.specs.Bodies.{func_rows, next_statements, next_nodes, rounds, AtMost};

use crate::bodies::{Bodies, func_sum, guarded_sum, nodes_tally, statements_tally};
use crate::order::number_at;
use crate::sums::entry;
use std::alloc::{AllocError, Global};
use vl_design::design::{Func, Signal};

/// The statements of a function come into its place of the table.
fn replace_statements(
    alloc: Global,
    signals: &[Signal],
    funcs: &[Func],
    number: usize,
    table: &mut Vec<u32>,
) -> Result<(), AllocError>
    requires { All (λ f. HasHeads (func_rows signals.now f) (stm_of f.body)) funcs.now }
    ensures { OnOk result ((n : ℕ) → AtMost table.old.items (rounds (next_statements signals.now) funcs.now n) → AtMost table.new.items (rounds (next_statements signals.now) funcs.now (suc n))) }
{
    if number >= funcs.len() || number >= table.len() {
        return Ok(());
    }
    let tally = statements_tally(table.as_slice());
    let statements = func_sum(alloc, &tally, signals, &funcs[number])?;
    table[number] = statements;
    Ok(())
}

/// The nodes of a function come into its place of the table; none where it has too many statements.
fn replace_nodes(
    alloc: Global,
    signals: &[Signal],
    funcs: &[Func],
    statements: &[u32],
    number: usize,
    table: &mut Vec<u32>,
) -> Result<(), AllocError>
    requires { All (λ f. HasHeads (func_rows signals.now f) (stm_of f.body)) funcs.now }
    ensures { OnOk result (statements.now ≡ map (next_statements signals.now statements.now) funcs.now → (n : ℕ) → AtMost table.old.items (rounds (next_nodes signals.now statements.now) funcs.now n) →
        AtMost table.new.items (rounds (next_nodes signals.now statements.now) funcs.now (suc n))) }
{
    if number >= funcs.len() || number >= table.len() {
        return Ok(());
    }
    let tally = nodes_tally(table.as_slice());
    let few = entry(statements, number);
    let nodes = guarded_sum(alloc, &tally, signals, &funcs[number], few)?;
    table[number] = nodes;
    Ok(())
}

/// The statements of each function.
fn statements_in(
    alloc: Global,
    signals: &[Signal],
    funcs: &[Func],
    order: &[usize],
) -> Result<Vec<u32>, AllocError>
    requires { All (λ f. HasHeads (func_rows signals.now f) (stm_of f.body)) funcs.now }
    ensures { IfOk result (λ v. AtMost v.items (rounds (next_statements signals.now) funcs.now (length funcs.now))) }
{
    let mut table = vec![in alloc; 0; funcs.len()]?;
    for index in 0..funcs.len() {
        replace_statements(alloc, signals, funcs, number_at(order, index), &mut table)?;
    }
    Ok(table)
}

/// The nodes of each function.
fn nodes_in(
    alloc: Global,
    signals: &[Signal],
    funcs: &[Func],
    order: &[usize],
    statements: &[u32],
) -> Result<Vec<u32>, AllocError>
    requires { All (λ f. HasHeads (func_rows signals.now f) (stm_of f.body)) funcs.now }
    ensures { IfOk result (λ v. statements.now ≡ map (next_statements signals.now statements.now) funcs.now → AtMost v.items (rounds (next_nodes signals.now statements.now) funcs.now (length funcs.now))) }
{
    let mut table = vec![in alloc; 0; funcs.len()]?;
    for index in 0..funcs.len() {
        replace_nodes(
            alloc,
            signals,
            funcs,
            statements,
            number_at(order, index),
            &mut table,
        )?;
    }
    Ok(table)
}

/// What the body of each function counts, at most: all of it, if each comes in the order behind those that it calls.
pub(crate) fn passed(
    alloc: Global,
    signals: &[Signal],
    funcs: &[Func],
    order: &[usize],
) -> Result<Bodies, AllocError>
    requires { All (λ f. HasHeads (func_rows signals.now f) (stm_of f.body)) funcs.now }
    ensures statements { IfOk result (λ b. AtMost b.statements.items (rounds (next_statements signals.now) funcs.now (length funcs.now))) }
    ensures nodes { IfOk result (λ b. b.statements.items ≡ map (next_statements signals.now b.statements.items) funcs.now → AtMost b.nodes.items (rounds (next_nodes signals.now b.statements.items) funcs.now (length funcs.now))) }
{
    let statements = statements_in(alloc, signals, funcs, order)?;
    let nodes = nodes_in(alloc, signals, funcs, order, statements.as_slice())?;
    Ok(Bodies { statements, nodes })
}
