//! What the bodies of functions count: each counts at each of its calls, and calls nest as deep as there are functions
//! (IEEE 1364-2005, clause 10.4).

ghost use Rattle.std.specs.Prelude.{◌≡◌, ◌+◌, ◌≤◌, ℕ, min, if◌then◌else◌, nat_lt, length, map, slice_index, All, IfOk, true};
ghost use Rattle.vl_design.specs.Seen.{placed, stm_of};
ghost use Rattle.vl_design.specs.Trees.{flat_of};
ghost use Rattle.vl_loops.specs.Fits.{CanUnroll};
ghost use Rattle.vl_loops.specs.Limits.{stm_count, statements, nodes};
ghost use Rattle.vl_loops.specs.Loops.{HasHeads};
ghost use Rattle.vl_loops.specs.Rooms.{rows_of, scope_of, state_of, zeros_of};
ghost use Rattle.vl_limits.specs.Bodies.{func_rows, alone_count, next_statements, next_nodes, AreBodies};
ghost use Rattle.vl_limits.specs.Tallies.{counted_of};

use crate::order::call_order;
use crate::passes::passed;
use crate::statements::stm_sum;
use crate::sums::Tally;
use std::alloc::{AllocError, Global};
use vl_design::design::{Design, Func, Signal, Stmt};
use vl_loops::room::{Room, zeros};

/// What counts for limit 8.
pub(crate) fn statements_tally<'a>(bodies: &'a [u32]) -> Tally<'a>
    ensures cap { result.cap ≡ 100001 }
    ensures counted { counted_of result ≡ statements (λ f. slice_index bodies.now f) }
{
    Tally {
        cap: 100_001,
        statement: 1,
        endless: 100_001,
        node: 0,
        bodies,
    }
}

/// What counts for limit 9.
pub(crate) fn nodes_tally<'a>(bodies: &'a [u32]) -> Tally<'a>
    ensures cap { result.cap ≡ 1000001 }
    ensures counted { counted_of result ≡ nodes (λ f. slice_index bodies.now f) }
{
    Tally {
        cap: 1_000_001,
        statement: 0,
        endless: 0,
        node: 1,
        bodies,
    }
}

/// A sum with what a body counts, in which no loop variable has a number yet.
pub(crate) fn body_sum(
    alloc: Global,
    tally: &Tally<'_>,
    room: &Room<'_>,
    sum: u32,
    body: &Stmt,
) -> Result<u32, AllocError>
    requires heads { HasHeads (rows_of room.now) (stm_of body.now) }
    ensures { IfOk result (λ r. r ≡ min tally.now.cap (sum + stm_count (counted_of tally.now) (scope_of room.now) (stm_of body.now) (state_of (zeros_of room.now)))) }
{
    let mut numbers = zeros(alloc, room)?;
    stm_sum(alloc, tally, room, &mut numbers, sum, body)
}

/// What a function's body counts.
pub(crate) fn func_sum(
    alloc: Global,
    tally: &Tally<'_>,
    signals: &[Signal],
    func: &Func,
) -> Result<u32, AllocError>
    requires heads { HasHeads (func_rows signals.now func.now) (stm_of func.now.body) }
    ensures { IfOk result (λ r. r ≡ min tally.now.cap (alone_count (counted_of tally.now) signals.now func.now)) }
{
    let room = Room {
        signals,
        locals: func.locals.as_slice(),
    };
    body_sum(alloc, tally, &room, 0, &func.body)
}

/// What a function's body counts; nothing where it has too many statements.
pub(crate) fn guarded_sum(
    alloc: Global,
    tally: &Tally<'_>,
    signals: &[Signal],
    func: &Func,
    statements: u32,
) -> Result<u32, AllocError>
    requires heads { HasHeads (func_rows signals.now func.now) (stm_of func.now.body) }
    ensures { IfOk result (λ r. r ≡ (if nat_lt 100000 statements then 0 else min tally.now.cap (alone_count (counted_of tally.now) signals.now func.now))) }
{
    if statements > 100_000 {
        return Ok(0);
    }
    func_sum(alloc, tally, signals, func)
}

/// What the body of each function counts: its statements and its nodes, one more than are allowed at most.
#[derive(Drop)]
pub(crate) struct Bodies {
    /// The statements of each.
    pub(crate) statements: Vec<u32>,
    /// The nodes of each.
    pub(crate) nodes: Vec<u32>,
}

/// What bodies count where calls nest one deeper.
fn next_bodies(
    alloc: Global,
    signals: &[Signal],
    funcs: &[Func],
    before: &Bodies,
) -> Result<Bodies, AllocError>
    requires heads { All (λ f. HasHeads (func_rows signals.now f) (stm_of f.body)) funcs.now }
    ensures statements { IfOk result (λ b. b.statements.items ≡ map (next_statements signals.now before.now.statements.items) funcs.now) }
    ensures nodes { IfOk result (λ b. b.nodes.items ≡ map (next_nodes signals.now before.now.statements.items before.now.nodes.items) funcs.now) }
{
    let few = statements_tally(&before.statements);
    let many = nodes_tally(&before.nodes);
    let mut all = Bodies {
        statements: Vec::new(alloc),
        nodes: Vec::new(alloc),
    };
    for func in funcs {
        let statements = func_sum(alloc, &few, signals, func)?;
        let nodes = guarded_sum(alloc, &many, signals, func, statements)?;
        all.statements.push(statements)?;
        all.nodes.push(nodes)?;
    }
    Ok(all)
}

/// Two tables are the same.
fn is_same(a: &[u32], b: &[u32]) -> bool
    ensures { result ≡ true → a.now ≡ b.now }
{
    a == b
}

/// What the body of each function of a design counts, in rounds until nothing changes.
fn rounds_of(alloc: Global, design: &Design) -> Result<Bodies, AllocError>
    requires { CanUnroll (flat_of design.now) }
    ensures { IfOk result (λ b. AreBodies (placed design.now) (length (placed design.now).funcs) b.statements.items b.nodes.items) }
{
    let signals = design.signals.as_slice();
    let funcs = design.funcs.as_slice();
    let mut all = Bodies {
        statements: Vec::new(alloc),
        nodes: Vec::new(alloc),
    };
    for _round in 0..funcs.len() {
        let next = next_bodies(alloc, signals, funcs, &all)?;
        if is_same(&next.statements, &all.statements) && is_same(&next.nodes, &all.nodes) {
            return Ok(next);
        }
        all = next;
    }
    Ok(all)
}

/// What the body of each function of a design counts. If functions lead to no circle of calls, one pass finds it.
pub(crate) fn bodies_of(alloc: Global, design: &Design) -> Result<Bodies, AllocError>
    requires { CanUnroll (flat_of design.now) }
    ensures { IfOk result (λ b. AreBodies (placed design.now) (length (placed design.now).funcs) b.statements.items b.nodes.items) }
{
    let signals = design.signals.as_slice();
    let funcs = design.funcs.as_slice();
    let order = call_order(alloc, funcs)?;
    let all = passed(alloc, signals, funcs, order.as_slice())?;
    let next = next_bodies(alloc, signals, funcs, &all)?;
    if is_same(&next.statements, &all.statements) && is_same(&next.nodes, &all.nodes) {
        return Ok(all);
    }
    rounds_of(alloc, design)
}
