//! The first of limits 8 and 9 that a design passes.

ghost use Rattle.std.specs.Prelude.{◌≡◌, ◌++◌, [], length, map, IfOk};
ghost use Rattle.vl_design.specs.Rows.{row_of};
ghost use Rattle.vl_design.specs.Seen.{placed, process_of, stm_of};
ghost use Rattle.vl_design.specs.Trees.{flat_of};
ghost use Rattle.vl_loops.specs.Fits.{CanUnroll};
ghost use Rattle.vl_loops.specs.Limits as spec;
ghost use Rattle.vl_loops.specs.Loops.{HasHeads};
ghost use Rattle.vl_limits.specs.Bodies.{AreBodies, AreAdded};

use crate::bodies::{Bodies, bodies_of, body_sum, nodes_tally, statements_tally};
use crate::sums::entry;
use std::alloc::{AllocError, Global};
use vl_base::place::Place;
use vl_design::design::{Design, Process};
use vl_design::stop::Stop;
use vl_loops::room::Room;

/// Sums of statements and of nodes.
#[derive(Clone, Copy)]
struct Sums {
    /// Statements.
    statements: u32,
    /// Nodes of expressions.
    nodes: u32,
}

/// The limit that so many statements and nodes pass.
fn limit_at(at: Place, sums: Sums) -> Option<Stop>
    ensures { result ≡ spec.limit_at at sums.statements sums.nodes }
{
    if sums.statements > 100_000 {
        Some(Stop::Limit(at, 8))
    } else if sums.nodes > 1_000_000 {
        Some(Stop::Limit(at, 9))
    } else {
        None
    }
}

/// Sums with what a process counts; its nodes where there aren't too many statements.
fn process_sums(
    alloc: Global,
    design: &Design,
    bodies: &Bodies,
    from: Sums,
    process: &Process,
) -> Result<Sums, AllocError>
    requires heads { HasHeads (map row_of design.now.signals ++ []) (stm_of process.now.body) }
    requires bodies { AreBodies (placed design.now) (length (placed design.now).funcs) bodies.now.statements.items bodies.now.nodes.items }
    ensures { IfOk result (λ r. AreAdded (placed design.now) (process_of process.now) from.statements from.nodes r.statements r.nodes) }
{
    let room = Room {
        signals: design.signals.as_slice(),
        locals: &[],
    };
    let few = statements_tally(&bodies.statements);
    let statements = body_sum(alloc, &few, &room, from.statements, &process.body)?;
    if statements > 100_000 {
        return Ok(Sums {
            statements,
            nodes: from.nodes,
        });
    }
    let many = nodes_tally(&bodies.nodes);
    let nodes = body_sum(alloc, &many, &room, from.nodes, &process.body)?;
    Ok(Sums { statements, nodes })
}

/// The limit that the design passes at a process.
fn processes_limit(
    alloc: Global,
    design: &Design,
    bodies: &Bodies,
) -> Result<Option<Stop>, AllocError>
    requires unrolled { CanUnroll (flat_of design.now) }
    requires bodies { AreBodies (placed design.now) (length (placed design.now).funcs) bodies.now.statements.items bodies.now.nodes.items }
    ensures { IfOk result (λ r. r ≡ spec.processes_limit (placed design.now) 0 0 (placed design.now).processes) }
{
    let processes = design.processes.as_slice();
    let mut sums = Sums {
        statements: 0,
        nodes: 0,
    };
    for process in processes {
        sums = process_sums(alloc, design, bodies, sums, process)?;
        let stop = limit_at(process.place, sums);
        if stop.is_some() {
            return Ok(stop);
        }
    }
    Ok(None)
}

/// The limit that a function passes by itself.
fn funcs_limit(design: &Design, bodies: &Bodies) -> Option<Stop>
    requires { AreBodies (placed design.now) (length (placed design.now).funcs) bodies.now.statements.items bodies.now.nodes.items }
    ensures { result ≡ spec.funcs_limit (placed design.now) 0 (placed design.now).funcs }
{
    let funcs = design.funcs.as_slice();
    for index in 0..funcs.len() {
        let sums = Sums {
            statements: entry(&bodies.statements, index),
            nodes: entry(&bodies.nodes, index),
        };
        let stop = limit_at(funcs[index].place, sums);
        if stop.is_some() {
            return stop;
        }
    }
    None
}

/// The first of limits 8 and 9 that the design passes, with its place: at the first process with which it has a loop of
/// more than 4,096 turns or more than 100,000 statements (limit 8), or more than 1,000,000 nodes of expressions (limit 9),
/// loops counted turn by turn and the body of a function at each of its calls; behind the processes at the first function
/// that passes one by itself. None where it passes none.
pub fn first_limit(alloc: Global, design: &Design) -> Result<Option<Stop>, AllocError>
    requires { CanUnroll (flat_of design.now) }
    ensures { IfOk result (λ r. r ≡ spec.first_limit (placed design.now)) }
{
    let bodies = bodies_of(alloc, design)?;
    let stop = processes_limit(alloc, design, &bodies)?;
    if stop.is_some() {
        return Ok(stop);
    }
    Ok(funcs_limit(design, &bodies))
}
