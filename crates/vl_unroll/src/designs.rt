//! Designs with their loops unrolled.

ghost use Rattle.std.specs.Prelude.{◌≡◌, IfOk, All, map, []};
ghost use Rattle.vl_design.specs.Rows.{range_width};
ghost use Rattle.vl_design.specs.Seen.{stm_of, func_of, process_of, placed};
ghost use Rattle.vl_design.specs.Sound.{IsWidth};
ghost use Rattle.vl_design.specs.Trees.{flat_of};
ghost use Rattle.vl_loops.specs.Fits.{CanUnroll};
ghost use Rattle.vl_loops.specs.Placed.{unrolled_placed};
ghost use Rattle.vl_unroll.specs.Bodies.{IsBody, rows_with, body_unrolled, func_at, process_at};

use crate::copies::{copied, copied_events, copied_numbers, copied_signals};
use crate::statements::statement;
use std::alloc::{AllocError, Global};
use vl_design::Items;
use vl_design::design::{Design, Func, Process, Signal, Stmt};
use vl_loops::room::{Room, zeros};

/// A body with its loops unrolled: around them no loop variable has a number.
#[tactic(auto, using(crate::proofs::Bodies::bodies))]
fn body(alloc: Global, signals: &[Signal], locals: &[Signal], s: &Stmt) -> Result<Stmt, AllocError>
    requires { IsBody (rows_with signals.now locals.now) (stm_of s.now) }
    ensures { IfOk result (λ x. stm_of x ≡ body_unrolled signals.now locals.now (stm_of s.now)) }
{
    let room = Room { signals, locals };
    let mut numbers = zeros(alloc, &room)?;
    statement(alloc, &room, &mut numbers, s)
}

/// A function with its loops unrolled.
fn func(alloc: Global, signals: &[Signal], f: &Func) -> Result<Func, AllocError>
    requires { IsBody (rows_with signals.now f.now.locals) (stm_of f.now.body) }
    ensures { IfOk result (λ x. func_of x ≡ func_at signals.now f.now) }
{
    let name = copied(alloc, &f.name)?;
    let inputs = copied_numbers(alloc, &f.inputs)?;
    let locals = copied_signals(alloc, f.locals.as_slice())?;
    let body = body(alloc, signals, f.locals.as_slice(), &f.body)?;
    Ok(Func {
        name,
        place: f.place,
        inputs,
        result: f.result,
        locals,
        body,
    })
}

/// Functions one by one.
fn funcs(alloc: Global, signals: &[Signal], list: &[Func]) -> Result<Items<Func>, AllocError>
    requires { All (λ f. IsBody (rows_with signals.now f.locals) (stm_of f.body)) list.now }
    ensures { IfOk result (λ v. map func_of v ≡ map (func_at signals.now) list.now) }
{
    let mut all = Vec::new(alloc);
    for f in list {
        all.push(func(alloc, signals, f)?)?;
    }
    Ok(Items::from_vec(all))
}

/// A process with its loops unrolled.
fn process(alloc: Global, signals: &[Signal], a: &Process) -> Result<Process, AllocError>
    requires { IsBody (rows_with signals.now []) (stm_of a.now.body) }
    ensures { IfOk result (λ x. process_of x ≡ process_at signals.now a.now) }
{
    let path = copied(alloc, &a.path)?;
    let events = copied_events(alloc, &a.events)?;
    let body = body(alloc, signals, &[], &a.body)?;
    Ok(Process {
        place: a.place,
        path,
        kind: a.kind,
        events,
        body,
    })
}

/// Processes one by one.
fn processes(
    alloc: Global,
    signals: &[Signal],
    list: &[Process],
) -> Result<Items<Process>, AllocError>
    requires { All (λ a. IsBody (rows_with signals.now []) (stm_of a.body)) list.now }
    ensures { IfOk result (λ v. map process_of v ≡ map (process_at signals.now) list.now) }
{
    let mut all = Vec::new(alloc);
    for a in list {
        all.push(process(alloc, signals, a)?)?;
    }
    Ok(Items::from_vec(all))
}

/// The design with its loops unrolled: each loop is a block, at its place, of its turns, in which its variable is a number
/// (IEEE 1364-2005, clauses 9.6 and 9.8.1). Signals, the heads of functions and processes, and the places of all nodes stay.
/// It takes memory in proportion to its result, so the limits on turns and statements are judged first.
pub(crate) fn unrolled(alloc: Global, design: &Design) -> Result<Design, AllocError>
    requires fit { CanUnroll (flat_of design.now) }
    requires signals { All (λ r. IsWidth (range_width r.left r.right)) design.now.signals }
    requires locals { All (λ f. All (λ r. IsWidth (range_width r.left r.right)) f.locals) design.now.funcs }
    ensures { IfOk result (λ u. placed u ≡ unrolled_placed (placed design.now)) }
{
    let names = design.signals.as_slice();
    let top = copied(alloc, &design.top)?;
    let signals = copied_signals(alloc, names)?;
    let funcs = funcs(alloc, names, design.funcs.as_slice())?;
    let processes = processes(alloc, names, design.processes.as_slice())?;
    Ok(Design {
        top,
        signals,
        funcs,
        processes,
    })
}
