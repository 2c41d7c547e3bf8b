//! The first construct 19 of a design whose loops are unrolled.

ghost use Rattle.std.specs.Prelude.{◌≡◌, ◌↔◌, ◌+◌, Any, true, length, if◌then◌else◌, IfOk, OnOk, Some, None};
ghost use Rattle.vl_design.specs.declared.design.ProcKind.TheVariants.{Comb};
ghost use Rattle.vl_design.specs.Seen.{func_of, placed, process_of};
ghost use Rattle.vl_design.specs.Sound.{IsSound, IsSoundFun, IsSoundProc};
ghost use Rattle.vl_design.specs.Trees.{flat_of, fun_of, proc_of};
ghost use Rattle.vl_design.specs.Width.{names_of};
ghost use Rattle.vl_bits.specs.Seen.{names_seen};
ghost use Rattle.vl_bits.specs.Walks.{IsClear};
ghost use Rattle.vl_design.specs.First.{IsFirst};
ghost use Rattle.vl_latch.specs.Faults.{IsFunctionFault, IsPathFault, IsProcessFault, first_of, names_with, stop_at};

use crate::bodies::{function_is_partly, process_is_partly};
use std::alloc::{AllocError, Global};
use vl_base::place::{Place, comes_before};
use vl_bits::meanings::Meanings;
use vl_design::design::{Design, Func, ProcKind, Process, Signal};
use vl_design::stop::Stop;

/// The first of two places, either of which may be none.
fn first_of(best: Option<Place>, at: Option<Place>) -> Option<Place>
    ensures { result ≡ first_of best at }
{
    match (best, at) {
        (_, None) => best,
        (None, Some(_)) => at,
        (Some(p), Some(q)) => { if comes_before(q, 19, p, 19) { at } else { best } }
    }
}

/// The construct at a place, if there is one.
fn stop_at(at: Option<Place>) -> Option<Stop>
    ensures { result ≡ stop_at at }
{
    match at {
        Some(place) => Some(Stop::Construct(place, 19)),
        None => None,
    }
}

/// What numbers stand for in a process of the design, or, with these locals, in the body of a function.
fn meanings_of<'a>(design: &'a Design, locals: &'a [Signal]) -> Meanings<'a>
    ensures names { names_seen result ≡ names_with design.now locals.now }
    ensures locals { result.locals.now ≡ locals.now }
    ensures signals { result.signals.now ≡ design.now.signals }
{
    Meanings {
        signals: design.signals.as_slice(),
        locals,
        funcs: design.funcs.as_slice(),
    }
}

/// A process of this kind is an `always` block without an edge.
fn is_block(kind: ProcKind) -> bool
    ensures { (result ≡ true) ↔ (kind ≡ Comb) }
{
    match kind {
        ProcKind::Comb => true,
        ProcKind::Init | ProcKind::Rise | ProcKind::Fall | ProcKind::Assign => false,
    }
}

/// A place where something holds.
fn place_if(holds: bool, at: Place) -> Option<Place>
    ensures { result ≡ (if holds then Some at else None) }
{
    if holds { Some(at) } else { None }
}

/// The place of a process that is combinational and has a construct 19.
fn process_fault(
    alloc: Global,
    design: &Design,
    known: &mut Vec<u128>,
    process: &Process,
) -> Result<Option<Place>, AllocError>
    requires sound { IsSoundProc (names_of (flat_of design.now)) (proc_of process.now) }
    requires long { length known.old.items ≡ length design.now.signals }
    requires clear { IsClear known.old.items }
    ensures first { IfOk result (λ r. IsFirst (IsProcessFault (names_of (flat_of design.now)) (process_of process.now)) (stop_at r)) }
    ensures long { OnOk result (length known.new.items ≡ length known.old.items) }
    ensures clear { OnOk result (IsClear known.new.items) }
{
    if !is_block(process.kind) {
        return Ok(None);
    }
    let m = meanings_of(design, &[]);
    let partly = process_is_partly(alloc, &m, process.path.as_slice(), known, &process.body)?;
    Ok(place_if(partly, process.place))
}

/// The first place of a process with a construct 19.
fn processes_fault(
    alloc: Global,
    design: &Design,
    known: &mut Vec<u128>,
) -> Result<Option<Place>, AllocError>
    requires sound { IsSound (flat_of design.now) }
    requires long { length known.old.items ≡ length design.now.signals }
    requires clear { IsClear known.old.items }
    ensures first { IfOk result (λ r. IsFirst (λ s. Any (λ x. IsProcessFault (names_of (flat_of design.now)) (process_of x) s) design.now.processes) (stop_at r)) }
    ensures long { OnOk result (length known.new.items ≡ length known.old.items) }
    ensures clear { OnOk result (IsClear known.new.items) }
{
    let processes = design.processes.as_slice();
    let mut best = None;
    for process in processes {
        let at = process_fault(alloc, design, known, process)?;
        best = first_of(best, at);
    }
    Ok(best)
}

/// One more mask without bits for each of these locals.
fn grow(known: &mut Vec<u128>, locals: &[Signal]) -> Result<(), AllocError>
    requires { IsClear known.old.items }
    ensures long { OnOk result (length known.new.items ≡ length known.old.items + length locals.now) }
    ensures clear { OnOk result (IsClear known.new.items) }
{
    for _ in locals {
        known.push(0)?;
    }
    Ok(())
}

/// The place of the name of a function that has a construct 19.
fn function_fault(
    alloc: Global,
    design: &Design,
    known: &mut Vec<u128>,
    f: &Func,
) -> Result<Option<Place>, AllocError>
    requires sound { IsSoundFun (names_of (flat_of design.now)) (fun_of f.now) }
    requires long { length known.old.items ≡ length design.now.signals }
    requires clear { IsClear known.old.items }
    ensures first { IfOk result (λ r. IsFirst (IsFunctionFault (names_of (flat_of design.now)) (func_of f.now)) (stop_at r)) }
    ensures long { OnOk result (length known.new.items ≡ length known.old.items) }
    ensures clear { OnOk result (IsClear known.new.items) }
{
    let m = meanings_of(design, f.locals.as_slice());
    grow(known, m.locals)?;
    let partly = function_is_partly(alloc, &m, known, f)?;
    known.truncate(m.signals.len());
    Ok(place_if(partly, f.place))
}

/// The first place of a function with a construct 19.
fn functions_fault(
    alloc: Global,
    design: &Design,
    known: &mut Vec<u128>,
) -> Result<Option<Place>, AllocError>
    requires sound { IsSound (flat_of design.now) }
    requires long { length known.old.items ≡ length design.now.signals }
    requires clear { IsClear known.old.items }
    ensures { IfOk result (λ r. IsFirst (λ s. Any (λ x. IsFunctionFault (names_of (flat_of design.now)) (func_of x) s) design.now.funcs) (stop_at r)) }
{
    let funcs = design.funcs.as_slice();
    let mut best = None;
    for f in funcs {
        let at = function_fault(alloc, design, known, f)?;
        best = first_of(best, at);
    }
    Ok(best)
}

/// The first construct 19 of a design whose loops are unrolled: the least place of a combinational process that leaves a bit of a
/// variable that it writes unassigned on some path or reads one before it assigns it, or of the name of a function that does so
/// with its result, or reads a local that is no input before it assigns it. None where there is none.
pub fn paths(alloc: Global, design: &Design) -> Result<Option<Stop>, AllocError>
    requires { IsSound (flat_of design.now) }
    ensures { IfOk result (IsFirst (IsPathFault (placed design.now))) }
{
    let mut known = vec![in alloc; 0; design.signals.as_slice().len()]?;
    let first = processes_fault(alloc, design, &mut known)?;
    let second = functions_fault(alloc, design, &mut known)?;
    Ok(stop_at(first_of(first, second)))
}
