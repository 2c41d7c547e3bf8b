//! Calls of functions (IEEE 1364-2005, clause 10.4).

ghost use Rattle.std.specs.Prelude.{◌≡◌, All, IfOk, OnOk, Some};
ghost use Rattle.vl_design.specs.Functions as d;
ghost use Rattle.vl_design.specs.Sound.{IsSound, IsSoundFun, IsSoundStm};
ghost use Rattle.vl_design.specs.Trees.{fun_of, flat_of, stm_of};
ghost use Rattle.vl_design.specs.Width as w;
ghost use Rattle.vl_eval.specs.Rooms.{names_of, Fit};
ghost use Rattle.vl_run.specs.Machines.{IsMachine, Does};
ghost use Rattle.vl_run.specs.Scopes.{scope_of, calls_in, Calls};

use crate::begin::{begin, value_of};
use crate::machine::Machine;
use crate::outer::{outermost, room_of};
use crate::scope::{Scope, inner};
use std::alloc::{AllocError, Global};
use vl_base::files::FileSet;
use vl_design::design::{Design, Func, Stmt};
use vl_eval::room::Room;

/// What the body of a function gives for the values of its inputs, in its own scope.
fn run_body<F: Fn(u32, Vec<u128>) -> Result<u128, AllocError>>(
    scope: &Scope<'_, F>,
    func: &Func,
    args: &[u128],
) -> Result<u128, AllocError>
    requires inside { names_of scope.now.room ≡ w.names_in (names_of scope.now.room) (fun_of func.now) }
    requires sound { IsSoundFun (names_of scope.now.room) (fun_of func.now) }
    requires fit { Fit args.now (w.input_widths_of (names_of scope.now.room) (Some (fun_of func.now))) }
    requires calls { Calls (scope_of scope.now) (F.pre scope.now.call) (F.post scope.now.call) }
    ensures { IfOk result (λ v. v ≡ d.result_of (scope_of scope.now) (Some (fun_of func.now)) args.now) }
{
    let mut m = begin(scope.alloc, &scope.room, func, args)?;
    scope.exec(&[], &func.body, &mut m)?;
    Ok(value_of(&m.values, func.result))
}

/// What a function gives for the values of its arguments, where calls nest at most so deep. An `Err` is want of memory.
#[cycle(call)]
pub fn call(
    alloc: Global,
    room: &Room<'_>,
    files: &FileSet,
    depth: usize,
    function: u32,
    args: Vec<u128>,
) -> Result<u128, AllocError>
    requires funs { All (IsSoundFun (names_of room.now)) (names_of room.now).funs }
    requires fit { Fit args.items (w.input_widths (names_of room.now) function) }
    ensures { IfOk result (λ v. v ≡ calls_in (names_of room.now) files.now depth function args.items) }
{
    if depth == 0 {
        return Ok(0);
    }
    let number = function as usize;
    if number >= room.funcs.len() {
        return Ok(0);
    }
    let func = &room.funcs[number];
    let next = depth - 1;
    let give = |number: u32, values: Vec<u128>| -> Result<u128, AllocError>
        requires funs { All (IsSoundFun (names_of room.now)) (names_of room.now).funs }
        requires fit { Fit values.items (w.input_widths (names_of room.now) number) }
        ensures { IfOk result (λ v. v ≡ calls_in (names_of room.entry.now) files.entry.now next number values.items) }
    { call(alloc, room, files, next, number, values) };
    let scope = Scope {
        alloc,
        room: inner(room, func),
        files,
        depth: next,
        call: give,
    };
    run_body(&scope, func, &args)
}
