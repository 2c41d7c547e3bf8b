//! What statements and expressions are read in (IEEE 1364-2005, clauses 5 and 10.4).

ghost use Rattle.std.specs.Prelude.{◌≡◌, ◌<◌, All, IfOk, IfSome, Some, length, slice_get};
ghost use Rattle.vl_design.specs.Sound.{IsSoundFun, IsWidth};
ghost use Rattle.vl_design.specs.Trees.{fun_of};
ghost use Rattle.vl_design.specs.Width as w;
ghost use Rattle.vl_eval.specs.Rooms.{names_of, Fit};
ghost use Rattle.vl_run.specs.Scopes.{scope_of, Calls};

use std::alloc::{AllocError, Global};
use vl_base::files::FileSet;
use vl_design::design::Func;
use vl_eval::form::signal_form;
use vl_eval::room::Room;

/// Names, files, and how functions are called.
#[derive(Drop)]
pub struct Scope<'a, F> {
    /// What allocates.
    pub alloc: Global,
    /// What numbers stand for.
    pub room: Room<'a>,
    /// The files that a source may open.
    pub files: &'a FileSet,
    /// How deep calls may nest.
    pub depth: usize,
    /// A call of a function, by its number, with the values of its arguments.
    pub call: F,
}

impl<F: Fn(u32, Vec<u128>) -> Result<u128, AllocError>> Scope<'_, F> {
    /// What a function gives for the values of its arguments.
    pub fn give(&self, function: u32, values: Vec<u128>) -> Result<u128, AllocError>
        requires calls { Calls (scope_of self.now) (F.pre self.now.call) (F.post self.now.call) }
        requires fit { Fit values.items (w.input_widths (names_of self.now.room) function) }
        ensures { IfOk result (λ v. v ≡ (scope_of self.now).call function values.items) }
    {
        (self.call)(function, values)
    }
}

/// What numbers stand for in the body of a function.
pub fn inner<'a>(room: &Room<'a>, func: &'a Func) -> Room<'a>
    ensures { names_of result ≡ w.names_in (names_of room.now) (fun_of func.now) }
{
    Room {
        signals: room.signals,
        locals: func.locals.as_slice(),
        funcs: room.funcs,
    }
}

/// The width of an input of a function; none where it has no such input.
#[tactic(auto, using(crate::proofs::Inputs::inputs))]
fn width_of_input(room: &Room<'_>, func: &Func, number: usize) -> Option<u32>
    requires sound { IsSoundFun (names_of room.now) (fun_of func.now) }
    ensures value { result ≡ slice_get (w.input_widths_of (names_of room.now) (Some (fun_of func.now))) number }
    ensures width { IfSome result IsWidth }
{
    let inputs = func.inputs.as_slice();
    if number < inputs.len() {
        Some(signal_form(&inner(room, func), inputs[number]).width)
    } else {
        None
    }
}

/// The width of an input of a function by its number; none where it has no such input.
#[tactic(auto, using(crate::proofs::Inputs::functions))]
pub fn input_width(room: &Room<'_>, function: u32, number: usize) -> Option<u32>
    requires funs { All (IsSoundFun (names_of room.now)) (names_of room.now).funs }
    requires there { function < length room.now.funcs.now }
    ensures value { result ≡ slice_get (w.input_widths (names_of room.now) function) number }
    ensures width { IfSome result IsWidth }
{
    width_of_input(room, &room.funcs[function as usize], number)
}
