//! What processes of a design do (IEEE 1364-2005, clauses 9.9 and 10.4).

ghost use Rattle.std.specs.Prelude.{◌≡◌, IfOk, OnOk};
ghost use Rattle.vl_design.specs.Functions as d;
ghost use Rattle.vl_design.specs.Functions.{fresh, zeros};
ghost use Rattle.vl_design.specs.Sound.{IsSound, IsSoundStm};
ghost use Rattle.vl_design.specs.Trees.{flat_of, stm_of};
ghost use Rattle.vl_design.specs.Width as w;
ghost use Rattle.vl_eval.specs.Rooms.{Fit};
ghost use Rattle.vl_run.specs.Machines.{state_of, IsMachine, Does};

use crate::begin::{fresh_machine, zero_values};
use crate::call::call;
use crate::machine::Machine;
use crate::outer::{outermost, room_of};
use std::alloc::{AllocError, Global};
use vl_base::files::FileSet;
use vl_design::design::{Design, Stmt};

/// The machine before time zero, whose values are all 0 and in which nothing has happened.
pub fn begin_run(alloc: Global, design: &Design) -> Result<Machine, AllocError>
    ensures state { IfOk result (λ m. state_of m 0 ≡ fresh (zeros (flat_of design.now).rows)) }
    ensures machine { IfOk result (IsMachine (w.names_of (flat_of design.now))) }
{
    let values = zero_values(alloc, &room_of(design))?;
    Ok(fresh_machine(alloc, values))
}

/// What a function of a sound design gives for the values of its arguments. An `Err` is want of memory.
pub fn give(
    alloc: Global,
    design: &Design,
    files: &FileSet,
    function: u32,
    args: Vec<u128>,
) -> Result<u128, AllocError>
    requires sound { IsSound (flat_of design.now) }
    requires fit { Fit args.items (w.input_widths (w.names_of (flat_of design.now)) function) }
    ensures { IfOk result (λ v. v ≡ (d.scope_of (flat_of design.now) files.now).call function args.items) }
{
    let room = room_of(design);
    call(alloc, &room, files, room.funcs.len(), function, args)
}

/// Does one statement of a process of a sound design, of an instance of a path. After an `Err`, which is want of memory, the
/// machine may have done a part of it.
pub fn exec_process(
    alloc: Global,
    design: &Design,
    files: &FileSet,
    path: &[u8],
    s: &Stmt,
    m: &mut Machine,
) -> Result<(), AllocError>
    requires design { IsSound (flat_of design.now) }
    requires sound { IsSoundStm (w.names_of (flat_of design.now)) (stm_of path.now s.now) }
    requires machine { IsMachine (w.names_of (flat_of design.now)) m.old }
    ensures does { OnOk result (Does (d.scope_of (flat_of design.now) files.now) (stm_of path.now s.now) m.old m.new) }
    ensures machine { OnOk result (IsMachine (w.names_of (flat_of design.now)) m.new) }
{
    let calls = |function: u32, args: Vec<u128>| -> Result<u128, AllocError>
        requires design { IsSound (flat_of design.now) }
        requires fit { Fit args.items (w.input_widths (w.names_of (flat_of design.now)) function) }
        ensures { IfOk result (λ v. v ≡ (d.scope_of (flat_of design.entry.now) files.entry.now).call function args.items) }
    { give(alloc, design, files, function, args) };
    let scope = outermost(alloc, design, files, calls);
    scope.exec(path, s, m)
}
