//! The scope of a design's processes (IEEE 1364-2005, clauses 9.9 and 10.4).

ghost use Rattle.std.specs.Prelude.{◌≡◌, ℕ, IfOk, Result};
ghost use Rattle.std.specs.declared.alloc.AllocError.{AllocError as NoMemory};
ghost use Rattle.std.specs.declared.alloc.Global.{Global as Allocator};
ghost use Rattle.std.specs.declared.vec.Vec.{Vec as Arguments};
ghost use Rattle.vl_design.specs.Functions as d;
ghost use Rattle.vl_design.specs.Sound.{IsSound};
ghost use Rattle.vl_design.specs.Trees.{flat_of};
ghost use Rattle.vl_design.specs.Width as w;
ghost use Rattle.vl_eval.specs.Rooms.{names_of, Fit};
ghost use Rattle.vl_run.specs.Scopes.{scope_of, Calls};

use crate::scope::Scope;
use std::alloc::{AllocError, Global};
use vl_base::files::FileSet;
use vl_design::design::Design;
use vl_eval::room::Room;

/// What numbers stand for in the processes of a design.
pub fn room_of<'a>(design: &'a Design) -> Room<'a>
    ensures names { names_of result ≡ w.names_of (flat_of design.now) }
    ensures funcs { result.funcs.now ≡ design.now.funcs }
{
    Room {
        signals: design.signals.as_slice(),
        locals: &[],
        funcs: design.funcs.as_slice(),
    }
}

/// The scope of the processes of a sound design over these files, with what calls its functions.
pub(crate) fn outermost<'a, F: Fn(u32, Vec<u128>) -> Result<u128, AllocError>>(
    alloc: Global,
    design: &'a Design,
    files: &'a FileSet,
    call: F,
) -> Scope<'a, F>
    requires sound { IsSound (flat_of design.now) }
    requires callable { (f : ℕ) (args : Arguments ℕ Allocator) → Fit args.items (w.input_widths (w.names_of (flat_of design.now)) f) → F.pre call f args }
    requires gives { (f : ℕ) (args : Arguments ℕ Allocator) (r : Result ℕ NoMemory) → F.post call f args r
        → IfOk r (λ v. v ≡ (d.scope_of (flat_of design.now) files.now).call f args.items) }
    ensures scope { scope_of result ≡ d.scope_of (flat_of design.now) files.now }
    ensures calls { Calls (scope_of result) (F.pre result.call) (F.post result.call) }
{
    let room = room_of(design);
    Scope {
        alloc,
        room,
        files,
        depth: room.funcs.len(),
        call,
    }
}
