//! What expressions and statements are compiled in.

ghost use Rattle.std.specs.Prelude.{◌≡◌, ◌≤◌, ◌<◌, ◌+◌, IfSome, length, slice_get, Some, All};
ghost use Rattle.vl_design.specs.Sound.{IsSignal, IsSoundFun, IsWidth};
ghost use Rattle.vl_design.specs.Trees.{fun_of};
ghost use Rattle.vl_design.specs.Width as w;
ghost use Rattle.vl_eval.specs.Rooms as rooms;
ghost use Rattle.cell_emit.specs.Envs.{env_of, entry};

use cell_emit::at::At;
use vl_design::design::Func;
use vl_eval::room::Room;

/// What numbers stand for, and how deep calls may nest.
#[derive(Drop)]
pub struct Context<'a, F> {
    /// The design's signals, the locals of a function, and the design's functions.
    pub room: Room<'a>,
    /// Calls nest at most so deep.
    pub depth: usize,
    /// Compiles the body of a function, by its number, where its inputs are assigned.
    pub compile_body: F,
}

/// What numbers stand for in the body of a function.
pub fn inner<'a>(room: &Room<'a>, func: &'a Func) -> Room<'a>
    ensures names { rooms.names_of result ≡ w.names_in (rooms.names_of room.now) (fun_of func.now) }
    ensures signals { result.signals.now ≡ room.now.signals.now }
    ensures funcs { result.funcs.now ≡ room.now.funcs.now }
    ensures locals { result.locals.now ≡ func.now.locals }
{
    Room {
        signals: room.signals,
        locals: func.locals.as_slice(),
        funcs: room.funcs,
    }
}

/// The entry of a signal.
pub fn entry_of(at: &At, signal: u32) -> Option<u32>
    ensures { result ≡ entry (env_of at.now) signal }
{
    if signal < at.first {
        return None;
    }
    match at.slots.get((signal - at.first) as usize) {
        None => None,
        Some(entry) => *entry,
    }
}
