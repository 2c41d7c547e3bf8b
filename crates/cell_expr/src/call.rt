//! What the body of a function begins with in cells (IEEE 1364-2005, clause 10.4.3).

ghost use Rattle.std.specs.Prelude.{◌≡◌, ◌≤◌, ◌<◌, ◌+◌, ◌-◌, IfOk, replicate, slice_set, length, Some, None};
ghost use Rattle.vl_design.specs.Trees.{fun_of};
ghost use Rattle.vl_design.specs.Width as w;
ghost use Rattle.vl_eval.specs.Rooms.{names_of};
ghost use Rattle.cell_emit.specs.cell_form.specs.Views.{list_of};
ghost use Rattle.cell_emit.specs.Slots.{Grows};
ghost use Rattle.cell_emit.specs.Envs.{env_of, Fits};
ghost use Rattle.cell_expr.specs.Passes.{Begins};

use cell_emit::at::At;
use cell_emit::cell::CellList;
use cell_emit::reads::nothing;
use std::alloc::{AllocError, Global};
use vl_design::design::Func;
use vl_eval::room::Room;

/// So many locals that have no slots.
#[tactic(auto, using(crate::proofs::Starting::starting))]
fn no_slots(alloc: Global, count: usize) -> Result<Vec<Option<u32>>, AllocError>
    ensures { IfOk result (λ v. v.items ≡ replicate count None) }
{
    let mut slots = Vec::new(alloc);
    for number in 0..count {
        slots.push(None)?;
    }
    Ok(slots)
}

/// What a body reads before its inputs are assigned: each local is 0, and so are the time and the answer.
pub fn begin(
    alloc: Global,
    cells: &mut CellList,
    room: &Room<'_>,
    at: &At,
    func: &Func,
) -> Result<At, AllocError>
    requires fits { Fits (names_of room.now) (list_of cells.old) (env_of at.now) }
    ensures grows { Grows (list_of cells.old) (list_of cells.new) }
    ensures begins { IfOk result (λ body. Begins (w.names_in (names_of room.now) (fun_of func.now)) 2 (env_of body) (list_of cells.old) (list_of cells.new)) }
    ensures first { IfOk result (λ body. body.first ≡ length room.now.signals.now) }
{
    let Ok(first) = u32::try_from(room.signals.len()) else {
        return Err(AllocError);
    };
    let time = nothing(alloc, cells, 64)?;
    let answer = nothing(alloc, cells, 32)?;
    let slots = no_slots(alloc, func.locals.as_slice().len())?;
    Ok(At {
        first,
        slots,
        time,
        answer,
        here: at.here,
        away: at.away,
    })
}

/// Gives a local the slot of its value.
pub fn pass(body: &mut At, input: u32, slot: u32)
    requires first { body.old.first ≤ input }
    requires there { input < body.old.first + length body.old.slots.items }
    ensures { env_of body.new ≡ record (env_of body.old) { slots = slice_set (env_of body.old).slots (input - body.old.first) (Some slot) } }
{
    body.slots[(input - body.first) as usize] = Some(slot);
}
