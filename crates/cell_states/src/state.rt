//! States of the cells that are needed.

ghost use Rattle.std.specs.Prelude.{◌≡◌, ◌≤◌, ◌∷◌, [], ℕ, Bool, List, IfOk, length};
ghost use Rattle.vl_design.specs.Syntax as y;
ghost use Rattle.cell_emit.specs.cell_form.specs.Views.{list_of, state_of};
ghost use Rattle.ten_form.specs.sub_nodes.specs.Nodes as n;
ghost use Rattle.ten_form.specs.Traps.{IsTrapOf};
ghost use Rattle.ten_form.specs.States.{slots_in, Does};
ghost use Rattle.cell_states.specs.Mades.{IsMade, AsksBehind};
ghost use Rattle.cell_states.specs.Trims.{IsTrimmed, Calls};
ghost use Rattle.cell_states.specs.Widths.{IsNarrow};

use crate::base::no_cells;
use cell_emit::cell::{CellList, Write};
use cell_emit::table::{State, Trap};
use cell_trim::trim::{Trimmed, trim};
use std::alloc::{AllocError, Global};
use vl_design::Nums;

/// The cells of a state that its writes and the wanted slots need, with slots from `first` on. A number of a slot that would be too long
/// is want of memory.
#[tactic(auto, using(crate::proofs::Lengths::lengths))]
fn trimmed(
    alloc: Global,
    cells: &CellList,
    sets: &[Write],
    wanted: &[u32],
    first: u32,
) -> Result<Trimmed, AllocError>
    ensures trimmed { IfOk result (λ t. IsTrimmed (list_of cells.now) sets.now wanted.now first (list_of t.cells) t.slots.items) }
    ensures few { IfOk result (λ t. length (list_of t.cells).cells ≤ length (list_of cells.now).cells) }
{
    let count = cells.cells.as_slice().len();
    if count >= (u32::MAX - first) as usize {
        return Err(AllocError);
    }
    trim(alloc, cells, sets, wanted, first)
}

/// The state of cells that come to no call, with slots from `first` on, and the states that it leads to.
pub fn plain_state(
    alloc: Global,
    cells: &CellList,
    sets: &[Write],
    nexts: Nums,
    first: u32,
) -> Result<State, AllocError>
    ensures first { IfOk result (λ s. s.cells.first ≡ first) }
    ensures few { IfOk result (λ s. length (list_of s.cells).cells ≤ length (list_of cells.now).cells) }
    ensures narrow { IfOk result (λ s. (d : y.Flat) (order : List ℕ) (k : ℕ) (x : n.Node) → IsMade d order k x (list_of cells.now) sets.now → IsNarrow d (state_of s)) }
    ensures does { IfOk result (λ s. (d : y.Flat) (order : List ℕ) (k : ℕ) (x : n.Node) → IsMade d order k x (list_of cells.now) sets.now → Does d order k x (state_of s)) }
{
    let trimmed = trimmed(alloc, cells, sets, &[], first)?;
    Ok(State {
        cells: trimmed.cells,
        trap: None,
        nexts,
    })
}

/// The number behind the last slot of a list.
pub fn slots_behind(cells: &CellList) -> Result<u32, AllocError>
    ensures { IfOk result (λ k. k ≡ slots_in (list_of cells.now)) }
{
    let Ok(count) = u32::try_from(cells.cells.as_slice().len()) else {
        return Err(AllocError);
    };
    match cells.first.checked_add(count) {
        Some(behind) => Ok(behind),
        None => Err(AllocError),
    }
}

/// The numbers of a state that is next.
pub fn one(alloc: Global, to: u32) -> Result<Nums, AllocError>
    ensures { IfOk result (λ nexts. nexts ≡ to ∷ []) }
{
    let mut nexts = Vec::new(alloc);
    nexts.push(to)?;
    Ok(Nums::from_vec(nexts))
}

/// The state of cells that come to a call, with slots from `first` on, and the state of the call's trap, whose number is `number`; behind
/// it the state `to` is next.
pub fn call_states(
    alloc: Global,
    cells: &CellList,
    sets: &[Write],
    call: Trap,
    number: u32,
    to: u32,
    first: u32,
) -> Result<(State, State), AllocError>
    ensures first { IfOk result (λ s. s.0.cells.first ≡ first) }
    ensures few { IfOk result (λ s. length (list_of s.0.cells).cells ≤ length (list_of cells.now).cells) }
    ensures narrow { IfOk result (λ s. (d : y.Flat) (order : List ℕ) (k : ℕ) (x : n.Node) → IsMade d order k x (list_of cells.now) sets.now → IsNarrow d (state_of s.0)) }
    ensures behind { IfOk result (λ s. slots_in (list_of s.1.cells) ≡ slots_in (list_of s.0.cells)) }
    ensures calls { IfOk result (λ s. (d : y.Flat) (order : List ℕ) (k : ℕ) (g : n.Segment) (task : y.Task) → IsMade d order k (n.Run g (n.Go number)) (list_of cells.now) sets.now →
        IsTrapOf d task (slots_in (list_of cells.now)) call → AsksBehind d order k g (n.Run g (n.Go number)) (list_of cells.now) task call.args →
        Calls d order k g number task to (state_of s.0) (state_of s.1)) }
{
    let trimmed = trimmed(alloc, cells, sets, call.args.as_slice(), first)?;
    let nexts = one(alloc, number)?;
    let behind = slots_behind(&trimmed.cells)?;
    let trap = Trap {
        call: call.call,
        args: Nums::from_vec(trimmed.slots),
        answer: call.answer,
        target: call.target,
    };
    let run = State {
        cells: trimmed.cells,
        trap: None,
        nexts,
    };
    let wait = State {
        cells: no_cells(alloc, behind),
        trap: Some(trap),
        nexts: one(alloc, to)?,
    };
    Ok((run, wait))
}
