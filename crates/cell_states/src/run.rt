//! States of segments: what they begin with, their statements, the node that is next, and the writes.

ghost use Rattle.std.specs.Prelude.{◌≡◌, ◌≤◌, ℕ, ◌+◌, ◌<◌, ◌^◌, List, All, IfOk, length};
ghost use Rattle.vl_design.specs.vl_base.specs.declared.files.File.{File};
ghost use Rattle.vl_design.specs.Functions.{scope_of};
ghost use Rattle.vl_design.specs.Sound.{IsMemory, IsSound, IsSoundTask};
ghost use Rattle.vl_design.specs.Trees.{flat_of};
ghost use Rattle.vl_design.specs.Width.{names_of};
ghost use Rattle.cell_emit.specs.cell_form.specs.Views.{list_of};
ghost use Rattle.cell_emit.specs.Slots.{Grows};
ghost use Rattle.cell_emit.specs.Envs.{env_of, Fits};
ghost use Rattle.cell_emit.specs.Pendings.{slots_of};
ghost use Rattle.cell_expr.specs.Bodies.{IsCellFun};
ghost use Rattle.cell_expr.specs.Compiled.{Holds};
ghost use Rattle.ten_form.specs.sub_nodes.specs.Nodes as n;
ghost use Rattle.ten_form.specs.sub_split.specs.Views.{call_view, segment_view, way_on_view};
ghost use Rattle.cell_calls.specs.Counts.{asked_count};
ghost use Rattle.cell_expr.specs.Counts.{body_cells};
ghost use Rattle.cell_calls.specs.Next.{next_count, next_node};
ghost use Rattle.cell_states.specs.Cells.{segment_count};
ghost use Rattle.ten_form.specs.Holding.{mask_register};
ghost use Rattle.ten_form.specs.Banks.{stores_after};
ghost use Rattle.ten_form.specs.Traps.{IsTrapOf};
ghost use Rattle.ten_form.specs.States.{slots_in};
ghost use Rattle.cell_states.specs.Mades.{is_end, IsBase, IsMade, Starts, AsksBehind, IsKept};
ghost use Rattle.cell_states.specs.Designs.{IsCellDesign};
ghost use Rattle.cell_states.specs.Marks.{AreDelayed};
ghost use Rattle.cell_states.specs.Pieces.{IsCellPiece, IsCellWay};

use crate::base::{Base, copied};
use crate::ends::writes;
use crate::stretch::segment_in;
use cell_calls::call::call_of;
use cell_calls::next::{branch, number, switch};
use cell_emit::at::At;
use cell_emit::cell::{CellList, Write};
use cell_emit::pending::Site;
use cell_emit::table::Trap;
use cell_waves::begun::Begun;
use cell_waves::read::read;
use std::alloc::{AllocError, Global};
use ten_form::store::Store;
use ten_form::table::{Segment, WayOn};
use vl_design::Text;
use vl_design::design::{Design, SysCall};

/// What stands at the end of a segment.
#[derive(Drop)]
struct Ended {
    /// The sites that were read of the stores of the nodes behind it in the table.
    earlier: Vec<Site>,
    /// The slots.
    after: Begun,
    /// The slot of the new number of ticks, where the clock rises.
    ticks: Option<u32>,
}

/// The stores of a segment's state: it reads those of the nodes behind it, and keeps what is pending in these and its own.
#[derive(Clone, Copy)]
pub struct Kept<'a> {
    /// Those of the nodes behind it in the table.
    pub above: &'a [Store],
    /// These, and then its own.
    pub all: &'a [Store],
}

/// The slot of the number of the node that is next.
fn next_in(
    alloc: Global,
    cells: &mut CellList,
    design: &Design,
    at: &At,
    on: &WayOn<'_>,
) -> Result<u32, AllocError>
    requires sound { IsSound (flat_of design.now) }
    requires functions { All (IsCellFun (names_of (flat_of design.now))) (flat_of design.now).funs }
    requires way { IsCellWay (names_of (flat_of design.now)) on.now }
    requires fits { Fits (names_of (flat_of design.now)) (list_of cells.old) (env_of at.now) }
    requires first { at.now.first ≡ 0 }
    ensures grows { Grows (list_of cells.old) (list_of cells.new) }
    ensures holds { IfOk result (λ r. (files : List File) → Holds (names_of (flat_of design.now)) (next_count (body_cells (flat_of design.now)) (way_on_view on.now)) (env_of at.now) (list_of cells.old) (list_of cells.new) r 32
        (λ x. next_node (scope_of (flat_of design.now) files) x (way_on_view on.now))) }
{
    match on {
        WayOn::Go(to) => number(alloc, cells, *to),
        WayOn::Branch(test, first, second) => {
            branch(alloc, cells, design, at, test, *first, *second)
        }
        WayOn::Switch(subject, ways, otherwise) => {
            switch(alloc, cells, design, at, subject, ways, *otherwise)
        }
        WayOn::Commit(to) => number(alloc, cells, *to),
    }
}

/// A wave ends there.
fn commits(on: &WayOn<'_>) -> bool
    ensures { result ≡ is_end (way_on_view on.now) }
{
    matches!(on, WayOn::Commit(_))
}

/// Adds the cells of a state up to the end of its segment to those that it begins with: first it reads what is pending in the stores of
/// the nodes behind it.
fn up_to_segment(
    alloc: Global,
    cells: &mut CellList,
    base: &Base<'_>,
    design: &Design,
    above: &[Store],
    segment: &Segment<'_>,
) -> Result<Ended, AllocError>
    requires sound { IsSound (flat_of design.now) }
    requires functions { All (IsCellFun (names_of (flat_of design.now))) (flat_of design.now).funs }
    requires base { IsBase (flat_of design.now) base.now.order.now (list_of cells.old) (env_of base.now.begun.at) (slots_of base.now.begun.pending) }
    requires memories { All (λ x. IsMemory (names_of (flat_of design.now)) x.memory) above.now }
    requires few { All (λ x. mask_register x < 2 ^ 32) above.now }
    requires pieces { All (IsCellPiece (names_of (flat_of design.now))) segment.now.statements.items }
    ensures grows { Grows (list_of cells.old) (list_of cells.new) }
    ensures starts { IfOk result (λ x. (n : ℕ) → above.now ≡ stores_after (flat_of design.now) (n + 1) →
        Starts (flat_of design.now) base.now.order.now (n + 1) (segment_view segment.now) (list_of cells.new) (env_of base.now.begun.at) (env_of x.after.at) (slots_of base.now.begun.pending) (slots_of x.after.pending) x.earlier.items x.ticks) }
{
    let mut after = copied(alloc, &base.begun)?;
    read(
        alloc,
        cells,
        above,
        design.signals.as_slice(),
        &mut after.pending.sites,
    )?;
    let earlier = Vec::from_slice(alloc, after.pending.sites.as_slice())?;
    let ticks = segment_in(alloc, cells, design, &mut after, segment)?;
    Ok(Ended {
        earlier,
        after,
        ticks,
    })
}

/// Adds the cells of a segment's state to those that it begins with, and gives its writes: what is pending in the stores of the nodes
/// behind it, and by its own statements, it keeps in those and in its own. An `Err` is want of memory.
pub fn made(
    alloc: Global,
    cells: &mut CellList,
    base: &Base<'_>,
    design: &Design,
    kept: Kept<'_>,
    delayed: &[bool],
    segment: &Segment<'_>,
    on: &WayOn<'_>,
) -> Result<Vec<Write>, AllocError>
    requires design { IsCellDesign (flat_of design.now) base.now.order.now }
    requires stores { (number : ℕ) × IsKept (flat_of design.now) number kept (n.Run (segment_view segment.now) (way_on_view on.now)) }
    requires memories { All (λ x. IsMemory (names_of (flat_of design.now)) x.memory) kept.above.now }
    requires few { All (λ x. mask_register x < 2 ^ 32) kept.all.now }
    requires delayed { AreDelayed (flat_of design.now) delayed.now }
    requires pieces { All (IsCellPiece (names_of (flat_of design.now))) segment.now.statements.items }
    requires way { IsCellWay (names_of (flat_of design.now)) on.now }
    requires base { IsBase (flat_of design.now) base.now.order.now (list_of cells.old) (env_of base.now.begun.at) (slots_of base.now.begun.pending) }
    ensures grows { Grows (list_of cells.old) (list_of cells.new) }
    ensures made { IfOk result (λ sets. (number : ℕ) → IsKept (flat_of design.now) number kept.entry (n.Run (segment_view segment.now) (way_on_view on.now)) →
        IsMade (flat_of design.now) base.now.order.now number (n.Run (segment_view segment.now) (way_on_view on.now)) (list_of cells.new) sets.items) }
    ensures few { IfOk result (λ sets. (number : ℕ) → IsKept (flat_of design.now) number kept.entry (n.Run (segment_view segment.now) (way_on_view on.now)) →
        length (list_of cells.new).cells ≤ segment_count (flat_of design.now) base.now.order.now (length kept.entry.above.now) (segment_view segment.now) + next_count (body_cells (flat_of design.now)) (way_on_view on.now)) }
{
    let Ended {
        earlier,
        after,
        ticks,
    } = up_to_segment(alloc, cells, base, design, kept.above, segment)?;
    let next = next_in(alloc, cells, design, &after.at, on)?;
    writes(
        alloc,
        design,
        kept.all,
        earlier.as_slice(),
        delayed,
        &base.begun,
        &after,
        commits(on),
        ticks,
        next,
    )
}

/// The same of a segment that comes to a call, whose trap is the state `trap`: the writes, and the call with the slots of what it is given.
pub fn made_call(
    alloc: Global,
    cells: &mut CellList,
    base: &Base<'_>,
    design: &Design,
    kept: Kept<'_>,
    delayed: &[bool],
    segment: &Segment<'_>,
    trap: u32,
    path: &Text,
    call: &SysCall,
) -> Result<(Vec<Write>, Trap), AllocError>
    requires design { IsCellDesign (flat_of design.now) base.now.order.now }
    requires stores { (number : ℕ) × IsKept (flat_of design.now) number kept (n.Run (segment_view segment.now) (n.Go trap)) }
    requires memories { All (λ x. IsMemory (names_of (flat_of design.now)) x.memory) kept.above.now }
    requires few { All (λ x. mask_register x < 2 ^ 32) kept.all.now }
    requires delayed { AreDelayed (flat_of design.now) delayed.now }
    requires pieces { All (IsCellPiece (names_of (flat_of design.now))) segment.now.statements.items }
    requires task { IsSoundTask (names_of (flat_of design.now)) (call_view path.now call.now) }
    requires base { IsBase (flat_of design.now) base.now.order.now (list_of cells.old) (env_of base.now.begun.at) (slots_of base.now.begun.pending) }
    ensures grows { Grows (list_of cells.old) (list_of cells.new) }
    ensures made { IfOk result (λ m. (number : ℕ) → IsKept (flat_of design.now) number kept.entry (n.Run (segment_view segment.now) (n.Go trap)) →
        IsMade (flat_of design.now) base.now.order.now number (n.Run (segment_view segment.now) (n.Go trap)) (list_of cells.new) m.0.items) }
    ensures few { IfOk result (λ m. (number : ℕ) → IsKept (flat_of design.now) number kept.entry (n.Run (segment_view segment.now) (n.Go trap)) →
        length (list_of cells.new).cells ≤ segment_count (flat_of design.now) base.now.order.now (length kept.entry.above.now) (segment_view segment.now) + (1 + asked_count (body_cells (flat_of design.now)) (call_view path.now call.now))) }
    ensures call { IfOk result (λ m. IsTrapOf (flat_of design.now) (call_view path.now call.now) (slots_in (list_of cells.new)) m.1) }
    ensures asks { IfOk result (λ m. (number : ℕ) → IsKept (flat_of design.now) number kept.entry (n.Run (segment_view segment.now) (n.Go trap)) →
        AsksBehind (flat_of design.now) base.now.order.now number (segment_view segment.now) (n.Run (segment_view segment.now) (n.Go trap)) (list_of cells.new) (call_view path.now call.now) m.1.args) }
{
    let Ended {
        earlier,
        after,
        ticks,
    } = up_to_segment(alloc, cells, base, design, kept.above, segment)?;
    let next = number(alloc, cells, trap)?;
    let asked = call_of(alloc, cells, design, path, &after.at, call)?;
    let sets = writes(
        alloc,
        design,
        kept.all,
        earlier.as_slice(),
        delayed,
        &base.begun,
        &after,
        false,
        ticks,
        next,
    )?;
    Ok((sets, asked))
}
