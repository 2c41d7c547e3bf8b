//! The statements of segments as cells (IEEE 1364-2005, clauses 9.2 and 11.3).

ghost use Rattle.std.specs.Prelude.{◌≡◌, ◌∷◌, [], ℕ, List, All, length, map, IfOk, OnOk};
ghost use Rattle.vl_design.specs.Sound.{IsSound};
ghost use Rattle.vl_design.specs.Trees.{exp_of, flat_of, stm_of, target_of};
ghost use Rattle.vl_design.specs.Width.{names_of};
ghost use Rattle.cell_emit.specs.cell_form.specs.Views.{list_of};
ghost use Rattle.cell_emit.specs.Slots.{Grows};
ghost use Rattle.cell_emit.specs.Envs.{env_of, Fits, IsSlot};
ghost use Rattle.cell_emit.specs.Pendings.{slots_of, ArePending};
ghost use Rattle.cell_expr.specs.Bodies.{IsAny, IsCellFun, IsSegment, IsSegmentStm, assignment};
ghost use Rattle.ten_form.specs.sub_split.specs.Views.{piece_view, segment_view};
ghost use Rattle.cell_states.specs.Pieces.{IsCellPiece, IsCellAssignment};
ghost use Rattle.cell_states.specs.Segments.{DoesAll, RisesWhere, DoesSegment};

use cell_emit::at::At;
use cell_emit::cell::CellList;
use cell_emit::pending::Pending;
use cell_expr::compile::{assign, segment};
use cell_waves::begun::Begun;
use cell_waves::rise::rise;
use std::alloc::{AllocError, Global};
use ten_form::table::{Piece, Segment};
use vl_design::design::{Design, Expr, Stmt, Target};

/// Compiles a statement of the design.
fn whole(
    alloc: Global,
    cells: &mut CellList,
    design: &Design,
    begun: &mut Begun,
    a: &Stmt,
) -> Result<(), AllocError>
    requires sound { IsSound (flat_of design.now) }
    requires functions { All (IsCellFun (names_of (flat_of design.now))) (flat_of design.now).funs }
    requires statement { IsSegmentStm (names_of (flat_of design.now)) a.now }
    requires fits { Fits (names_of (flat_of design.now)) (list_of cells.old) (env_of begun.old.at) }
    requires first { begun.old.at.first ≡ 0 }
    requires pending { ArePending (names_of (flat_of design.now)) (list_of cells.old) (slots_of begun.old.pending) }
    requires many { length begun.old.pending.update.items ≡ length (flat_of design.now).rows }
    ensures grows { Grows (list_of cells.old) (list_of cells.new) }
    ensures does { OnOk result ((path : List ℕ) → DoesAll (flat_of design.now) (stm_of path a.now ∷ []) (env_of begun.old.at) (env_of begun.new.at) (slots_of begun.old.pending) (slots_of begun.new.pending) (list_of cells.old) (list_of cells.new)) }
{
    let here = begun.at.here;
    segment(
        alloc,
        cells,
        design,
        &mut begun.at,
        &mut begun.pending,
        here,
        a,
    )
}

/// Compiles an assignment behind the call that is its right side: of the answer.
fn answered(
    alloc: Global,
    cells: &mut CellList,
    design: &Design,
    begun: &mut Begun,
    later: bool,
    target: &Target,
    source: &Expr,
) -> Result<(), AllocError>
    requires sound { IsSound (flat_of design.now) }
    requires functions { All (IsCellFun (names_of (flat_of design.now))) (flat_of design.now).funs }
    requires assignment { IsCellAssignment (names_of (flat_of design.now)) target.now source.now }
    requires plain { IsSegment IsAny (assignment later (target_of target.now) (exp_of source.now)) }
    requires fits { Fits (names_of (flat_of design.now)) (list_of cells.old) (env_of begun.old.at) }
    requires first { begun.old.at.first ≡ 0 }
    requires pending { ArePending (names_of (flat_of design.now)) (list_of cells.old) (slots_of begun.old.pending) }
    requires many { length begun.old.pending.update.items ≡ length (flat_of design.now).rows }
    ensures grows { Grows (list_of cells.old) (list_of cells.new) }
    ensures does { OnOk result (DoesAll (flat_of design.now) (assignment later (target_of target.now) (exp_of source.now) ∷ []) (env_of begun.old.at) (env_of begun.new.at) (slots_of begun.old.pending) (slots_of begun.new.pending) (list_of cells.old) (list_of cells.new)) }
{
    let here = begun.at.here;
    assign(
        alloc,
        cells,
        design,
        &mut begun.at,
        &mut begun.pending,
        here,
        later,
        target,
        source,
    )
}

/// Compiles a statement, which is always executed.
fn piece(
    alloc: Global,
    cells: &mut CellList,
    design: &Design,
    begun: &mut Begun,
    piece: Piece<'_>,
) -> Result<(), AllocError>
    requires sound { IsSound (flat_of design.now) }
    requires functions { All (IsCellFun (names_of (flat_of design.now))) (flat_of design.now).funs }
    requires piece { IsCellPiece (names_of (flat_of design.now)) piece }
    requires fits { Fits (names_of (flat_of design.now)) (list_of cells.old) (env_of begun.old.at) }
    requires first { begun.old.at.first ≡ 0 }
    requires pending { ArePending (names_of (flat_of design.now)) (list_of cells.old) (slots_of begun.old.pending) }
    requires many { length begun.old.pending.update.items ≡ length (flat_of design.now).rows }
    ensures grows { Grows (list_of cells.old) (list_of cells.new) }
    ensures does { OnOk result (DoesAll (flat_of design.now) (piece_view piece.entry ∷ []) (env_of begun.old.at) (env_of begun.new.at) (slots_of begun.old.pending) (slots_of begun.new.pending) (list_of cells.old) (list_of cells.new)) }
{
    match piece {
        Piece::Whole(a) => whole(alloc, cells, design, begun, a),
        Piece::Loop(_, a) => whole(alloc, cells, design, begun, a),
        Piece::Set(target, source) => answered(alloc, cells, design, begun, false, target, source),
        Piece::Later(target, source) => answered(alloc, cells, design, begun, true, target, source),
    }
}

/// Compiles statements one after another.
fn stretch(
    alloc: Global,
    cells: &mut CellList,
    design: &Design,
    begun: &mut Begun,
    pieces: &[Piece<'_>],
) -> Result<(), AllocError>
    requires sound { IsSound (flat_of design.now) }
    requires functions { All (IsCellFun (names_of (flat_of design.now))) (flat_of design.now).funs }
    requires pieces { All (IsCellPiece (names_of (flat_of design.now))) pieces.now }
    requires fits { Fits (names_of (flat_of design.now)) (list_of cells.old) (env_of begun.old.at) }
    requires first { begun.old.at.first ≡ 0 }
    requires pending { ArePending (names_of (flat_of design.now)) (list_of cells.old) (slots_of begun.old.pending) }
    requires many { length begun.old.pending.update.items ≡ length (flat_of design.now).rows }
    ensures grows { Grows (list_of cells.old) (list_of cells.new) }
    ensures does { OnOk result (DoesAll (flat_of design.now) (map piece_view pieces.now) (env_of begun.old.at) (env_of begun.new.at) (slots_of begun.old.pending) (slots_of begun.new.pending) (list_of cells.old) (list_of cells.new)) }
{
    for a in pieces {
        piece(alloc, cells, design, begun, *a)?;
    }
    Ok(())
}

/// The slot of the new number of ticks, where the clock rises.
fn risen(
    alloc: Global,
    cells: &mut CellList,
    at: &mut At,
    rises: bool,
) -> Result<Option<u32>, AllocError>
    requires time { IsSlot (list_of cells.old) at.old.time 64 }
    ensures grows { Grows (list_of cells.old) (list_of cells.new) }
    ensures rises { IfOk result (λ ticks. RisesWhere rises (env_of at.old) (env_of at.new) (list_of cells.old) (list_of cells.new) ticks) }
{
    if rises {
        let ticks = rise(alloc, cells, at)?;
        Ok(Some(ticks))
    } else {
        Ok(None)
    }
}

/// Compiles a segment: the clock's rise, where it begins with one, and its statements. The slot of the new number of ticks, where the
/// clock rises.
pub fn segment_in(
    alloc: Global,
    cells: &mut CellList,
    design: &Design,
    begun: &mut Begun,
    segment: &Segment<'_>,
) -> Result<Option<u32>, AllocError>
    requires sound { IsSound (flat_of design.now) }
    requires functions { All (IsCellFun (names_of (flat_of design.now))) (flat_of design.now).funs }
    requires pieces { All (IsCellPiece (names_of (flat_of design.now))) segment.now.statements.items }
    requires fits { Fits (names_of (flat_of design.now)) (list_of cells.old) (env_of begun.old.at) }
    requires first { begun.old.at.first ≡ 0 }
    requires pending { ArePending (names_of (flat_of design.now)) (list_of cells.old) (slots_of begun.old.pending) }
    requires many { length begun.old.pending.update.items ≡ length (flat_of design.now).rows }
    ensures grows { Grows (list_of cells.old) (list_of cells.new) }
    ensures does { IfOk result (λ ticks. DoesSegment (flat_of design.now) (segment_view segment.now) (env_of begun.old.at) (env_of begun.new.at) (slots_of begun.old.pending) (slots_of begun.new.pending) (list_of cells.old) (list_of cells.new) ticks) }
{
    let ticks = risen(alloc, cells, &mut begun.at, segment.rises)?;
    stretch(alloc, cells, design, begun, &segment.statements)?;
    Ok(ticks)
}
