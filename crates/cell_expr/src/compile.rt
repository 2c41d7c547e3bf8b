//! Expressions and statements of a design's processes as cells (IEEE 1364-2005, clauses 5, 9 and 10.4).

ghost use Rattle.std.specs.Prelude.{◌≡◌, ◌≤◌, ◌++◌, ℕ, List, All, IfOk, OnOk, length};
ghost use Rattle.vl_base.specs.declared.files.File.{File};
ghost use Rattle.vl_design.specs.Exec as x;
ghost use Rattle.vl_design.specs.Exec.{exec};
ghost use Rattle.vl_design.specs.Functions.{scope_of};
ghost use Rattle.vl_design.specs.Sound.{AreSound, IsSound, IsSoundExp, IsSoundStm, IsSoundTarget, IsWidth};
ghost use Rattle.vl_design.specs.Trees.{exp_of, exps_of, flat_of, stm_of, target_of};
ghost use Rattle.vl_design.specs.Width.{form, names_of};
ghost use Rattle.cell_emit.specs.cell_form.specs.Views.{list_of};
ghost use Rattle.cell_emit.specs.Slots.{Grows};
ghost use Rattle.cell_emit.specs.Envs.{env_of, Fits, IsSlot};
ghost use Rattle.cell_emit.specs.Paths.{Does};
ghost use Rattle.cell_emit.specs.Cases.{Compares};
ghost use Rattle.vl_run.specs.Cases.{AreWithin};
ghost use Rattle.cell_emit.specs.Pendings.{slots_of, memories_of, ArePending};
ghost use Rattle.cell_emit.specs.Delays.{Leaves};
ghost use Rattle.cell_expr.specs.Bodies.{IsCellFun, IsCellStm, IsSegment, IsAny, IsSegmentStm, assignment};
ghost use Rattle.cell_expr.specs.Compiled.{Compiles};
ghost use Rattle.cell_expr.specs.Counts.{exp_count, labels_count, stm_count, body_cells};
ghost use Rattle.cell_emit.specs.vl_sites.specs.Stored.{stored_words};

use crate::body::{assignment_at, expression_at, labels_at, segment_at, statement_at};
use crate::case;
use cell_emit::at::At;
use cell_emit::cell::CellList;
use cell_emit::pending::Pending;
use std::alloc::{AllocError, Global};
use vl_design::design::{Design, Expr, Form, Stmt, Target};
use vl_eval::form::form_of;
use vl_run::outer::room_of;

/// Compiles an expression in a context of at most 128 bits, at least as wide as the expression: the new slot, as wide as the
/// context, holds its value. An `Err` is want of memory; slots that were there stay then too.
pub fn compile(
    alloc: Global,
    cells: &mut CellList,
    design: &Design,
    at: &At,
    e: &Expr,
    c: Form,
) -> Result<u32, AllocError>
    requires sound { IsSound (flat_of design.now) }
    requires functions { All (IsCellFun (names_of (flat_of design.now))) (flat_of design.now).funs }
    requires expression { IsSoundExp (names_of (flat_of design.now)) (exp_of e.now) }
    requires wide { (form (names_of (flat_of design.now)) (exp_of e.now)).width ≤ c.width }
    requires narrow { c.width ≤ 128 }
    requires fits { Fits (names_of (flat_of design.now)) (list_of cells.old) (env_of at.now) }
    requires first { at.now.first ≡ 0 }
    ensures grows { Grows (list_of cells.old) (list_of cells.new) }
    ensures gives { IfOk result (λ r. (files : List File) → Compiles (names_of (flat_of design.now)) (scope_of (flat_of design.now) files)
        (exp_count (body_cells (flat_of design.now)) (exp_of e.now)) (exp_of e.now) c (env_of at.now) (list_of cells.old) (list_of cells.new) r) }
{
    let room = room_of(design);
    let depth = room.funcs.len();
    expression_at(alloc, cells, &room, depth, at, e, c)
}

/// Compiles a statement of a combinational process of an instance of any path, on a path of one bit: behind it the slots of
/// signals hold what the statement makes of them where the path is taken. An `Err` is want of memory; slots that were there stay
/// then too, and what signals have slots is not to be used.
pub fn statement(
    alloc: Global,
    cells: &mut CellList,
    design: &Design,
    at: &mut At,
    off: u32,
    a: &Stmt,
) -> Result<(), AllocError>
    requires sound { IsSound (flat_of design.now) }
    requires functions { All (IsCellFun (names_of (flat_of design.now))) (flat_of design.now).funs }
    requires statement { IsCellStm (names_of (flat_of design.now)) a.now }
    requires fits { Fits (names_of (flat_of design.now)) (list_of cells.old) (env_of at.old) }
    requires first { at.old.first ≡ 0 }
    requires off { IsSlot (list_of cells.old) off 1 }
    ensures grows { Grows (list_of cells.old) (list_of cells.new) }
    ensures does { OnOk result ((files : List File) (path : List ℕ) → Does (names_of (flat_of design.now)) (stm_count (body_cells (flat_of design.now)) (stm_of path a.now))
        (exec (scope_of (flat_of design.now) files) (stm_of path a.now)) off (env_of at.old) (env_of at.new) (list_of cells.old) (list_of cells.new)) }
{
    let room = room_of(design);
    let depth = room.funcs.len();
    statement_at(alloc, cells, &room, depth, at, off, a)
}

/// Compiles a statement of a block without calls and loops, of an instance of any path, on a path of one bit: as `statement`, and
/// its nonblocking assignments are pending behind those that were (IEEE 1364-2005, clause 9.2.2), with a site for each word of a memory
/// that they name.
pub fn segment(
    alloc: Global,
    cells: &mut CellList,
    design: &Design,
    at: &mut At,
    pending: &mut Pending,
    off: u32,
    a: &Stmt,
) -> Result<(), AllocError>
    requires sound { IsSound (flat_of design.now) }
    requires functions { All (IsCellFun (names_of (flat_of design.now))) (flat_of design.now).funs }
    requires statement { IsSegmentStm (names_of (flat_of design.now)) a.now }
    requires fits { Fits (names_of (flat_of design.now)) (list_of cells.old) (env_of at.old) }
    requires first { at.old.first ≡ 0 }
    requires off { IsSlot (list_of cells.old) off 1 }
    requires pending { ArePending (names_of (flat_of design.now)) (list_of cells.old) (slots_of pending.old) }
    requires many { length pending.old.update.items ≡ length (flat_of design.now).rows }
    ensures grows { Grows (list_of cells.old) (list_of cells.new) }
    ensures does { OnOk result ((files : List File) (path : List ℕ) → Does (names_of (flat_of design.now)) (stm_count (body_cells (flat_of design.now)) (stm_of path a.now))
        (exec (scope_of (flat_of design.now) files) (stm_of path a.now)) off (env_of at.old) (env_of at.new) (list_of cells.old) (list_of cells.new)) }
    ensures leaves { OnOk result ((files : List File) (path : List ℕ) → Leaves (names_of (flat_of design.now)) (exec (scope_of (flat_of design.now) files) (stm_of path a.now)) off
        (env_of at.old) (slots_of pending.old) (slots_of pending.new) (list_of cells.old) (list_of cells.new)) }
    ensures sites { OnOk result ((path : List ℕ) → memories_of pending.new.sites.items ≡ memories_of pending.old.sites.items ++ stored_words (stm_of path a.now)) }
{
    let room = room_of(design);
    let depth = room.funcs.len();
    segment_at(alloc, cells, &room, depth, at, pending, off, a)
}

/// Compiles an assignment of an expression on a path of one bit, a blocking one to signals or bits of them: as `segment`.
pub fn assign(
    alloc: Global,
    cells: &mut CellList,
    design: &Design,
    at: &mut At,
    pending: &mut Pending,
    off: u32,
    later: bool,
    target: &Target,
    source: &Expr,
) -> Result<(), AllocError>
    requires sound { IsSound (flat_of design.now) }
    requires functions { All (IsCellFun (names_of (flat_of design.now))) (flat_of design.now).funs }
    requires target { IsSoundTarget (names_of (flat_of design.now)) (target_of target.now) }
    requires source { IsSoundExp (names_of (flat_of design.now)) (exp_of source.now) }
    requires plain { IsSegment IsAny (assignment later (target_of target.now) (exp_of source.now)) }
    requires fits { Fits (names_of (flat_of design.now)) (list_of cells.old) (env_of at.old) }
    requires first { at.old.first ≡ 0 }
    requires off { IsSlot (list_of cells.old) off 1 }
    requires pending { ArePending (names_of (flat_of design.now)) (list_of cells.old) (slots_of pending.old) }
    requires many { length pending.old.update.items ≡ length (flat_of design.now).rows }
    ensures grows { Grows (list_of cells.old) (list_of cells.new) }
    ensures does { OnOk result ((files : List File) → Does (names_of (flat_of design.now)) (stm_count (body_cells (flat_of design.now)) (assignment later (target_of target.now) (exp_of source.now)))
        (exec (scope_of (flat_of design.now) files) (assignment later (target_of target.now) (exp_of source.now))) off (env_of at.old) (env_of at.new) (list_of cells.old) (list_of cells.new)) }
    ensures leaves { OnOk result ((files : List File) → Leaves (names_of (flat_of design.now)) (exec (scope_of (flat_of design.now) files) (assignment later (target_of target.now) (exp_of source.now))) off
        (env_of at.old) (slots_of pending.old) (slots_of pending.new) (list_of cells.old) (list_of cells.new)) }
    ensures sites { OnOk result (memories_of pending.new.sites.items ≡ memories_of pending.old.sites.items ++ stored_words (assignment later (target_of target.now) (exp_of source.now))) }
{
    let room = room_of(design);
    let depth = room.funcs.len();
    assignment_at(
        alloc, cells, &room, depth, at, pending, off, later, target, source,
    )
}

/// Compiles an expression in its own form, as for a test or an argument: the new slot, as wide as the expression, holds its value.
/// An `Err` is want of memory; slots that were there stay then too.
pub fn own(
    alloc: Global,
    cells: &mut CellList,
    design: &Design,
    at: &At,
    e: &Expr,
) -> Result<u32, AllocError>
    requires sound { IsSound (flat_of design.now) }
    requires functions { All (IsCellFun (names_of (flat_of design.now))) (flat_of design.now).funs }
    requires expression { IsSoundExp (names_of (flat_of design.now)) (exp_of e.now) }
    requires fits { Fits (names_of (flat_of design.now)) (list_of cells.old) (env_of at.now) }
    requires first { at.now.first ≡ 0 }
    ensures grows { Grows (list_of cells.old) (list_of cells.new) }
    ensures gives { IfOk result (λ r. (files : List File) → Compiles (names_of (flat_of design.now)) (scope_of (flat_of design.now) files)
        (exp_count (body_cells (flat_of design.now)) (exp_of e.now)) (exp_of e.now) (form (names_of (flat_of design.now)) (exp_of e.now)) (env_of at.now) (list_of cells.old) (list_of cells.new) r) }
{
    let c = form_of(&room_of(design), e);
    compile(alloc, cells, design, at, e, c)
}

/// Compiles the labels of an item of a case, whose subject stands in a slot in the form in which they are compared: the path on
/// which none of them matches (IEEE 1364-2005, clause 9.5). An `Err` is want of memory; slots that were there stay then too.
pub fn labels(
    alloc: Global,
    cells: &mut CellList,
    design: &Design,
    at: &At,
    subject: u32,
    c: Form,
    rest: u32,
    labels: &[Expr],
) -> Result<u32, AllocError>
    requires sound { IsSound (flat_of design.now) }
    requires functions { All (IsCellFun (names_of (flat_of design.now))) (flat_of design.now).funs }
    requires subject { IsSlot (list_of cells.old) subject c.width }
    requires context { IsWidth c.width }
    requires rest { IsSlot (list_of cells.old) rest 1 }
    requires labels { AreSound (names_of (flat_of design.now)) (exps_of labels.now) }
    requires within { AreWithin (names_of (flat_of design.now)) c.width (exps_of labels.now) }
    requires fits { Fits (names_of (flat_of design.now)) (list_of cells.old) (env_of at.now) }
    requires first { at.now.first ≡ 0 }
    ensures grows { Grows (list_of cells.old) (list_of cells.new) }
    ensures compares { IfOk result (λ r. (files : List File) → Compares (names_of (flat_of design.now)) (labels_count (body_cells (flat_of design.now)) (exps_of labels.now)) (scope_of (flat_of design.now) files) c
        subject (exps_of labels.now) rest r (env_of at.now) (list_of cells.old) (list_of cells.new)) }
{
    let room = room_of(design);
    let depth = room.funcs.len();
    labels_at(alloc, cells, &room, depth, at, subject, c, rest, labels)
}

/// The form of a form and of labels joined: one item after the other, it makes of the form of a case's subject the form in which
/// that is compared with labels (IEEE 1364-2005, clause 9.5).
pub fn labels_form(design: &Design, f: Form, labels: &[Expr]) -> Form
    requires labels { AreSound (names_of (flat_of design.now)) (exps_of labels.now) }
    requires form { IsWidth f.width }
    ensures value { result ≡ x.labels_form (names_of (flat_of design.now)) f (exps_of labels.now) }
    ensures width { IsWidth result.width }
{
    case::labels_form(&room_of(design), f, labels)
}
