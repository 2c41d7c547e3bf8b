//! Bodies of functions as cells, where calls nest (IEEE 1364-2005, clause 10.4).

ghost use Rattle.std.specs.Prelude.{◌≡◌, ◌≤◌, ◌<◌, ◌-◌, ◌++◌, ℕ, List, [], false, nat_lt, length, IfOk, OnOk, Some, slice_get};
ghost use Rattle.vl_base.specs.declared.files.File.{File};
ghost use Rattle.vl_design.specs.Exec as x;
ghost use Rattle.vl_design.specs.Reads.{stm_writes, target_writes};
ghost use Rattle.vl_design.specs.Sound.{AreSound, IsSoundExp, IsSoundStm, IsSoundTarget, IsWidth};
ghost use Rattle.vl_design.specs.Syntax.{Fun};
ghost use Rattle.vl_design.specs.Trees.{exp_of, exps_of, fun_of, stm_of, target_of};
ghost use Rattle.vl_design.specs.Width as w;
ghost use Rattle.vl_eval.specs.Rooms.{names_of, scope_at};
ghost use Rattle.vl_run.specs.Cases.{AreWithin};
ghost use Rattle.vl_run.specs.Scopes.{calls_in};
ghost use Rattle.cell_emit.specs.cell_form.specs.Views.{list_of};
ghost use Rattle.cell_emit.specs.Slots.{Grows};
ghost use Rattle.cell_emit.specs.Envs.{env_of, Fits, IsSlot};
ghost use Rattle.cell_emit.specs.Paths.{Does};
ghost use Rattle.cell_emit.specs.Cases.{Compares};
ghost use Rattle.cell_emit.specs.Pendings.{slots_of, memories_of, ArePending};
ghost use Rattle.cell_emit.specs.Delays.{Leaves};
ghost use Rattle.cell_expr.specs.Bodies.{IsNet, IsSegment, IsAny, CanWait, nothing_waits, assignment};
ghost use Rattle.cell_expr.specs.Callers.{DoesBody};
ghost use Rattle.cell_expr.specs.Compiled.{Compiles};
ghost use Rattle.cell_expr.specs.Counts.{exp_count, labels_count, stm_count, body_count};
ghost use Rattle.cell_expr.specs.Passes.{AreCompiled};
ghost use Rattle.cell_emit.specs.vl_sites.specs.Stored.{stored_words};

use crate::context::{Context, inner};
use cell_emit::at::At;
use cell_emit::cell::CellList;
use cell_emit::pending::Pending;
use std::alloc::{AllocError, Global};
use vl_design::design::{Expr, Form, Stmt, Target};
use vl_eval::room::Room;

/// Compiles the body of a function, where calls within it nest at most so deep.
#[cycle(body)]
fn body_in(
    alloc: Global,
    cells: &mut CellList,
    room: &Room<'_>,
    depth: usize,
    at: &mut At,
    function: u32,
) -> Result<(), AllocError>
    requires functions { AreCompiled (names_of room.now) }
    requires there { function < length room.now.funcs.now }
    requires fits { (g : Fun) → slice_get (names_of room.now).funs function ≡ Some g → Fits (w.names_in (names_of room.now) g) (list_of cells.old) (env_of at.old) }
    requires first { at.old.first ≡ length (names_of room.now).signals }
    ensures grows { Grows (list_of cells.old) (list_of cells.new) }
    ensures does { OnOk result ((files : List File) (g : Fun) → slice_get (names_of room.now).funs function ≡ Some g → Does (w.names_in (names_of room.now) g) (stm_count (body_count (names_of room.now).funs depth) g.body)
        (x.exec (scope_at (w.names_in (names_of room.now) g) files (calls_in (w.names_in (names_of room.now) g) files depth)) g.body) at.old.here (env_of at.old) (env_of at.new) (list_of cells.old) (list_of cells.new)) }
{
    let func = &room.funcs[function as usize];
    let here = at.here;
    statement_at(
        alloc,
        cells,
        &inner(room, func),
        depth,
        at,
        here,
        &func.body,
    )
}

/// Nothing is pending, and nothing can be.
fn nothing_pending(alloc: Global) -> Pending
    ensures { slots_of result ≡ nothing_waits }
{
    Pending {
        update: Vec::new(alloc),
        mask: Vec::new(alloc),
        sites: Vec::new(alloc),
    }
}

/// Compiles a statement of a combinational process or of a function, where calls nest at most so deep.
#[cycle(body)]
#[tactic(auto, using(crate::proofs::Walking::walking))]
pub fn statement_at(
    alloc: Global,
    cells: &mut CellList,
    room: &Room<'_>,
    depth: usize,
    at: &mut At,
    off: u32,
    a: &Stmt,
) -> Result<(), AllocError>
    requires functions { AreCompiled (names_of room.now) }
    requires sound { IsSoundStm (names_of room.now) (stm_of [] a.now) }
    requires net { IsNet (stm_of [] a.now) }
    requires apart { stm_writes (λ k. nat_lt k at.old.first) (stm_of [] a.now) ≡ false }
    requires fits { Fits (names_of room.now) (list_of cells.old) (env_of at.old) }
    requires off { IsSlot (list_of cells.old) off 1 }
    ensures grows { Grows (list_of cells.old) (list_of cells.new) }
    ensures does { OnOk result ((files : List File) → Does (names_of room.now) (stm_count (body_count (names_of room.now).funs depth) (stm_of [] a.now))
        (x.exec (scope_at (names_of room.now) files (calls_in (names_of room.now) files depth)) (stm_of [] a.now)) off (env_of at.old) (env_of at.new) (list_of cells.old) (list_of cells.new)) }
{
    let mut pending = nothing_pending(alloc);
    segment_at(alloc, cells, room, depth, at, &mut pending, off, a)
}

/// Compiles a statement with nonblocking assignments, where calls nest at most so deep.
#[cycle(body)]
pub fn segment_at(
    alloc: Global,
    cells: &mut CellList,
    room: &Room<'_>,
    depth: usize,
    at: &mut At,
    pending: &mut Pending,
    off: u32,
    a: &Stmt,
) -> Result<(), AllocError>
    requires functions { AreCompiled (names_of room.now) }
    requires sound { IsSoundStm (names_of room.now) (stm_of [] a.now) }
    requires segment { IsSegment (CanWait (names_of room.now) (length pending.old.update.items)) (stm_of [] a.now) }
    requires apart { stm_writes (λ k. nat_lt k at.old.first) (stm_of [] a.now) ≡ false }
    requires fits { Fits (names_of room.now) (list_of cells.old) (env_of at.old) }
    requires pending { ArePending (names_of room.now) (list_of cells.old) (slots_of pending.old) }
    requires off { IsSlot (list_of cells.old) off 1 }
    ensures grows { Grows (list_of cells.old) (list_of cells.new) }
    ensures does { OnOk result ((files : List File) → Does (names_of room.now) (stm_count (body_count (names_of room.now).funs depth) (stm_of [] a.now))
        (x.exec (scope_at (names_of room.now) files (calls_in (names_of room.now) files depth)) (stm_of [] a.now)) off (env_of at.old) (env_of at.new) (list_of cells.old) (list_of cells.new)) }
    ensures leaves { OnOk result ((files : List File) → Leaves (names_of room.now) (x.exec (scope_at (names_of room.now) files (calls_in (names_of room.now) files depth)) (stm_of [] a.now)) off
        (env_of at.old) (slots_of pending.old) (slots_of pending.new) (list_of cells.old) (list_of cells.new)) }
    ensures sites { OnOk result (memories_of pending.new.sites.items ≡ memories_of pending.old.sites.items ++ stored_words (stm_of [] a.now)) }
{
    let compile_body = |cells: &mut CellList, at: &mut At, function: u32| -> Result<(), AllocError>
        requires deep { 1 ≤ depth }
        requires functions { AreCompiled (names_of room.now) }
        requires there { function < length room.now.funcs.now }
        requires fits { (g : Fun) → slice_get (names_of room.now).funs function ≡ Some g → Fits (w.names_in (names_of room.now) g) (list_of cells.old) (env_of at.old) }
        requires first { at.old.first ≡ length (names_of room.now).signals }
        ensures grows { Grows (list_of cells.old) (list_of cells.new) }
        ensures does { OnOk result ((files : List File) (g : Fun) → slice_get (names_of room.entry.now).funs function ≡ Some g → Does (w.names_in (names_of room.entry.now) g) (stm_count (body_count (names_of room.entry.now).funs (depth - 1)) g.body)
            (x.exec (scope_at (w.names_in (names_of room.entry.now) g) files (calls_in (w.names_in (names_of room.entry.now) g) files (depth - 1))) g.body) at.old.here (env_of at.old) (env_of at.new) (list_of cells.old) (list_of cells.new)) }
    { body_in(alloc, cells, room, depth - 1, at, function) };
    let context = Context {
        room: *room,
        depth,
        compile_body,
    };
    context.statement_in(alloc, cells, at, pending, off, a)
}

/// Compiles an expression in a context, where calls nest at most so deep.
pub fn expression_at(
    alloc: Global,
    cells: &mut CellList,
    room: &Room<'_>,
    depth: usize,
    at: &At,
    e: &Expr,
    c: Form,
) -> Result<u32, AllocError>
    requires functions { AreCompiled (names_of room.now) }
    requires expression { IsSoundExp (names_of room.now) (exp_of e.now) }
    requires wide { (w.form (names_of room.now) (exp_of e.now)).width ≤ c.width }
    requires narrow { c.width ≤ 128 }
    requires fits { Fits (names_of room.now) (list_of cells.old) (env_of at.now) }
    ensures grows { Grows (list_of cells.old) (list_of cells.new) }
    ensures gives { IfOk result (λ r. (files : List File) → Compiles (names_of room.now) (scope_at (names_of room.now) files (calls_in (names_of room.now) files depth))
        (exp_count (body_count (names_of room.now).funs depth) (exp_of e.now)) (exp_of e.now) c (env_of at.now) (list_of cells.old) (list_of cells.new) r) }
{
    let compile_body = |cells: &mut CellList, at: &mut At, function: u32| -> Result<(), AllocError>
        requires deep { 1 ≤ depth }
        requires functions { AreCompiled (names_of room.now) }
        requires there { function < length room.now.funcs.now }
        requires fits { (g : Fun) → slice_get (names_of room.now).funs function ≡ Some g → Fits (w.names_in (names_of room.now) g) (list_of cells.old) (env_of at.old) }
        requires first { at.old.first ≡ length (names_of room.now).signals }
        ensures grows { Grows (list_of cells.old) (list_of cells.new) }
        ensures does { OnOk result ((files : List File) (g : Fun) → slice_get (names_of room.entry.now).funs function ≡ Some g → Does (w.names_in (names_of room.entry.now) g) (stm_count (body_count (names_of room.entry.now).funs (depth - 1)) g.body)
            (x.exec (scope_at (w.names_in (names_of room.entry.now) g) files (calls_in (w.names_in (names_of room.entry.now) g) files (depth - 1))) g.body) at.old.here (env_of at.old) (env_of at.new) (list_of cells.old) (list_of cells.new)) }
    { body_in(alloc, cells, room, depth - 1, at, function) };
    let context = Context {
        room: *room,
        depth,
        compile_body,
    };
    context.compile_in(alloc, cells, at, e, c)
}

/// Compiles an assignment, where calls nest at most so deep.
pub fn assignment_at(
    alloc: Global,
    cells: &mut CellList,
    room: &Room<'_>,
    depth: usize,
    at: &mut At,
    pending: &mut Pending,
    off: u32,
    later: bool,
    target: &Target,
    source: &Expr,
) -> Result<(), AllocError>
    requires functions { AreCompiled (names_of room.now) }
    requires target { IsSoundTarget (names_of room.now) (target_of target.now) }
    requires source { IsSoundExp (names_of room.now) (exp_of source.now) }
    requires plain { IsSegment IsAny (assignment later (target_of target.now) (exp_of source.now)) }
    requires apart { target_writes (λ k. nat_lt k at.old.first) (target_of target.now) ≡ false }
    requires fits { Fits (names_of room.now) (list_of cells.old) (env_of at.old) }
    requires pending { ArePending (names_of room.now) (list_of cells.old) (slots_of pending.old) }
    requires many { length pending.old.update.items ≡ length (names_of room.now).rows }
    requires off { IsSlot (list_of cells.old) off 1 }
    ensures grows { Grows (list_of cells.old) (list_of cells.new) }
    ensures does { OnOk result ((files : List File) → Does (names_of room.now) (stm_count (body_count (names_of room.now).funs depth) (assignment later (target_of target.now) (exp_of source.now)))
        (x.exec (scope_at (names_of room.now) files (calls_in (names_of room.now) files depth)) (assignment later (target_of target.now) (exp_of source.now))) off (env_of at.old) (env_of at.new) (list_of cells.old) (list_of cells.new)) }
    ensures leaves { OnOk result ((files : List File) → Leaves (names_of room.now) (x.exec (scope_at (names_of room.now) files (calls_in (names_of room.now) files depth)) (assignment later (target_of target.now) (exp_of source.now))) off
        (env_of at.old) (slots_of pending.old) (slots_of pending.new) (list_of cells.old) (list_of cells.new)) }
    ensures sites { OnOk result (memories_of pending.new.sites.items ≡ memories_of pending.old.sites.items ++ stored_words (assignment later (target_of target.now) (exp_of source.now))) }
{
    let compile_body = |cells: &mut CellList, at: &mut At, function: u32| -> Result<(), AllocError>
        requires deep { 1 ≤ depth }
        requires functions { AreCompiled (names_of room.now) }
        requires there { function < length room.now.funcs.now }
        requires fits { (g : Fun) → slice_get (names_of room.now).funs function ≡ Some g → Fits (w.names_in (names_of room.now) g) (list_of cells.old) (env_of at.old) }
        requires first { at.old.first ≡ length (names_of room.now).signals }
        ensures grows { Grows (list_of cells.old) (list_of cells.new) }
        ensures does { OnOk result ((files : List File) (g : Fun) → slice_get (names_of room.entry.now).funs function ≡ Some g → Does (w.names_in (names_of room.entry.now) g) (stm_count (body_count (names_of room.entry.now).funs (depth - 1)) g.body)
            (x.exec (scope_at (w.names_in (names_of room.entry.now) g) files (calls_in (w.names_in (names_of room.entry.now) g) files (depth - 1))) g.body) at.old.here (env_of at.old) (env_of at.new) (list_of cells.old) (list_of cells.new)) }
    { body_in(alloc, cells, room, depth - 1, at, function) };
    let context = Context {
        room: *room,
        depth,
        compile_body,
    };
    context.assignment_in(alloc, cells, at, pending, off, later, target, source)
}

/// Compiles the labels of an item of a case, where calls nest at most so deep.
pub fn labels_at(
    alloc: Global,
    cells: &mut CellList,
    room: &Room<'_>,
    depth: usize,
    at: &At,
    subject: u32,
    c: Form,
    rest: u32,
    labels: &[Expr],
) -> Result<u32, AllocError>
    requires functions { AreCompiled (names_of room.now) }
    requires subject { IsSlot (list_of cells.old) subject c.width }
    requires context { IsWidth c.width }
    requires rest { IsSlot (list_of cells.old) rest 1 }
    requires labels { AreSound (names_of room.now) (exps_of labels.now) }
    requires within { AreWithin (names_of room.now) c.width (exps_of labels.now) }
    requires fits { Fits (names_of room.now) (list_of cells.old) (env_of at.now) }
    ensures grows { Grows (list_of cells.old) (list_of cells.new) }
    ensures compares { IfOk result (λ r. (files : List File) → Compares (names_of room.now) (labels_count (body_count (names_of room.now).funs depth) (exps_of labels.now))
        (scope_at (names_of room.now) files (calls_in (names_of room.now) files depth)) c subject (exps_of labels.now) rest r (env_of at.now) (list_of cells.old) (list_of cells.new)) }
{
    let compile_body = |cells: &mut CellList, at: &mut At, function: u32| -> Result<(), AllocError>
        requires deep { 1 ≤ depth }
        requires functions { AreCompiled (names_of room.now) }
        requires there { function < length room.now.funcs.now }
        requires fits { (g : Fun) → slice_get (names_of room.now).funs function ≡ Some g → Fits (w.names_in (names_of room.now) g) (list_of cells.old) (env_of at.old) }
        requires first { at.old.first ≡ length (names_of room.now).signals }
        ensures grows { Grows (list_of cells.old) (list_of cells.new) }
        ensures does { OnOk result ((files : List File) (g : Fun) → slice_get (names_of room.entry.now).funs function ≡ Some g → Does (w.names_in (names_of room.entry.now) g) (stm_count (body_count (names_of room.entry.now).funs (depth - 1)) g.body)
            (x.exec (scope_at (w.names_in (names_of room.entry.now) g) files (calls_in (w.names_in (names_of room.entry.now) g) files (depth - 1))) g.body) at.old.here (env_of at.old) (env_of at.new) (list_of cells.old) (list_of cells.new)) }
    { body_in(alloc, cells, room, depth - 1, at, function) };
    let context = Context {
        room: *room,
        depth,
        compile_body,
    };
    context.labels_in(alloc, cells, at, subject, c, rest, labels)
}
