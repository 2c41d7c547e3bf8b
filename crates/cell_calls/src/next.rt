//! The number of the node that is next (IEEE 1364-2005, clauses 9.4 and 9.5).

ghost use Rattle.std.specs.Prelude.{◌≡◌, ◌≤◌, ◌+◌, ◌<◌, ◌^◌, ℕ, List, All, IfOk, map};
ghost use Rattle.vl_base.specs.declared.files.File.{File};
ghost use Rattle.vl_design.specs.Functions.{scope_of};
ghost use Rattle.vl_design.specs.Sound.{IsSound, IsSoundExp, AreSound, IsWidth};
ghost use Rattle.vl_design.specs.Trees.{exp_of, exps_of, flat_of};
ghost use Rattle.vl_design.specs.Width as w;
ghost use Rattle.vl_design.specs.Width.{names_of};
ghost use Rattle.cell_emit.specs.cell_form.specs.Views.{list_of};
ghost use Rattle.cell_emit.specs.Slots.{Grows, Gives, Nothing};
ghost use Rattle.cell_emit.specs.Envs.{env_of, Fits};
ghost use Rattle.cell_expr.specs.Bodies.{IsCellFun};
ghost use Rattle.cell_expr.specs.Compiled.{Holds};
ghost use Rattle.cell_expr.specs.Counts.{body_cells};
ghost use Rattle.ten_form.specs.sub_nodes.specs.Nodes as n;
ghost use Rattle.ten_form.specs.sub_nodes.specs.Cycles.{ways_form};
ghost use Rattle.cell_calls.specs.Next.{ways_view, next_node, next_count};

use cell_emit::at::At;
use cell_emit::cell::CellList;
use cell_emit::steps;
use cell_expr::compile::{compile, labels, labels_form, own};
use std::alloc::{AllocError, Global};
use ten_form::table::Way;
use vl_design::design::{Design, Expr, Form};
use vl_eval::form::form_of;
use vl_run::outer::room_of;

/// The number of a node, in 32 bits.
pub fn number(alloc: Global, cells: &mut CellList, node: u32) -> Result<u32, AllocError>
    ensures grows { Grows (list_of cells.old) (list_of cells.new) }
    ensures gives { IfOk result (λ r. Gives Nothing 1 (list_of cells.old) (list_of cells.new) r 32 (λ b. node)) }
{
    steps::constant(alloc, cells, u128::from(node), 32)
}

/// The first of two nodes where a test holds, else the second.
pub fn branch(
    alloc: Global,
    cells: &mut CellList,
    design: &Design,
    at: &At,
    test: &Expr,
    first: u32,
    second: u32,
) -> Result<u32, AllocError>
    requires sound { IsSound (flat_of design.now) }
    requires functions { All (IsCellFun (names_of (flat_of design.now))) (flat_of design.now).funs }
    requires test { IsSoundExp (names_of (flat_of design.now)) (exp_of test.now) }
    requires fits { Fits (names_of (flat_of design.now)) (list_of cells.old) (env_of at.now) }
    requires first { at.now.first ≡ 0 }
    ensures grows { Grows (list_of cells.old) (list_of cells.new) }
    ensures holds { IfOk result (λ r. (files : List File) → Holds (names_of (flat_of design.now)) (next_count (body_cells (flat_of design.now)) (n.Branch (exp_of test.now) first second))
        (env_of at.now) (list_of cells.old) (list_of cells.new) r 32 (λ x. next_node (scope_of (flat_of design.now) files) x (n.Branch (exp_of test.now) first second))) }
{
    let holds = own(alloc, cells, design, at, test)?;
    let yes = number(alloc, cells, first)?;
    let no = number(alloc, cells, second)?;
    steps::mux(alloc, cells, holds, yes, no)
}

/// The form in which the subject of a case is compared with the labels of ways.
fn ways_context(design: &Design, subject: &Expr, ways: &[Way<'_>]) -> Form
    requires subject { IsSoundExp (names_of (flat_of design.now)) (exp_of subject.now) }
    requires labels { All (λ way. AreSound (names_of (flat_of design.now)) (exps_of way.labels.now)) ways.now }
    ensures value { result ≡ ways_form (names_of (flat_of design.now)) (w.form (names_of (flat_of design.now)) (exp_of subject.now)) (ways_view ways.now) }
    ensures width { IsWidth result.width }
{
    let mut all = form_of(&room_of(design), subject);
    for way in ways {
        all = labels_form(design, all, way.labels);
    }
    all
}

/// The node of the first way with a label that matches the subject, else another one.
pub fn switch(
    alloc: Global,
    cells: &mut CellList,
    design: &Design,
    at: &At,
    subject: &Expr,
    ways: &[Way<'_>],
    otherwise: u32,
) -> Result<u32, AllocError>
    requires sound { IsSound (flat_of design.now) }
    requires functions { All (IsCellFun (names_of (flat_of design.now))) (flat_of design.now).funs }
    requires subject { IsSoundExp (names_of (flat_of design.now)) (exp_of subject.now) }
    requires labels { All (λ way. AreSound (names_of (flat_of design.now)) (exps_of way.labels.now)) ways.now }
    requires fits { Fits (names_of (flat_of design.now)) (list_of cells.old) (env_of at.now) }
    requires first { at.now.first ≡ 0 }
    ensures grows { Grows (list_of cells.old) (list_of cells.new) }
    ensures holds { IfOk result (λ r. (files : List File) → Holds (names_of (flat_of design.now)) (next_count (body_cells (flat_of design.now)) (n.Switch (exp_of subject.now) (ways_view ways.now) otherwise))
        (env_of at.now) (list_of cells.old) (list_of cells.new) r 32 (λ x. next_node (scope_of (flat_of design.now) files) x (n.Switch (exp_of subject.now) (ways_view ways.now) otherwise))) }
{
    let c = ways_context(design, subject, ways);
    let subject = compile(alloc, cells, design, at, subject, c)?;
    let mut next = number(alloc, cells, otherwise)?;
    for tried in 0..ways.len() {
        let way = &ways[ways.len() - 1 - tried];
        let behind = labels(alloc, cells, design, at, subject, c, at.here, way.labels)?;
        let to = number(alloc, cells, way.to)?;
        next = steps::mux(alloc, cells, behind, to, next)?;
    }
    Ok(next)
}
