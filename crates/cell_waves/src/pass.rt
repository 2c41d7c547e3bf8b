//! One pass over combinational processes (IEEE 1364-2005, clauses 6.1 and 9.7.5).

ghost use Rattle.std.specs.Prelude.{◌≡◌, ◌<◌, [], ◌∷◌, length, All, OnOk};
ghost use Rattle.ten_form.specs.vl_design.specs.Queue as q;
ghost use Rattle.ten_form.specs.vl_design.specs.Sound.{IsSound};
ghost use Rattle.ten_form.specs.vl_design.specs.Trees.{flat_of};
ghost use Rattle.ten_form.specs.vl_design.specs.Width.{names_of};
ghost use Rattle.ten_form.specs.vl_runs.specs.Nets.{AllBelow};
ghost use Rattle.ten_form.specs.vl_runs.specs.Checked.{IsChecked};
ghost use Rattle.cell_emit.specs.cell_form.specs.Views.{list_of};
ghost use Rattle.cell_emit.specs.Slots.{Grows};
ghost use Rattle.cell_emit.specs.Envs.{env_of, Fits};
ghost use Rattle.cell_expr.specs.Bodies.{IsCellFun};
ghost use Rattle.cell_waves.specs.Passes.{Passes, process_count, pass_count};

use cell_emit::at::At;
use cell_emit::cell::CellList;
use cell_expr::compile::statement;
use std::alloc::{AllocError, Global};
use ten_form::design::{Design, ProcKind};

/// Whether processes of a kind are combinational.
fn is_comb(kind: ProcKind) -> bool
    ensures { result ≡ q.is_comb kind }
{
    matches!(kind, ProcKind::Comb | ProcKind::Assign)
}

/// Compiles the process of a number, if it is combinational.
fn evaluate(
    alloc: Global,
    cells: &mut CellList,
    design: &Design,
    number: u32,
    at: &mut At,
) -> Result<(), AllocError>
    requires sound { IsSound (flat_of design.now) }
    requires functions { All (IsCellFun (names_of (flat_of design.now))) (flat_of design.now).funs }
    requires checked { IsChecked (flat_of design.now) }
    requires there { number < length (flat_of design.now).procs }
    requires fits { Fits (names_of (flat_of design.now)) (list_of cells.old) (env_of at.old) }
    requires first { at.old.first ≡ 0 }
    ensures grows { Grows (list_of cells.old) (list_of cells.new) }
    ensures passes { OnOk result (Passes (flat_of design.now) (process_count (flat_of design.now) number) (number ∷ []) (env_of at.old) (env_of at.new) (list_of cells.old) (list_of cells.new)) }
{
    let process = &design.processes.as_slice()[number as usize];
    if !is_comb(process.kind) {
        return Ok(());
    }
    let here = at.here;
    statement(alloc, cells, design, at, here, &process.body)
}

/// Compiles combinational processes in order, each once: behind them slots hold the values of one pass over these processes. Other
/// processes of the order add nothing. An `Err` is want of memory; slots that were there stay then too, and what signals have
/// slots is not to be used.
pub fn pass(
    alloc: Global,
    cells: &mut CellList,
    design: &Design,
    order: &[u32],
    at: &mut At,
) -> Result<(), AllocError>
    requires sound { IsSound (flat_of design.now) }
    requires functions { All (IsCellFun (names_of (flat_of design.now))) (flat_of design.now).funs }
    requires checked { IsChecked (flat_of design.now) }
    requires there { AllBelow (length (flat_of design.now).procs) order.now }
    requires fits { Fits (names_of (flat_of design.now)) (list_of cells.old) (env_of at.old) }
    requires first { at.old.first ≡ 0 }
    ensures grows { Grows (list_of cells.old) (list_of cells.new) }
    ensures passes { OnOk result (Passes (flat_of design.now) (pass_count (flat_of design.now) order.now) order.now (env_of at.old) (env_of at.new) (list_of cells.old) (list_of cells.new)) }
{
    for number in order {
        evaluate(alloc, cells, design, *number, at)?;
    }
    Ok(())
}
