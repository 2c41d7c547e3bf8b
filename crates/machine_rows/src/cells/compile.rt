//! The combinational `always` blocks of a design as cells.

ghost use Rattle.std.specs.Prelude.{◌≡◌, length, All, IfOk, OnOk};
ghost use Rattle.vl_design.specs.declared.design.ProcKind.TheVariants as k;
ghost use Rattle.vl_design.specs.Sound.{IsSound};
ghost use Rattle.vl_design.specs.Trees.{flat_of};
ghost use Rattle.vl_design.specs.Width.{names_of};
ghost use Rattle.vl_accept.specs.vl_runs.specs.Checked.{IsChecked};
ghost use Rattle.cell_emit.specs.cell_form.specs.Views.{list_of};
ghost use Rattle.cell_emit.specs.Envs.{env_of, Fits};
ghost use Rattle.cell_expr.specs.Bodies.{IsCellFun, IsCellStm};
ghost use Rattle.machine_rows.specs.Walked.{Walked, Adds};

use crate::cells::bench::Bench;
use cell_emit::at::At;
use cell_emit::cell::CellList;
use cell_emit::reads_reads::reads;
use cell_expr::compile::statement;
use std::alloc::{AllocError, Global};
use vl_design::Items;
use vl_design::design::{Design, ProcKind, Process};

/// Cells, and the slots of signals behind them.
#[derive(Drop)]
pub struct Compiled {
    /// The cells.
    pub cells: CellList,
    /// The slots.
    pub at: At,
}

/// The cells that read all signals.
fn begun(alloc: Global, design: &Design, bench: &Bench) -> Result<Compiled, AllocError>
    requires { length bench.now.places.items ≡ length design.now.signals }
    ensures { IfOk result (λ c. Walked (names_of (flat_of design.now)) bench.now.places.items bench.now.time bench.now.answer (list_of c.cells) (env_of c.at)) }
{
    let mut cells = CellList {
        first: 0,
        cells: Items::new(alloc),
        sets: Items::new(alloc),
    };
    let at = reads(
        alloc,
        &mut cells,
        design,
        bench.places.as_slice(),
        bench.time,
        bench.answer,
    )?;
    Ok(Compiled { cells, at })
}

/// The cells of a process, where it is a combinational `always` block.
fn add(
    alloc: Global,
    design: &Design,
    all: &mut Compiled,
    process: &Process,
) -> Result<(), AllocError>
    requires sound { IsSound (flat_of design.now) }
    requires functions { All (IsCellFun (names_of (flat_of design.now))) (flat_of design.now).funs }
    requires body { process.now.kind ≡ k.Comb → IsCellStm (names_of (flat_of design.now)) process.now.body }
    requires fits { Fits (names_of (flat_of design.now)) (list_of all.old.cells) (env_of all.old.at) }
    requires first { all.old.at.first ≡ 0 }
    ensures { OnOk result (Adds (names_of (flat_of design.now)) (env_of all.old.at) (env_of all.new.at) (list_of all.old.cells) (list_of all.new.cells)) }
{
    match process.kind {
        ProcKind::Comb => {
            let here = all.at.here;
            statement(
                alloc,
                &mut all.cells,
                design,
                &mut all.at,
                here,
                &process.body,
            )
        }
        _ => Ok(()),
    }
}

/// The cells of a design's combinational `always` blocks in text order.
pub fn compile(alloc: Global, design: &Design, bench: &Bench) -> Result<Compiled, AllocError>
    requires sound { IsSound (flat_of design.now) }
    requires checked { IsChecked (flat_of design.now) }
    requires functions { All (IsCellFun (names_of (flat_of design.now))) (flat_of design.now).funs }
    requires places { length bench.now.places.items ≡ length design.now.signals }
    ensures { IfOk result (λ c. Walked (names_of (flat_of design.now)) bench.now.places.items bench.now.time bench.now.answer (list_of c.cells) (env_of c.at)) }
{
    let mut all = begun(alloc, design, bench)?;
    for process in design.processes.as_slice() {
        add(alloc, design, &mut all, process)?;
    }
    Ok(all)
}
