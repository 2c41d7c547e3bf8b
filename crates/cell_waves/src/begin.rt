//! What a state begins with (IEEE 1364-2005, clauses 6.1, 9.2.2 and 11.3).

ghost use Rattle.std.specs.Prelude.{◌≤◌, length, All, IfOk};
ghost use Rattle.ten_form.specs.vl_design.specs.Sound.{IsSound};
ghost use Rattle.ten_form.specs.vl_design.specs.Trees.{flat_of};
ghost use Rattle.ten_form.specs.vl_design.specs.Width.{names_of};
ghost use Rattle.ten_form.specs.vl_runs.specs.Nets.{AllBelow};
ghost use Rattle.ten_form.specs.vl_runs.specs.Checked.{IsChecked};
ghost use Rattle.cell_emit.specs.cell_form.specs.Views.{list_of};
ghost use Rattle.cell_emit.specs.Slots.{Grows};
ghost use Rattle.cell_emit.specs.Envs.{env_of};
ghost use Rattle.cell_emit.specs.Pendings.{slots_of};
ghost use Rattle.cell_expr.specs.Bodies.{IsCellFun};
ghost use Rattle.cell_waves.specs.Begins.{Begins};

use crate::begin_begin::begin;
use crate::begun::Begun;
use crate::copies::pending;
use cell_emit::cell::CellList;
use std::alloc::{AllocError, Global};
use ten_form::design::Design;
use ten_form::places::{ANSWER, TICKS, VALUE, WORK, places};

/// The cells that a state behind time zero's wave begins with (IEEE 1364-2005, clauses 6.1 and 11.3): variables from their work
/// copies, nets over the values committed last, in order, and pending updates from their registers. An `Err` is want of memory.
pub fn begun(
    alloc: Global,
    cells: &mut CellList,
    design: &Design,
    order: &[u32],
) -> Result<Begun, AllocError>
    requires sound { IsSound (flat_of design.now) }
    requires functions { All (IsCellFun (names_of (flat_of design.now))) (flat_of design.now).funs }
    requires checked { IsChecked (flat_of design.now) }
    requires there { AllBelow (length (flat_of design.now).procs) order.now }
    requires few { length (flat_of design.now).rows ≤ 268435456 }
    ensures grows { Grows (list_of cells.old) (list_of cells.new) }
    ensures begins { IfOk result (λ x. Begins (flat_of design.now) order.now (list_of cells.old) (list_of cells.new) (env_of x.at) (slots_of x.pending)) }
{
    let signals = design.signals.as_slice();
    let values = places(alloc, signals, VALUE)?;
    let works = places(alloc, signals, WORK)?;
    let at = begin(
        alloc,
        cells,
        design,
        order,
        values.as_slice(),
        works.as_slice(),
        TICKS,
        ANSWER,
    )?;
    let pending = pending(alloc, cells, signals)?;
    Ok(Begun { at, pending })
}
