//! What a signal has after one cycle.

ghost use Rattle.std.specs.Prelude.{All};
ghost use Rattle.vl_design.specs.Sound.{IsSound};
ghost use Rattle.vl_design.specs.Trees.{flat_of};
ghost use Rattle.vl_design.specs.Width.{names_of};
ghost use Rattle.vl_accept.specs.vl_runs.specs.Checked.{IsChecked};
ghost use Rattle.cell_expr.specs.Bodies.{IsCellFun};

use crate::cells::bench::set_up;
use crate::cells::compile::compile;
use crate::cells::row::Row;
use cell_eval::cycle::cycle;
use std::alloc::{AllocError, Global};
use vl_design::design::{Design, Signal};

/// The number of a signal by its path; how many there are where there is no such.
fn number_of(signals: &[Signal], path: &str) -> usize {
    for (number, signal) in signals.iter().enumerate() {
        if signal.name.as_slice() == path.as_bytes() {
            return number;
        }
    }
    signals.len()
}

/// What the wanted signal has after one cycle.
pub fn outcome(alloc: Global, design: &Design, row: &Row) -> Result<Option<u128>, AllocError>
    requires sound { IsSound (flat_of design.now) }
    requires checked { IsChecked (flat_of design.now) }
    requires functions { All (IsCellFun (names_of (flat_of design.now))) (flat_of design.now).funs }
{
    let mut bench = set_up(alloc, design, row.told.as_slice())?;
    let compiled = compile(alloc, design, &bench)?;
    bench.bank.slots = vec![in alloc; 0; compiled.cells.cells.as_slice().len()]?;
    cycle(&compiled.cells, &mut bench.bank);
    let number = number_of(design.signals.as_slice(), row.wanted.signal.as_str());
    match compiled.at.slots.get(number) {
        Some(Some(slot)) => Ok(bench.bank.slots.get(*slot as usize).copied()),
        _ => Ok(None),
    }
}
