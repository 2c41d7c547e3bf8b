//! The cost of a design.

ghost use Rattle.std.specs.Prelude.{◌≡◌, length, sum_by, All, IfOk};
ghost use Rattle.vl_design.specs.Cost.{cost};
ghost use Rattle.vl_design.specs.Laws.{IsUnrolled};
ghost use Rattle.vl_design.specs.Queue.{is_init};
ghost use Rattle.vl_design.specs.Seen as seen;
ghost use Rattle.vl_design.specs.Trees.{flat_of};
ghost use Rattle.vl_design.specs.Costs.{saturated, saturated_cost};
ghost use Rattle.vl_cost.specs.Walks.{process_cells, process_regs, AreBodies, HasNoLoop};

use crate::bodies::bodies_of;
use crate::registers::stm_regs;
use crate::signals::{signal_cells, signal_mem, signal_regs};
use crate::statements::stm_cells;
use crate::sums::plus;
use std::alloc::{AllocError, Global};
use vl_design::capacity::Cost;
use vl_design::design::{Design, ProcKind, Process, Signal};

/// A process is an `initial` block.
fn is_initial(kind: ProcKind) -> bool
    ensures { result ≡ is_init kind }
{
    match kind {
        ProcKind::Init => true,
        ProcKind::Rise | ProcKind::Fall | ProcKind::Comb | ProcKind::Assign => false,
    }
}

/// The cells of a process: 4 and its statement; none of an `initial` block.
fn process_cells(bodies: &[u64], process: &Process) -> u64
    requires { HasNoLoop (seen.stm_of process.now.body) }
    ensures { result ≡ saturated (process_cells bodies.now process.now) }
{
    if is_initial(process.kind) {
        return 0;
    }
    plus(4, stm_cells(bodies, &process.body))
}

/// The register bits of a process; none of an `initial` block.
fn process_regs(signals: &[Signal], process: &Process) -> u64
    requires { HasNoLoop (seen.stm_of process.now.body) }
    ensures { result ≡ saturated (process_regs signals.now process.now) }
{
    if is_initial(process.kind) {
        return 0;
    }
    stm_regs(signals, &process.body)
}

/// The cells of processes.
fn processes_cells(bodies: &[u64], processes: &[Process]) -> u64
    requires { All (λ a. HasNoLoop (seen.stm_of a.body)) processes.now }
    ensures { result ≡ saturated (sum_by (process_cells bodies.now) processes.now) }
{
    let mut all = 0;
    for process in processes {
        all = plus(all, process_cells(bodies, process));
    }
    all
}

/// The register bits of processes.
fn processes_regs(signals: &[Signal], processes: &[Process]) -> u64
    requires { All (λ a. HasNoLoop (seen.stm_of a.body)) processes.now }
    ensures { result ≡ saturated (sum_by (process_regs signals.now) processes.now) }
{
    let mut all = 0;
    for process in processes {
        all = plus(all, process_regs(signals, process));
    }
    all
}

/// The register bits of a design.
fn design_regs(design: &Design) -> u64
    requires { IsUnrolled (flat_of design.now) }
    ensures { result ≡ saturated ((cost (flat_of design.now)).regs) }
{
    let signals = design.signals.as_slice();
    let rows = plus(96, signal_regs(signals));
    plus(rows, processes_regs(signals, design.processes.as_slice()))
}

/// The cells of a design.
fn design_cells(bodies: &[u64], design: &Design) -> u64
    requires unrolled { IsUnrolled (flat_of design.now) }
    requires bodies { AreBodies (flat_of design.now) (length (flat_of design.now).funs) bodies.now }
    ensures { result ≡ saturated ((cost (flat_of design.now)).cells) }
{
    let rows = plus(16, signal_cells(design.signals.as_slice()));
    plus(rows, processes_cells(bodies, design.processes.as_slice()))
}

/// The memory bits of a design.
fn design_mem(design: &Design) -> u64
    ensures { result ≡ saturated ((cost (flat_of design.now)).mem) }
{
    signal_mem(design.signals.as_slice())
}

/// The cost of a design whose loops are unrolled, without its `initial` blocks: bits of registers, cells, and bits of memories;
/// the greatest number of 64 bits in the place of a greater one. If functions lead to no circle of calls, the body of each is read
/// three times: for the order of calls, in that order, and to see that nothing changes. Else there are as many rounds over all
/// of them as calls nest deep, at most as many as there are functions.
pub fn cost(alloc: Global, design: &Design) -> Result<Cost, AllocError>
    requires { IsUnrolled (flat_of design.now) }
    ensures { IfOk result (λ c. c ≡ saturated_cost (cost (flat_of design.now))) }
{
    let bodies = bodies_of(alloc, design)?;
    Ok(Cost {
        regs: design_regs(design),
        cells: design_cells(&bodies, design),
        mem: design_mem(design),
    })
}
