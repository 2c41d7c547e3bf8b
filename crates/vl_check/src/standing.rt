//! What stands where it may not in a design.

ghost use Rattle.std.specs.Prelude.{◌≡◌, ◌<◌, ℕ, [], None, length, get_or, false, IfOk};
ghost use Rattle.vl_design.specs.Seen.{placed};
ghost use Rattle.vl_design.specs.Stops.{earliest};
ghost use Rattle.vl_check.specs.Standing as x;
ghost use Rattle.vl_check.specs.Told.{AreLong, AreTold};

use crate::processes::{functions_fault, processes_fault};
use crate::writers::Writers;
use std::alloc::{AllocError, Global};
use vl_design::design::Design;
use vl_design::stop::Stop;

/// So many signals, none of them marked.
fn unmarked(alloc: Global, count: usize) -> Result<Vec<bool>, AllocError>
    ensures long { IfOk result (λ v. length v.items ≡ count) }
    ensures clean { IfOk result (λ v. (k : ℕ) → k < count → get_or v.items k false ≡ false) }
{
    vec![in alloc; false; count]
}

/// Marks of the writers of so many signals where no process came before.
fn no_writers(alloc: Global, count: usize) -> Result<Writers, AllocError>
    ensures long { IfOk result (AreLong count) }
    ensures told { IfOk result (AreTold count []) }
{
    let any = unmarked(alloc, count)?;
    let always = unmarked(alloc, count)?;
    let combinational = unmarked(alloc, count)?;
    Ok(Writers {
        any,
        always,
        combinational,
    })
}

/// The first of refused constructs 15 to 18 and 20 to 23, but for recursion, and of variables 14 (IEEE 1364-2005, clauses 6.1,
/// 9.2, 9.6, 9.7, 10.4 and 17).
pub fn standing_fault(alloc: Global, design: &Design) -> Result<Option<Stop>, AllocError>
    ensures { IfOk result (λ r. r ≡ earliest None (x.standing_faults (placed design.now))) }
{
    let count = design.signals.as_slice().len();
    let mut marks = unmarked(alloc, count)?;
    let mut writers = no_writers(alloc, count)?;
    let first = processes_fault(alloc, design, &mut marks, &mut writers)?;
    functions_fault(alloc, design, first, design.funcs.as_slice())
}
