//! What came of a row.

ghost use Rattle.std.specs.Prelude.{ℕ, List, All};
ghost use Rattle.vl_design.specs.Sound.{IsSound};
ghost use Rattle.vl_design.specs.Trees.{flat_of};
ghost use Rattle.vl_design.specs.Width.{names_of};
ghost use Rattle.vl_accept.specs.vl_runs.specs.Checked.{IsChecked};
ghost use Rattle.vl_front.specs.Sources.{IsAcceptedOf};
ghost use Rattle.cell_expr.specs.Bodies.{IsCellFun};

use crate::cells::row::Row;
use crate::cells::value::outcome;
use elab_laws::fit_laws::an_elaborated_design_is_fit_to_be_judged;
use elab_laws::functions_laws::functions_of_an_elaborated_design_keep_to_their_own;
use std::alloc::{AllocError, Global};
use ten_build::functions_laws::functions_of_accepted_designs_can_be_compiled_to_cells;
use vl_accept::accept::Accepted;
use vl_accept::settled_laws::an_accepted_design_is_checked;
use vl_design::design::Design;
use vl_front::fault::BuildError;
use vl_front::front::front;

/// `ok` where the answer is the wanted one, else both, and the source.
fn told(alloc: Global, row: &Row, value: Option<u128>) -> Result<String, AllocError> {
    match value {
        None => format!(in alloc; "no value: {}", row.source),
        Some(value) => {
            if value == row.wanted.value {
                return String::from_str(alloc, "ok");
            }
            format!(in alloc;
                "{} is wanted, {value} came: {}",
                row.wanted.value, row.source
            )
        }
    }
}

/// What came of a row whose source is refused.
fn refused(alloc: Global, row: &Row) -> Result<String, AllocError> {
    format!(in alloc; "refused: {}", row.source)
}

/// What came of a row with this accepted design.
fn of_accepted(alloc: Global, design: &Design, row: &Row) -> Result<String, AllocError>
    requires sound { IsSound (flat_of design.now) }
    requires checked { IsChecked (flat_of design.now) }
    requires functions { All (IsCellFun (names_of (flat_of design.now))) (flat_of design.now).funs }
{
    let value = outcome(alloc, design, row)?;
    told(alloc, row, value)
}

/// What came of a row whose source is accepted.
fn of_text(alloc: Global, accepted: &Accepted, row: &Row) -> Result<String, AllocError>
    requires { (text : List ℕ) × IsAcceptedOf text accepted.now }
{
    an_elaborated_design_is_fit_to_be_judged();
    functions_of_an_elaborated_design_keep_to_their_own();
    an_accepted_design_is_checked();
    functions_of_accepted_designs_can_be_compiled_to_cells();
    of_accepted(alloc, &accepted.design, row)
}

/// What came of a row: `ok` where the value is the wanted one.
pub fn compared(alloc: Global, row: &Row) -> Result<String, AllocError> {
    match front(alloc, row.source.as_bytes()) {
        Ok(accepted) => of_text(alloc, &accepted, row),
        Err(BuildError::Memory) => Err(AllocError),
        Err(_) => refused(alloc, row),
    }
}
