//! Cells of what displays show: the items of a format take the arguments behind it (IEEE 1364-2005, clause 17.1.1).

ghost use Rattle.std.specs.Prelude.{◌≡◌, ◌+◌, ◌*◌, ◌∷◌, [], false, map, slice_index, List};
ghost use Rattle.vl_design.specs.Cost.{exp_cells, task_cells};
ghost use Rattle.vl_design.specs.Formats.{Arg, operand, pieces_from};
ghost use Rattle.vl_design.specs.Syntax.{Print};
ghost use Rattle.vl_design.specs.Trees.{arg_of};
ghost use Rattle.vl_design.specs.Costs.{saturated};
ghost use Rattle.vl_cost.specs.Displays.{shown_cells};

use crate::expressions::exp_cells;
use crate::sums::{plus, times};
use vl_design::design::SysArg;
use vl_design::formats::items_in;

/// A sum of cells, and how many of the next arguments are taken by items.
#[derive(Clone, Copy)]
struct Showing {
    /// The cells so far.
    cells: u64,
    /// How many arguments are taken.
    taken: usize,
}

/// The cells of an argument that an item shows.
fn operand_cells(bodies: &[u64], a: &SysArg) -> u64
    ensures { (others : List Arg) → result ≡ saturated (exp_cells (λ f. slice_index bodies.now f) (operand (arg_of a.now ∷ others))) }
{
    match a {
        SysArg::Null | SysArg::Str(_) => 2,
        SysArg::Value(e) => exp_cells(bodies, e),
    }
}

/// A sum with the cells of an argument that no item takes, and how many of the next ones its items take where it is a
/// format.
fn alone(bodies: &[u64], sum: u64, a: &SysArg) -> Showing
    ensures { (others : List Arg) → saturated (result.cells + shown_cells (λ f. slice_index bodies.now f) result.taken others) ≡ saturated (sum + shown_cells (λ f. slice_index bodies.now f) 0 (arg_of a.now ∷ others)) }
{
    match a {
        SysArg::Null => Showing {
            cells: sum,
            taken: 0,
        },
        SysArg::Str(text) => Showing {
            cells: sum,
            taken: items_in(text.as_slice()),
        },
        SysArg::Value(e) => Showing {
            cells: plus(sum, exp_cells(bodies, e)),
            taken: 0,
        },
    }
}

/// A sum with the cells of the next argument.
fn shown(bodies: &[u64], from: Showing, a: &SysArg) -> Showing
    ensures { (others : List Arg) → saturated (result.cells + shown_cells (λ f. slice_index bodies.now f) result.taken others) ≡ saturated (from.cells + shown_cells (λ f. slice_index bodies.now f) from.taken (arg_of a.now ∷ others)) }
{
    if from.taken == 0 {
        return alone(bodies, from.cells, a);
    }
    Showing {
        cells: plus(from.cells, operand_cells(bodies, a)),
        taken: from.taken - 1,
    }
}

/// A sum with the cells of so many items that no argument is left for.
fn missing_cells(from: Showing) -> u64
    ensures { result ≡ saturated (from.cells + from.taken * 2) }
{
    plus(from.cells, times(from.taken as u64, 2))
}

/// The cells of a display.
pub(crate) fn display_cells(bodies: &[u64], given: &[SysArg]) -> u64
    ensures { result ≡ saturated (task_cells (λ f. slice_index bodies.now f) (Print (pieces_from [] 0 (map arg_of given.now)) false)) }
{
    let mut all = Showing { cells: 8, taken: 0 };
    for a in given {
        all = shown(bodies, all, a);
    }
    missing_cells(all)
}
