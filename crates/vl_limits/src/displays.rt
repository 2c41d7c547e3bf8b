//! What the arguments of a display count: the items of a format take the arguments behind it (IEEE 1364-2005, clause
//! 17.1.1).

ghost use Rattle.std.specs.Prelude.{◌≡◌, ◌+◌, ◌∷◌, [], ◌*◌, min, map, List};
ghost use Rattle.vl_design.specs.Formats.{Arg, operand, pieces_from};
ghost use Rattle.vl_design.specs.Trees.{arg_of};
ghost use Rattle.vl_loops.specs.Limits.{exp_count, pieces_count};
ghost use Rattle.vl_limits.specs.Displays.{shown_count};
ghost use Rattle.vl_limits.specs.Tallies.{counted_of};

use crate::expressions::exp_sum;
use crate::sums::{Tally, plus};
use vl_design::design::SysArg;
use vl_design::formats::items_in;

/// A sum, and how many of the next arguments are taken by items.
#[derive(Clone, Copy)]
struct Showing {
    /// The sum so far.
    sum: u32,
    /// How many arguments are taken.
    taken: usize,
}

/// A sum with what an argument counts that an item shows.
fn operand_sum(tally: &Tally<'_>, sum: u32, a: &SysArg) -> u32
    ensures { (others : List Arg) → result ≡ min tally.now.cap (sum + exp_count (counted_of tally.now) (operand (arg_of a.now ∷ others))) }
{
    match a {
        SysArg::Null | SysArg::Str(_) => plus(tally.cap, sum, tally.node),
        SysArg::Value(e) => exp_sum(tally, sum, e),
    }
}

/// A sum with what an argument counts that no item takes, and how many of the next ones its items take where it is a
/// format.
fn alone(tally: &Tally<'_>, sum: u32, a: &SysArg) -> Showing
    ensures { (others : List Arg) → min tally.now.cap (result.sum + shown_count (counted_of tally.now) result.taken others) ≡ min tally.now.cap (sum + shown_count (counted_of tally.now) 0 (arg_of a.now ∷ others)) }
{
    match a {
        SysArg::Null => Showing { sum, taken: 0 },
        SysArg::Str(text) => Showing {
            sum,
            taken: items_in(text.as_slice()),
        },
        SysArg::Value(e) => Showing {
            sum: exp_sum(tally, sum, e),
            taken: 0,
        },
    }
}

/// A sum with what the next argument counts.
fn shown(tally: &Tally<'_>, from: Showing, a: &SysArg) -> Showing
    ensures { (others : List Arg) → min tally.now.cap (result.sum + shown_count (counted_of tally.now) result.taken others) ≡ min tally.now.cap (from.sum + shown_count (counted_of tally.now) from.taken (arg_of a.now ∷ others)) }
{
    if from.taken == 0 {
        return alone(tally, from.sum, a);
    }
    Showing {
        sum: operand_sum(tally, from.sum, a),
        taken: from.taken - 1,
    }
}

/// A sum with what so many items count that no argument is left for.
fn missing_sum(tally: &Tally<'_>, from: Showing) -> u32
    ensures { result ≡ min tally.now.cap (from.sum + from.taken * tally.now.node) }
{
    let mut all = plus(tally.cap, from.sum, 0);
    for _item in 0..from.taken {
        all = plus(tally.cap, all, tally.node);
    }
    all
}

/// A sum with what the arguments of a display count.
pub(crate) fn display_sum(tally: &Tally<'_>, sum: u32, given: &[SysArg]) -> u32
    ensures { result ≡ min tally.now.cap (sum + pieces_count (counted_of tally.now) (pieces_from [] 0 (map arg_of given.now))) }
{
    let mut all = Showing { sum, taken: 0 };
    for a in given {
        all = shown(tally, all, a);
    }
    missing_sum(tally, all)
}
