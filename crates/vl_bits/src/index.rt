//! Where a select begins.

ghost use Rattle.std.specs.Prelude.{◌≡◌, option_map};
ghost use Rattle.vl_design.specs.Trees.{exp_of};
ghost use Rattle.vl_design.specs.Sound.{IsSoundExp};
ghost use Rattle.vl_paths.specs.Bits as b;
ghost use Rattle.vl_bits.specs.Seen.{names_seen};
ghost use Rattle.vl_bits.specs.Constants.{near};

use crate::meanings::Meanings;
use crate::values::{form, value, varies};
use crate::wholes::{lowest_place, whole_number};
use vl_design::design::{Expr, LowestBit};

/// The lowest bit that an index names (IEEE 1364-2005, clause 5.2.1), or the nearest place beside 128 bits. None exactly
/// where the index isn't constant: it reads a signal, or calls a function.
pub fn known_low(m: &Meanings<'_>, from: LowestBit, index: &Expr) -> Option<i64>
    requires { IsSoundExp (names_seen m.now) (exp_of index.now) }
    ensures { result ≡ option_map near (b.known_low (names_seen m.now) from (exp_of index.now)) }
{
    if varies(index) {
        return None;
    }
    let f = form(m, index);
    let bits = value(m, index, f);
    Some(lowest_place(from, whole_number(bits, f.signed)))
}
