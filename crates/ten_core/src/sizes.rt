//! Which designs can be held, as far as their sizes go.

ghost use Rattle.std.specs.Prelude.{◌↔◌, All, IsTrue};
ghost use Rattle.std.specs.List.{AllByRecursion};
ghost use Rattle.vl_design.specs.Trees.{flat_of, row_of};
ghost use Rattle.ten_core.specs.Holding.{IsSized};

use vl_design::design::{Design, Signal};
use vl_eval::selects::word_count;

/// Whether a signal has from 1 to 128 bits, and so few words that 32 bits count them.
fn is_sized(signal: &Signal) -> bool
    ensures { IsTrue result ↔ IsSized (row_of signal.now) }
{
    signal.left.abs_diff(signal.right) < 128 && word_count(signal) < 1 << 32
}

/// Whether this holds of each of these signals.
fn all_sized(signals: &[Signal]) -> bool
    ensures { IsTrue result ↔ All (λ x. IsSized (row_of x)) signals.now }
{
    signals.iter().all(|signal| is_sized(signal))
}

/// Whether each signal of a design has from 1 to 128 bits, and so few words that 32 bits count them.
pub fn are_sized(design: &Design) -> bool
    ensures { IsTrue result ↔ AllByRecursion IsSized (flat_of design.now).rows }
{
    all_sized(design.signals.as_slice())
}
