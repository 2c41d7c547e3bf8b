//! The first of two faults.

ghost use Rattle.std.specs.Prelude.{◌≡◌};
ghost use Rattle.vl_design.specs.Firsts as x;

use crate::stop::Stop;
use crate::stops::earlier;

/// The first of two faults, either of which may be none.
pub fn first_of(a: Option<Stop>, b: Option<Stop>) -> Option<Stop>
    ensures { result ≡ x.first_of a b }
{
    match b {
        None => a,
        Some(f) => earlier(a, f),
    }
}
