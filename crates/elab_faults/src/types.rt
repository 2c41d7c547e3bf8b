//! The faults of the types of declarations (IEEE 1364-2005, clauses 4.3, 4.8 and 4.9).

ghost use Rattle.std.specs.Prelude.{◌≡◌, option_map};
ghost use Rattle.elab_plain.specs.vl_flat.specs.Ranges as r;
ghost use Rattle.vl_design.specs.Stops as s;
ghost use Rattle.elab_plain.specs.Seen.{seen};
ghost use Rattle.elab_constant.specs.Seen.{look, seen_scope};
ghost use Rattle.elab_plain.specs.SeenItems.{seen_bounds, seen_type};

use crate::checks::must_be_bound;
use crate::faults::faults;
use elab_constant::ranges::is_wide;
use elab_constant::scope::{Names, module_scope};
use elab_plain::items::{Bounds, DataType};
use elab_plain::surface::Ex;
use vl_base::place::Place;
use vl_design::stop::Stop;
use vl_design::stops::construct_if;

/// The faults of a bound of a range.
fn bound_faults(best: Option<Stop>, names: &Names<'_>, e: &Ex) -> Option<Stop>
    ensures { result ≡ s.earliest best (r.bound_faults (look names.now) (seen e.now)) }
{
    let scope = module_scope(names);
    let inner = faults(best, &scope, e);
    must_be_bound(inner, &scope, e)
}

/// The faults of a range that may stand there.
pub fn range_faults(best: Option<Stop>, names: &Names<'_>, range: &Option<Bounds>) -> Option<Stop>
    ensures { result ≡ s.earliest best (r.range_faults (look names.now) (option_map seen_bounds range.now)) }
{
    match range {
        None => best,
        Some(bounds) => {
            let left = bound_faults(best, names, &bounds.left);
            bound_faults(left, names, &bounds.right)
        }
    }
}

/// The faults of the range of a type.
fn written_faults(best: Option<Stop>, names: &Names<'_>, kind: &DataType) -> Option<Stop>
    ensures { result ≡ s.earliest best (r.range_faults (look names.now) (r.range_in (seen_type kind.now))) }
{
    match kind {
        DataType::Integer => best,
        DataType::Vector(_, range) => range_faults(best, names, range),
    }
}

/// The range of a type has more than 128 bits.
fn is_past(names: &Names<'_>, kind: &DataType) -> bool
    ensures { result ≡ r.is_wide (look names.now) (seen_type kind.now) }
{
    is_wide(&module_scope(names), kind)
}

/// The faults of the type of a name that is declared at a place.
pub fn type_faults(
    best: Option<Stop>,
    names: &Names<'_>,
    kind: &DataType,
    at: Place,
) -> Option<Stop>
    ensures { result ≡ s.earliest best (r.type_faults (look names.now) (seen_type kind.now) at) }
{
    let ranged = written_faults(best, names, kind);
    construct_if(ranged, is_past(names, kind), at, 10)
}
