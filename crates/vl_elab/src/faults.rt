//! The faults of an item of an instance, but for those of statements: refused constructs 10, 11, 12 and 24.

ghost use Rattle.std.specs.Prelude.{◌≡◌, ◌&&◌, map, flat_map, option_map, is_some, Option};
ghost use Rattle.std.specs.Ordering.{int_eq};
ghost use Rattle.elab_plain.specs.vl_flat.specs.Items as x;
ghost use Rattle.vl_design.specs.Placed.{Exp};
ghost use Rattle.elab_plain.specs.vl_flat.specs.Scopes.{plainly};
ghost use Rattle.elab_plain.specs.vl_flat.specs.Processes as p;
ghost use Rattle.elab_plain.specs.vl_flat.specs.Parameters as q;
ghost use Rattle.vl_design.specs.Stops.{earliest};
ghost use Rattle.elab_plain.specs.Seen.{seen};
ghost use Rattle.elab_plain.specs.SeenItems.{seen_type, seen_declared, seen_parameter, seen_setting, seen_connection};
ghost use Rattle.elab_constant.specs.Seen.{look, binding_of};
ghost use Rattle.elab_constant.specs.Types.{numbers};
ghost use Rattle.elab_instance.specs.Given.{overrides_of};

use elab_constant::ranges::{Range, bits_in, has_range, is_signed, type_range};
use elab_constant::scope::{Known, Names, found_in, module_scope};
use elab_faults::faults::faults;
use elab_faults::lefts::target_faults;
use elab_faults::types::{range_faults, type_faults};
use elab_instance::connections::expression;
use elab_instance::given::Above;
use elab_instance::scope::is_clock;
use elab_plain::binding::Shape;
use elab_plain::items::{Connection, DataType, Declared, Parameter, Setting};
use elab_plain::surface::Ex;
use vl_design::Place;
use vl_design::stop::Stop;
use vl_design::stops::construct_if;

/// The first of those so far and the faults of an expression, if one stands there.
#[tactic(auto, using(crate::proofs::Steps::firsts))]
fn optional_faults(best: Option<Stop>, names: &Names<'_>, e: &Option<Ex>) -> Option<Stop>
    ensures { result ≡ earliest best (p.optional_faults (look names.now) (option_map seen e.now)) }
{
    match e {
        Some(e) => faults(best, &module_scope(names), e),
        None => best,
    }
}

/// A range is that of a signal.
fn same_range(range: Range, shape: Shape) -> bool
    ensures { result ≡ (int_eq (numbers range).0 shape.left && int_eq (numbers range).1 shape.right) }
{
    range.left == shape.left && range.right == shape.right
}

/// A declaration has the sign and the bits of a signal, and says which they are where the signal's does.
fn is_alike(signed: bool, ranged: bool, range: Range, shape: Shape) -> bool
    ensures { result ≡ p.is_alike signed ranged (numbers range) shape }
{
    signed == shape.signed && (ranged == shape.ranged && same_range(range, shape))
}

/// The first of those so far and the faults of a declaration beside what its name stands for.
#[tactic(auto, using(crate::proofs::Steps::firsts))]
fn binding_faults(
    best: Option<Stop>,
    names: &Names<'_>,
    kind: &DataType,
    at: Place,
    known: Option<Known>,
) -> Option<Stop>
    ensures { (d : x.Declared) → d.name.place ≡ at → d.type ≡ seen_type kind.now → result ≡ earliest best (p.binding_faults (look names.now) d (option_map binding_of known)) }
{
    let Some(Known::Signal(_, shape)) = known else {
        return best;
    };
    let range = type_range(&module_scope(names), kind);
    let best = construct_if(best, is_clock(shape.kind) && bits_in(range) > 1, at, 12);
    construct_if(
        best,
        !is_alike(is_signed(kind), has_range(kind), range, shape),
        at,
        12,
    )
}

/// The first of those so far and the faults of a declaration.
#[tactic(auto, using(crate::proofs::Steps::firsts))]
fn declared_faults(
    best: Option<Stop>,
    names: &Names<'_>,
    kind: &DataType,
    d: &Declared,
) -> Option<Stop>
    ensures { result ≡ earliest best (p.declared_faults (look names.now) (seen_declared (seen_type kind.now) d.now)) }
{
    let at = d.name.place;
    let best = type_faults(best, names, kind, at);
    let best = range_faults(best, names, &d.words);
    let known = found_in(names, d.name.name.as_slice());
    let best = binding_faults(best, names, kind, at, known);
    optional_faults(best, names, &d.value)
}

/// The first of those so far and the faults of declarations.
#[tactic(auto, using(crate::proofs::Steps::firsts))]
pub fn all_declared_faults(
    best: Option<Stop>,
    names: &Names<'_>,
    kind: &DataType,
    ds: &[Declared],
) -> Option<Stop>
    ensures { result ≡ earliest best (flat_map (p.declared_faults (look names.now)) (map (seen_declared (seen_type kind.now)) ds.now)) }
{
    let mut best = best;
    for d in ds {
        best = declared_faults(best, names, kind, d);
    }
    best
}

/// The first of those so far and the faults of a continuous assignment.
#[tactic(auto, using(crate::proofs::Steps::firsts))]
fn assignment_faults(best: Option<Stop>, names: &Names<'_>, a: &Setting) -> Option<Stop>
    ensures { result ≡ earliest best (p.assignment_faults (look names.now) (seen_setting a.now)) }
{
    let scope = module_scope(names);
    let best = target_faults(best, &scope, &a.target);
    faults(best, &scope, &a.value)
}

/// The first of those so far and the faults of continuous assignments.
#[tactic(auto, using(crate::proofs::Steps::firsts))]
pub fn all_assignment_faults(
    best: Option<Stop>,
    names: &Names<'_>,
    list: &[Setting],
) -> Option<Stop>
    ensures { result ≡ earliest best (flat_map (p.assignment_faults (look names.now)) (map seen_setting list.now)) }
{
    let mut best = best;
    for a in list {
        best = assignment_faults(best, names, a);
    }
    best
}

/// The first of those so far and the faults of a parameter, whose default isn't judged where something stands in its place.
#[tactic(auto, using(crate::proofs::Steps::firsts))]
fn parameter_faults(
    best: Option<Stop>,
    names: &Names<'_>,
    kind: &DataType,
    overridden: bool,
    a: &Parameter,
) -> Option<Stop>
    ensures { (given : Option Exp) → is_some given ≡ overridden → result ≡ earliest best (q.parameter_faults (look names.now) (seen_type kind.now) given (seen_parameter a.now)) }
{
    let best = type_faults(best, names, kind, a.name.place);
    if overridden {
        best
    } else {
        faults(best, &module_scope(names), &a.value)
    }
}

/// Something stands in place of a parameter's default.
fn is_overridden(above: &Above<'_, '_, '_, '_>, name: &[u8]) -> bool
    ensures { result ≡ is_some (overrides_of above.now name.now) }
{
    match above {
        Above::Top => false,
        Above::Item(given) => expression(given.overrides, name).is_some(),
    }
}

/// The first of those so far and the faults of parameters.
#[tactic(auto, using(crate::proofs::Steps::firsts))]
pub fn all_parameter_faults(
    best: Option<Stop>,
    names: &Names<'_>,
    kind: &DataType,
    above: &Above<'_, '_, '_, '_>,
    list: &[Parameter],
) -> Option<Stop>
    ensures { result ≡ earliest best (flat_map (λ a. q.parameter_faults (look names.now) (seen_type kind.now) (overrides_of above.now a.name.name) a) (map seen_parameter list.now)) }
{
    let mut best = best;
    for a in list {
        let overridden = is_overridden(above, a.name.name.as_slice());
        best = parameter_faults(best, names, kind, overridden, a);
    }
    best
}

/// The first of those so far and the faults of overrides.
#[tactic(auto, using(crate::proofs::Steps::firsts))]
pub fn override_faults(best: Option<Stop>, names: &Names<'_>, list: &[Connection]) -> Option<Stop>
    ensures { result ≡ earliest best (flat_map (λ q. p.optional_faults (look names.now) q.value) (map seen_connection list.now)) }
{
    let mut best = best;
    for connection in list {
        best = optional_faults(best, names, &connection.value);
    }
    best
}
