//! Parameters of an instance (IEEE 1364-2005, clauses 4.10 and 12.2).

ghost use Rattle.std.specs.Prelude.{◌≡◌, map, fold, option_map, OnOk};
ghost use Rattle.elab_plain.specs.vl_flat.specs.Scopes.{plainly};
ghost use Rattle.elab_plain.specs.vl_flat.specs.Expressions as flat;
ghost use Rattle.elab_plain.specs.vl_flat.specs.Parameters as p;
ghost use Rattle.elab_plain.specs.Seen.{seen};
ghost use Rattle.elab_plain.specs.SeenItems.{seen_parameter, seen_type};
ghost use Rattle.elab_constant.specs.Seen.{look};
ghost use Rattle.elab_constant.specs.Types.{constant_of};
ghost use Rattle.elab_instance.specs.Given.{overrides_of};
ghost use Rattle.elab_instance.specs.Known as spec;

use crate::connections::expression;
use crate::given::{Above, Surroundings};
use elab_constant::ranges::converted;
use elab_constant::scope::{Known, Names, Value, bind, module_scope};
use elab_plain::items::{DataType, Parameter};
use elab_plain::surface::Ex;
use std::alloc::AllocError;

/// A parameter with its default.
fn default_value(names: &Names<'_>, kind: &DataType, parameter: &Parameter) -> Value
    ensures { constant_of result ≡ p.converted (look names.now) (seen_type kind.now) (flat.constant (plainly (look names.now)) (seen parameter.now.value)) }
{
    let scope = module_scope(names);
    converted(&scope, kind, &scope, &parameter.value)
}

/// A parameter with a value of the item above.
fn overridden(names: &Names<'_>, kind: &DataType, above: &Names<'_>, e: &Ex) -> Value
    ensures { constant_of result ≡ p.converted (look names.now) (seen_type kind.now) (flat.constant (plainly (look above.now)) (seen e.now)) }
{
    converted(&module_scope(names), kind, &module_scope(above), e)
}

/// A parameter in an instance in an item.
fn given_value(
    names: &Names<'_>,
    given: &Surroundings<'_, '_, '_, '_>,
    kind: &DataType,
    parameter: &Parameter,
) -> Value
    ensures { constant_of result ≡ p.converted (look names.now) (seen_type kind.now) (p.value_of (look names.now) (spec.override_in given.now parameter.now.name.name) (seen_parameter parameter.now)) }
{
    match expression(given.overrides, parameter.name.name.as_slice()) {
        Some(e) => overridden(names, kind, given.names, e),
        None => default_value(names, kind, parameter),
    }
}

/// A parameter: its override, or its default.
fn value(
    names: &Names<'_>,
    above: &Above<'_, '_, '_, '_>,
    kind: &DataType,
    parameter: &Parameter,
) -> Value
    ensures { constant_of result ≡ p.converted (look names.now) (seen_type kind.now) (p.value_of (look names.now) (overrides_of above.now parameter.now.name.name) (seen_parameter parameter.now)) }
{
    match above {
        Above::Top => default_value(names, kind, parameter),
        Above::Item(given) => given_value(names, given, kind, parameter),
    }
}

/// Adds a parameter.
fn add_parameter<'m>(
    names: &mut Names<'m>,
    above: &Above<'_, '_, '_, 'm>,
    kind: &DataType,
    parameter: &'m Parameter,
) -> Result<(), AllocError>
    ensures { OnOk result (look names.new ≡ spec.with_parameter (overrides_of above.now) (seen_type kind.now) (look names.old) (seen_parameter parameter.entry.now)) }
{
    let value = value(names, above, kind, parameter);
    bind(
        names,
        parameter.name.name.as_slice(),
        Known::Constant(value),
    )
}

/// Adds parameters of one type.
pub fn add_parameters<'m>(
    names: &mut Names<'m>,
    above: &Above<'_, '_, '_, 'm>,
    kind: &DataType,
    parameters: &'m [Parameter],
) -> Result<(), AllocError>
    ensures { OnOk result (look names.new ≡ fold (spec.with_parameter (overrides_of above.now) (seen_type kind.now)) (look names.old) (map seen_parameter parameters.entry.now)) }
{
    for parameter in parameters {
        add_parameter(names, above, kind, parameter)?;
    }
    Ok(())
}
