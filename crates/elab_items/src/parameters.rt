//! Parameters and continuous assignments.

ghost use Rattle.std.specs.Prelude.{◌≡◌, map, IfOk};
ghost use Rattle.elab_plain.specs.vl_flat.specs.Items as x;
ghost use Rattle.elab_plain.specs.vl_flat.specs.Declarations as d;
ghost use Rattle.elab_plain.specs.SeenItems as s;

use crate::types::{bind_type, copied_name};
use elab_bind::expressions::bind;
use elab_bind::lefts::bind_left;
use elab_plain::items::{Item, Parameter, Setting};
use std::alloc::{AllocError, Global};
use vl_tree::source_tree::{Assignment, ParameterAssignment, ParameterGroup, ParameterType};

/// A parameter with its default.
fn bind_parameter(alloc: Global, a: &ParameterAssignment) -> Result<Parameter, AllocError>
    ensures { IfOk result (λ b. s.seen_parameter b ≡ d.parameter a.now) }
{
    let name = copied_name(alloc, &a.name)?;
    let value = bind(alloc, &a.value)?;
    Ok(Parameter { name, value })
}

/// Parameters one by one.
fn bind_each(
    alloc: Global,
    assignments: &[ParameterAssignment],
) -> Result<Vec<Parameter>, AllocError>
    ensures { IfOk result (λ v. map s.seen_parameter v.items ≡ map d.parameter assignments.now) }
{
    let mut all = Vec::new(alloc);
    for a in assignments {
        all.push(bind_parameter(alloc, a)?)?;
    }
    Ok(all)
}

/// Parameters with their type (IEEE 1364-2005, clause 4.10).
pub(crate) fn bind_parameters(
    alloc: Global,
    kind: &ParameterType,
    assignments: &[ParameterAssignment],
) -> Result<Item, AllocError>
    ensures { IfOk result (λ a. s.seen_item a ≡ x.Parameters (d.type kind.now) (map d.parameter assignments.now)) }
{
    let all = bind_each(alloc, assignments)?;
    let kind = bind_type(alloc, kind)?;
    Ok(Item::Parameters(kind, all))
}

/// The parameters of a header's group.
pub(crate) fn bind_group(alloc: Global, a: &ParameterGroup) -> Result<Item, AllocError>
    ensures { IfOk result (λ b. s.seen_item b ≡ d.header_parameters a.now) }
{
    bind_parameters(alloc, &a.kind, a.assignments.as_slice())
}

/// A left side with its right side.
fn bind_setting(alloc: Global, a: &Assignment) -> Result<Setting, AllocError>
    ensures { IfOk result (λ b. s.seen_setting b ≡ s.setting a.now) }
{
    let target = bind_left(alloc, &a.target)?;
    let value = bind(alloc, &a.value)?;
    Ok(Setting { target, value })
}

/// Left sides with their right sides.
pub(crate) fn bind_settings(
    alloc: Global,
    assignments: &[Assignment],
) -> Result<Vec<Setting>, AllocError>
    ensures { IfOk result (λ v. map s.seen_setting v.items ≡ map s.setting assignments.now) }
{
    let mut all = Vec::new(alloc);
    for a in assignments {
        all.push(bind_setting(alloc, a)?)?;
    }
    Ok(all)
}
