//! Types, values and names of declarations.

ghost use Rattle.std.specs.Prelude.{◌≡◌, option_map, IfOk};
ghost use Rattle.elab_plain.specs.vl_flat.specs.Binding.{ex};
ghost use Rattle.elab_plain.specs.vl_flat.specs.Declarations as d;
ghost use Rattle.elab_plain.specs.Seen.{seen};
ghost use Rattle.elab_plain.specs.SeenItems as s;

use elab_bind::expressions::{bind, copied};
use elab_plain::items::{Bounds, DataType};
use elab_plain::surface::Ex;
use std::alloc::{AllocError, Global};
use vl_tree::source_tree::{ParameterType, Range};
use vl_tree::tree::{Expression, Identifier};

/// A copy of a name.
pub fn copied_name(alloc: Global, a: &Identifier) -> Result<Identifier, AllocError>
    ensures { IfOk result (λ b. b ≡ a.now) }
{
    Ok(Identifier {
        place: a.place,
        name: copied(alloc, &a.name)?,
    })
}

/// The bounds of a range.
pub(crate) fn bind_bounds(alloc: Global, r: &Range) -> Result<Bounds, AllocError>
    ensures { IfOk result (λ b. s.seen_bounds b ≡ d.bounds r.now) }
{
    let left = bind(alloc, &r.left)?;
    let right = bind(alloc, &r.right)?;
    Ok(Bounds { left, right })
}

/// The bounds of a range that may stand there.
fn bind_range(alloc: Global, range: &Option<Range>) -> Result<Option<Bounds>, AllocError>
    ensures { IfOk result (λ b. option_map s.seen_bounds b ≡ option_map d.bounds range.now) }
{
    match range {
        None => Ok(None),
        Some(r) => Ok(Some(bind_bounds(alloc, r)?)),
    }
}

/// The type with this sign and this range.
pub(crate) fn vector(
    alloc: Global,
    signed: bool,
    range: &Option<Range>,
) -> Result<DataType, AllocError>
    ensures { IfOk result (λ t. s.seen_type t ≡ d.vector signed range.now) }
{
    Ok(DataType::Vector(signed, bind_range(alloc, range)?))
}

/// The type of a parameter, or of a function's input or result.
pub(crate) fn bind_type(alloc: Global, kind: &ParameterType) -> Result<DataType, AllocError>
    ensures { IfOk result (λ t. s.seen_type t ≡ d.type kind.now) }
{
    match kind {
        ParameterType::Integer => Ok(DataType::Integer),
        ParameterType::Vector(signed, range) => vector(alloc, *signed, range),
    }
}

/// A value that may stand there.
pub(crate) fn bind_value(
    alloc: Global,
    value: &Option<Expression>,
) -> Result<Option<Ex>, AllocError>
    ensures { IfOk result (λ v. option_map seen v ≡ option_map ex value.now) }
{
    match value {
        None => Ok(None),
        Some(e) => Ok(Some(bind(alloc, e)?)),
    }
}
