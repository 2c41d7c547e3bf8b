//! The types of declarations, and the values of parameters (IEEE 1364-2005, clauses 4.3, 4.8, 4.10 and 12.2).

ghost use Rattle.std.specs.Prelude.{◌≡◌, ◌≤◌, ◌<◌, option_map};
ghost use Rattle.elab_plain.specs.vl_flat.specs.Scopes.{plainly};
ghost use Rattle.elab_plain.specs.vl_flat.specs.Expressions as flat;
ghost use Rattle.elab_plain.specs.vl_flat.specs.Ranges as r;
ghost use Rattle.elab_plain.specs.vl_flat.specs.Parameters as p;
ghost use Rattle.elab_plain.specs.Seen.{seen};
ghost use Rattle.elab_constant.specs.Seen.{seen_scope};
ghost use Rattle.elab_constant.specs.Types.{numbers, constant_of, unranged};
ghost use Rattle.elab_plain.specs.SeenItems.{seen_bounds, seen_type};

use crate::scope::{Scope, Value};
use crate::whole::{assigned_value, bound, own_value};
use elab_plain::items::{Bounds, DataType};
use elab_plain::surface::Ex;
use vl_design::design::Form;

/// The numbers of the highest and the lowest bit.
#[derive(Clone, Copy)]
pub struct Range {
    /// The number of the highest bit.
    pub left: i32,
    /// The number of the lowest bit.
    pub right: i32,
}

/// How many bits a range has.
pub fn bits_in(range: Range) -> u64
    ensures { result ≡ r.bits_in (numbers range) }
{
    u64::from(range.left.abs_diff(range.right)) + 1
}

/// The numbers fall to the right.
pub fn falls(range: Range) -> bool
    ensures { result ≡ flat.falls (numbers range) }
{
    range.right <= range.left
}

/// The two bounds of a range.
fn bounds_of(scope: &Scope<'_, '_>, range: &Bounds) -> Range
    ensures { numbers result ≡ r.bounds_of (seen_scope scope.now).names (seen_bounds range.now) }
{
    Range {
        left: bound(scope, &range.left),
        right: bound(scope, &range.right),
    }
}

/// The bounds of a range, or `[0:0]` where there is none.
pub fn optional_bounds(scope: &Scope<'_, '_>, range: &Option<Bounds>) -> Range
    ensures { numbers result ≡ r.optional_bounds (seen_scope scope.now).names (option_map seen_bounds range.now) }
{
    match range {
        None => Range { left: 0, right: 0 },
        Some(range) => bounds_of(scope, range),
    }
}

/// The range of a type as it is written.
fn written(scope: &Scope<'_, '_>, kind: &DataType) -> Range
    ensures { numbers result ≡ r.written (seen_scope scope.now).names (seen_type kind.now) }
{
    match kind {
        DataType::Integer => Range { left: 31, right: 0 },
        DataType::Vector(_, range) => optional_bounds(scope, range),
    }
}

/// The type is signed.
pub fn is_signed(kind: &DataType) -> bool
    ensures { result ≡ r.is_signed (seen_type kind.now) }
{
    match kind {
        DataType::Integer => true,
        DataType::Vector(signed, _) => *signed,
    }
}

/// The range of a type as it is written has more than 128 bits.
pub fn is_wide(scope: &Scope<'_, '_>, kind: &DataType) -> bool
    ensures { result ≡ r.is_wide (seen_scope scope.now).names (seen_type kind.now) }
{
    bits_in(written(scope, kind)) > 128
}

/// 129 bits in the direction of a range of more than 128.
#[tactic(auto, using(crate::proofs::WideRanges::ranges))]
fn too_wide(range: Range) -> Range
    requires { 128 < r.bits_in (numbers range) }
    ensures { numbers result ≡ r.too_wide (numbers range) }
{
    let left = if falls(range) {
        range.right + 128
    } else {
        range.right - 128
    };
    Range {
        left,
        right: range.right,
    }
}

/// The range of a type; one of more than 128 bits counts as that of 129 in its direction.
#[tactic(auto, using(crate::proofs::WideRanges::ranges))]
pub fn type_range(scope: &Scope<'_, '_>, kind: &DataType) -> Range
    ensures same { numbers result ≡ r.type_range (seen_scope scope.now).names (seen_type kind.now) }
    ensures narrow { r.bits_in (numbers result) ≤ 129 }
{
    let range = written(scope, kind);
    if bits_in(range) > 128 {
        too_wide(range)
    } else {
        range
    }
}

/// The range of a parameter's type; one of more than 128 bits counts as that of one bit.
fn parameter_range(scope: &Scope<'_, '_>, kind: &DataType) -> Range
    ensures same { numbers result ≡ r.parameter_range (seen_scope scope.now).names (seen_type kind.now) }
    ensures narrow { r.bits_in (numbers result) ≤ 128 }
{
    let range = written(scope, kind);
    if bits_in(range) > 128 {
        Range { left: 0, right: 0 }
    } else {
        range
    }
}

/// A declaration of a type says which bits there are: by a range, or as an `integer`.
pub fn has_range(kind: &DataType) -> bool
    ensures { result ≡ r.has_range (seen_type kind.now) }
{
    match kind {
        DataType::Integer => true,
        DataType::Vector(_, range) => range.is_some(),
    }
}

/// The width and the sign of a type.
pub fn type_form(scope: &Scope<'_, '_>, kind: &DataType) -> Form
    ensures { result ≡ r.type_form (seen_scope scope.now).names (seen_type kind.now) }
{
    Form {
        width: bits_in(type_range(scope, kind)) as u32,
        signed: is_signed(kind),
    }
}

/// A parameter's value with the bits of its type.
fn ranged(range: Range, signed: bool, above: &Scope<'_, '_>, e: &Ex) -> Value
    requires { r.bits_in (numbers range) ≤ 128 }
    ensures { constant_of result ≡ p.ranged (flat.constant (plainly (seen_scope above.now).names) (seen e.now)) (numbers range) signed }
{
    let width = bits_in(range) as u8;
    Value {
        bits: assigned_value(above, e, width),
        signed,
        left: range.left,
        right: range.right,
    }
}

/// A parameter's value with bits of its own.
fn unranged(signed: bool, above: &Scope<'_, '_>, e: &Ex) -> Value
    ensures { constant_of result ≡ unranged signed (flat.constant (plainly (seen_scope above.now).names) (seen e.now)) }
{
    let own = own_value(above, e);
    Value {
        bits: own.bits,
        signed: signed || own.signed,
        left: i32::from(own.bits.width) - 1,
        right: 0,
    }
}

/// A parameter of a type, whose value is a constant of another scope: a range or `integer` converts it, `signed` alone keeps its width,
/// and without a type it keeps its sign too.
pub fn converted(scope: &Scope<'_, '_>, kind: &DataType, above: &Scope<'_, '_>, e: &Ex) -> Value
    ensures { constant_of result ≡ p.converted (seen_scope scope.now).names (seen_type kind.now) (flat.constant (plainly (seen_scope above.now).names) (seen e.now)) }
{
    match kind {
        DataType::Vector(signed, None) => unranged(*signed, above, e),
        _ => ranged(parameter_range(scope, kind), is_signed(kind), above, e),
    }
}
