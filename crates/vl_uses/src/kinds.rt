//! What may be used how, by what it is.

ghost use Rattle.std.specs.Prelude.{◌≡◌, not};
ghost use Rattle.vl_scope.specs.Declarations as scope;
ghost use Rattle.vl_uses.specs.UseFaults as spec;

use crate::setting::Side;
use vl_scope::kind::{Class, Kind};
use vl_tree::tree::Select;

/// Whether a name isn't declared where so many parameters are, or isn't yet.
pub fn is_unknown(parameters: usize, kind: Option<Kind>) -> bool
    ensures { result ≡ spec.is_unknown parameters kind }
{
    match kind {
        None => true,
        Some(kind) => match kind.class {
            Class::Parameter(number) => number >= parameters,
            _ => false,
        },
    }
}

/// Whether a value may have such selects.
fn selects_bits(vector: bool, selects: &[Select]) -> bool
    ensures { result ≡ spec.selects_bits vector selects.now }
{
    match selects {
        [] => true,
        [_] => vector,
        _ => false,
    }
}

/// Whether a memory may have such selects.
fn selects_word(vector: bool, selects: &[Select]) -> bool
    ensures { result ≡ spec.selects_word vector selects.now }
{
    match selects {
        [] => false,
        [first, others @ ..] => first.second.is_none() && selects_bits(vector, others),
    }
}

/// Whether what is of this kind may be read with such selects.
fn is_readable(kind: Kind, selects: &[Select]) -> bool
    ensures { result ≡ spec.is_readable kind.class kind.vector selects.now }
{
    match kind.class {
        Class::Memory => selects_word(kind.vector, selects),
        Class::Function(_) | Class::Instance => false,
        _ => selects_bits(kind.vector, selects),
    }
}

/// Whether a name is read as what it isn't.
pub fn is_misread(kind: Option<Kind>, selects: &[Select]) -> bool
    ensures { result ≡ spec.means_other (λ kind. spec.is_readable kind.class kind.vector selects.now) kind }
{
    match kind {
        None => false,
        Some(kind) => !is_readable(kind, selects),
    }
}

/// Whether what is of this kind may stand on a left side with such selects.
fn is_assignable(side: Side, kind: Kind, selects: &[Select]) -> bool
    ensures { result ≡ spec.is_assignable side kind.class kind.vector selects.now }
{
    match (side, kind.class) {
        (Side::Continuous, Class::Port | Class::Net) => selects_bits(kind.vector, selects),
        (Side::Procedural, Class::Variable) => selects_bits(kind.vector, selects),
        (Side::Procedural, Class::Memory) => selects_word(kind.vector, selects),
        _ => false,
    }
}

/// Whether a name is assigned as what it isn't.
pub fn is_misassigned(side: Side, kind: Option<Kind>, selects: &[Select]) -> bool
    ensures { result ≡ spec.means_other (λ kind. spec.is_assignable side kind.class kind.vector selects.now) kind }
{
    match kind {
        None => false,
        Some(kind) => !is_assignable(side, kind, selects),
    }
}

/// Whether a name stands in a trigger as what it isn't.
pub fn is_mistriggered(kind: Option<Kind>) -> bool
    ensures { result ≡ spec.means_other (λ kind. spec.is_watchable kind.class) kind }
{
    match kind {
        None => false,
        Some(kind) => !matches!(kind.class, Class::Port | Class::Net | Class::Variable),
    }
}

/// Whether a name is called as what it isn't: a function of so many inputs.
pub fn is_miscalled(arguments: usize, kind: Option<Kind>) -> bool
    ensures { result ≡ spec.means_other (λ kind. spec.is_callable arguments kind.class) kind }
{
    match kind {
        None => false,
        Some(kind) => kind.class != Class::Function(arguments),
    }
}

/// Whether a name means something that is no parameter.
fn is_no_parameter(kind: Option<Kind>) -> bool
    ensures { result ≡ spec.means_other (λ kind. scope.is_parameter kind.class) kind }
{
    match kind {
        None => false,
        Some(kind) => !matches!(kind.class, Class::Parameter(_)),
    }
}

/// Whether a name with such selects isn't constant.
pub fn is_varying(kind: Option<Kind>, selects: &[Select]) -> bool
    ensures { result ≡ spec.is_varying kind selects.now }
{
    !selects.is_empty() || is_no_parameter(kind)
}
