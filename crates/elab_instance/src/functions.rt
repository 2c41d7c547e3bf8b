//! Functions in the design: their locals, and the paths of names (IEEE 1364-2005, clause 10.4).

ghost use Rattle.std.specs.Prelude.{◌≡◌, ℕ, List, ◌++◌, map, IfOk, OnOk};
ghost use Rattle.elab_plain.specs.vl_flat.specs.Items as x;
ghost use Rattle.elab_plain.specs.vl_flat.specs.Functions as f;
ghost use Rattle.elab_constant.specs.Seen.{look};
ghost use Rattle.elab_constant.specs.Types.{numbers};
ghost use Rattle.elab_plain.specs.vl_flat.specs.Scopes.{none};
ghost use Rattle.elab_kinds.specs.Facts.{body_facts_of};
ghost use Rattle.elab_instance.specs.Variables as v;
ghost use Rattle.elab_instance.specs.Tables.{inside};

use crate::variables::{Frame, Variable};
use elab_constant::ranges::{Range, has_range, is_signed, type_range};
use elab_constant::scope::{Known, Names, bind, module_scope};
use elab_kinds::counts::next_number;
use elab_kinds::locals::{BodyRoles, local_kind};
use elab_plain::binding::Shape;
use elab_plain::design::{SigKind, Signal};
use elab_plain::tree::Identifier;
use elab_plain::{Items, Text};
use indexmap::IndexMap;
use std::alloc::{AllocError, Global};

/// A name behind a path and a dot.
pub fn dotted(alloc: Global, path: &[u8], name: &[u8]) -> Result<Text, AllocError>
    ensures { IfOk result (λ t. t ≡ f.dotted path.now name.now) }
{
    let mut bytes = Vec::from_slice(alloc, path)?;
    bytes.push(b'.')?;
    bytes.extend_from_slice(name)?;
    Ok(Items::from_vec(bytes))
}

/// A signal of an instance, or of a function, of this path.
pub fn signal(
    alloc: Global,
    path: &[u8],
    name: &Identifier,
    shape: Shape,
) -> Result<Signal, AllocError>
    ensures { IfOk result (λ s. s ≡ f.signal path.now name.now shape) }
{
    Ok(Signal {
        name: dotted(alloc, path, name.name.as_slice())?,
        place: name.place,
        kind: shape.kind,
        signed: shape.signed,
        left: shape.left,
        right: shape.right,
        first: shape.first,
        last: shape.last,
    })
}

/// What is no memory.
fn plain_shape(kind: SigKind, signed: bool, ranged: bool, range: Range) -> Shape
    ensures { result ≡ v.plain_shape kind signed ranged (numbers range) }
{
    Shape {
        kind,
        signed,
        ranged,
        left: range.left,
        right: range.right,
        first: 0,
        last: 0,
    }
}

/// What a variable of a function is.
fn local_shape(names: &Names<'_>, roles: &BodyRoles<'_>, variable: &Variable<'_>) -> Shape
    ensures { result ≡ v.local_shape (look names.now) (body_facts_of roles.now) (v.seen_variable variable.now) }
{
    let kind = local_kind(roles, variable.is_free, variable.name.name.as_slice());
    let range = type_range(&module_scope(names), variable.kind);
    plain_shape(
        kind,
        is_signed(variable.kind),
        has_range(variable.kind),
        range,
    )
}

/// Gives a variable of a function its meaning.
fn add_local<'m>(
    locals: &mut Names<'m>,
    names: &Names<'_>,
    number: u32,
    roles: &BodyRoles<'_>,
    variable: &Variable<'m>,
) -> Result<(), AllocError>
    ensures { OnOk result (look locals.new ≡ v.with_local (look names.now) (body_facts_of roles.now) number (look locals.old) (v.seen_variable variable.now)) }
{
    let shape = local_shape(names, roles, variable);
    bind(
        locals,
        variable.name.name.as_slice(),
        Known::Signal(number, shape),
    )
}

/// What the variables of a function stand for, in a module with these names: they are numbered behind the design's signals.
pub fn locals<'m>(
    alloc: Global,
    names: &Names<'_>,
    behind: u32,
    frame: &Frame<'m>,
) -> Result<Names<'m>, AllocError>
    ensures table { IfOk result (λ locals. look locals ≡ v.with_own (look names.now) (body_facts_of frame.now.roles) behind none (map v.seen_variable frame.now.variables.items)) }
    ensures function { IfOk result (λ locals. (a : x.Function) → v.IsFrame frame.now a → inside (look names.now) (look locals) ≡ f.function_scope behind (look names.now) a) }
{
    let mut locals = IndexMap::new(alloc);
    let mut number = behind;
    for variable in frame.variables.as_slice() {
        add_local(&mut locals, names, number, &frame.roles, variable)?;
        number = next_number(number)?;
    }
    Ok(locals)
}

/// The signals of a function of this path: its variables.
pub fn local_signals(
    alloc: Global,
    names: &Names<'_>,
    path: &[u8],
    frame: &Frame<'_>,
) -> Result<Vec<Signal>, AllocError>
    ensures table { IfOk result (λ signals. signals.items ≡ map (λ l. f.signal path.now l.name (v.local_shape (look names.now) (body_facts_of frame.now.roles) l)) (map v.seen_variable frame.now.variables.items)) }
    ensures function { IfOk result (λ signals. (a : x.Function) → v.IsFrame frame.now a → signals.items ≡ map (λ l. f.signal path.now l.name (f.local_shape (look names.now) a l)) a.locals) }
{
    let mut signals = Vec::new(alloc);
    for variable in frame.variables.as_slice() {
        let shape = local_shape(names, &frame.roles, variable);
        signals.push(signal(alloc, path, variable.name, shape)?)?;
    }
    Ok(signals)
}

/// The numbers of the inputs among variables, of which the first has this number.
fn numbers_of(
    alloc: Global,
    behind: u32,
    variables: &[Variable<'_>],
) -> Result<Vec<u32>, AllocError>
    ensures { IfOk result (λ numbers. numbers.items ≡ f.input_numbers behind (map v.seen_variable variables.now)) }
{
    let mut numbers = Vec::new(alloc);
    let mut number = behind;
    for variable in variables {
        if variable.is_input {
            numbers.push(number)?;
        }
        number = next_number(number)?;
    }
    Ok(numbers)
}

/// The numbers of the inputs of a function, whose first variable has this number.
pub fn input_numbers(alloc: Global, behind: u32, frame: &Frame<'_>) -> Result<Vec<u32>, AllocError>
    ensures table { IfOk result (λ numbers. numbers.items ≡ f.input_numbers behind (map v.seen_variable frame.now.variables.items)) }
    ensures function { IfOk result (λ numbers. (a : x.Function) → v.IsFrame frame.now a → numbers.items ≡ f.input_numbers behind a.locals) }
{
    numbers_of(alloc, behind, frame.variables.as_slice())
}
