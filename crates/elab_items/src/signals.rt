//! Declarations of signals.

ghost use Rattle.std.specs.Prelude.{◌≡◌, Some, map, option_map, IfOk};
ghost use Rattle.elab_plain.specs.vl_flat.specs.Items as x;
ghost use Rattle.elab_plain.specs.vl_flat.specs.Declarations as d;
ghost use Rattle.elab_plain.specs.Seen.{seen};
ghost use Rattle.elab_plain.specs.SeenItems as s;

use crate::types::{bind_bounds, bind_value, copied_name, vector};
use elab_bind::expressions::bind;
use elab_plain::items::{Bounds, DataType, Declared, Item};
use elab_plain::surface::Ex;
use std::alloc::{AllocError, Global};
use vl_tree::source_tree::{
    DeclarationAssignment, Direction, PortDeclaration, Range, VariableMore, VariableType,
};
use vl_tree::tree::Identifier;

/// A declaration with these parts, of any type.
fn declaration(
    name: Identifier,
    direction: Option<Direction>,
    variable: bool,
    words: Option<Bounds>,
    value: Option<Ex>,
) -> Declared
    ensures { (type : x.DataType) → s.seen_declared type result ≡ record { name = name; direction = direction; variable = variable; type = type; words = option_map s.seen_bounds words; value = option_map seen value } }
{
    Declared {
        name,
        direction,
        variable,
        words,
        value,
    }
}

/// The declaration of a port of this direction.
fn net_port(alloc: Global, direction: Direction, name: &Identifier) -> Result<Declared, AllocError>
    ensures { IfOk result (λ a. (type : x.DataType) → s.seen_declared type a ≡ d.net (Some direction) type name.now) }
{
    let copy = copied_name(alloc, name)?;
    Ok(declaration(copy, Some(direction), false, None, None))
}

/// The declarations of ports of this direction.
fn net_ports(
    alloc: Global,
    direction: Direction,
    names: &[Identifier],
) -> Result<Vec<Declared>, AllocError>
    ensures { IfOk result (λ v. (type : x.DataType) → map (s.seen_declared type) v.items ≡ map (d.net (Some direction) type) names.now) }
{
    let mut all = Vec::new(alloc);
    for n in names {
        all.push(net_port(alloc, direction, n)?)?;
    }
    Ok(all)
}

/// The declaration of an output variable.
fn output_variable(alloc: Global, a: &DeclarationAssignment) -> Result<Declared, AllocError>
    ensures { IfOk result (λ b. (type : x.DataType) → s.seen_declared type b ≡ d.output_variable type a.now) }
{
    let name = copied_name(alloc, &a.name)?;
    let value = bind_value(alloc, &a.value)?;
    let direction = Some(Direction::Output);
    Ok(declaration(name, direction, true, None, value))
}

/// The declarations of output variables.
fn output_variables(
    alloc: Global,
    declared: &[DeclarationAssignment],
) -> Result<Vec<Declared>, AllocError>
    ensures { IfOk result (λ v. (type : x.DataType) → map (s.seen_declared type) v.items ≡ map (d.output_variable type) declared.now) }
{
    let mut all = Vec::new(alloc);
    for a in declared {
        all.push(output_variable(alloc, a)?)?;
    }
    Ok(all)
}

/// The declaration of a net.
fn assigned_net(alloc: Global, a: &DeclarationAssignment) -> Result<Declared, AllocError>
    ensures { IfOk result (λ b. (type : x.DataType) → s.seen_declared type b ≡ d.assigned_net type a.now) }
{
    let name = copied_name(alloc, &a.name)?;
    let value = bind_value(alloc, &a.value)?;
    Ok(declaration(name, None, false, None, value))
}

/// The declarations of nets.
pub(crate) fn assigned_nets(
    alloc: Global,
    declared: &[DeclarationAssignment],
) -> Result<Vec<Declared>, AllocError>
    ensures { IfOk result (λ v. (type : x.DataType) → map (s.seen_declared type) v.items ≡ map (d.assigned_net type) declared.now) }
{
    let mut all = Vec::new(alloc);
    for a in declared {
        all.push(assigned_net(alloc, a)?)?;
    }
    Ok(all)
}

/// The declaration of a variable.
fn variable(alloc: Global, a: &VariableType) -> Result<Declared, AllocError>
    ensures { IfOk result (λ b. (type : x.DataType) → s.seen_declared type b ≡ d.variable type a.now) }
{
    let name = copied_name(alloc, &a.name)?;
    match &a.more {
        None => Ok(declaration(name, None, true, None, None)),
        Some(VariableMore::Words(range)) => {
            let words = bind_bounds(alloc, range)?;
            Ok(declaration(name, None, true, Some(words), None))
        }
        Some(VariableMore::Value(e)) => {
            let value = bind(alloc, e)?;
            Ok(declaration(name, None, true, None, Some(value)))
        }
    }
}

/// The declarations of variables.
pub(crate) fn variables(
    alloc: Global,
    declared: &[VariableType],
) -> Result<Vec<Declared>, AllocError>
    ensures { IfOk result (λ v. (type : x.DataType) → map (s.seen_declared type) v.items ≡ map (d.variable type) declared.now) }
{
    let mut all = Vec::new(alloc);
    for a in declared {
        all.push(variable(alloc, a)?)?;
    }
    Ok(all)
}

/// Signals of the type with this sign and this range.
pub(crate) fn vector_signals(
    alloc: Global,
    signed: bool,
    range: &Option<Range>,
    all: Vec<Declared>,
) -> Result<Item, AllocError>
    ensures { IfOk result (λ a. s.seen_item a ≡ x.Signals (map (s.seen_declared (d.vector signed range.now)) all.items)) }
{
    let kind = vector(alloc, signed, range)?;
    Ok(Item::Signals(kind, all))
}

/// What a port declaration declares (IEEE 1364-2005, clauses 12.3.3 and 12.3.4).
pub(crate) fn bind_ports(alloc: Global, a: &PortDeclaration) -> Result<Item, AllocError>
    ensures { IfOk result (λ b. s.seen_item b ≡ x.Signals (d.ports_in a.now)) }
{
    match a {
        PortDeclaration::Net(_, direction, _, signed, range, names) => {
            let all = net_ports(alloc, *direction, names.as_slice())?;
            vector_signals(alloc, *signed, range, all)
        }
        PortDeclaration::Reg(_, signed, range, declared) => {
            let all = output_variables(alloc, declared.as_slice())?;
            vector_signals(alloc, *signed, range, all)
        }
        PortDeclaration::Integer(_, declared) => {
            let all = output_variables(alloc, declared.as_slice())?;
            Ok(Item::Signals(DataType::Integer, all))
        }
    }
}
