//! The ports of modules, and the parameters that an instance may override.

ghost use Rattle.std.specs.Prelude.{◌≡◌, ◌++◌, map, flat_map, IfOk};
ghost use Rattle.vl_tree.specs.Hierarchy as h;
ghost use Rattle.elab_plain.specs.SeenItems as s;

use crate::functions::copied_names;
use crate::types::copied_name;
use std::alloc::{AllocError, Global};
use vl_tree::source_tree::{
    DeclarationAssignment, Item, Module, ParameterAssignment, ParameterGroup, ParameterKeyword,
    PortDeclaration, Ports,
};
use vl_tree::tree::Identifier;

/// Adds copies of names.
fn add_names(
    alloc: Global,
    mut all: Vec<Identifier>,
    names: &[Identifier],
) -> Result<Vec<Identifier>, AllocError>
    ensures { IfOk result (λ v. v.items ≡ all.items ++ names.now) }
{
    for n in names {
        all.push(copied_name(alloc, n)?)?;
    }
    Ok(all)
}

/// Adds the names that are declared.
fn add_declared(
    alloc: Global,
    mut all: Vec<Identifier>,
    declared: &[DeclarationAssignment],
) -> Result<Vec<Identifier>, AllocError>
    ensures { IfOk result (λ v. v.items ≡ all.items ++ map s.declared_name declared.now) }
{
    for a in declared {
        all.push(copied_name(alloc, &a.name)?)?;
    }
    Ok(all)
}

/// Adds the names of the ports that are declared.
fn add_ports(
    alloc: Global,
    all: Vec<Identifier>,
    a: &PortDeclaration,
) -> Result<Vec<Identifier>, AllocError>
    ensures { IfOk result (λ v. v.items ≡ all.items ++ h.declared_names a.now) }
{
    match a {
        PortDeclaration::Net(_, _, _, _, _, names) => add_names(alloc, all, names.as_slice()),
        PortDeclaration::Reg(_, _, _, declared) | PortDeclaration::Integer(_, declared) => {
            add_declared(alloc, all, declared.as_slice())
        }
    }
}

/// The names of the ports that a header declares.
fn declared_ports(alloc: Global, ports: &[PortDeclaration]) -> Result<Vec<Identifier>, AllocError>
    ensures { IfOk result (λ v. v.items ≡ flat_map h.declared_names ports.now) }
{
    let mut all = Vec::new(alloc);
    for a in ports {
        all = add_ports(alloc, all, a)?;
    }
    Ok(all)
}

/// The ports in order (IEEE 1364-2005, clause 12.3.2).
pub(crate) fn listed(alloc: Global, ports: &Option<Ports>) -> Result<Vec<Identifier>, AllocError>
    ensures { IfOk result (λ v. v.items ≡ h.header_names ports.now) }
{
    match ports {
        None | Some(Ports::Empty) => Ok(Vec::new(alloc)),
        Some(Ports::Names(names)) => copied_names(alloc, names.as_slice()),
        Some(Ports::Declarations(ports)) => declared_ports(alloc, ports.as_slice()),
    }
}

/// Adds parameters.
fn add_assigned(
    alloc: Global,
    mut all: Vec<Identifier>,
    assignments: &[ParameterAssignment],
) -> Result<Vec<Identifier>, AllocError>
    ensures { IfOk result (λ v. v.items ≡ all.items ++ h.assigned assignments.now) }
{
    for a in assignments {
        all.push(copied_name(alloc, &a.name)?)?;
    }
    Ok(all)
}

/// The parameters of a header.
fn header_names(alloc: Global, groups: &[ParameterGroup]) -> Result<Vec<Identifier>, AllocError>
    ensures { IfOk result (λ v. v.items ≡ flat_map s.group_parameters groups.now) }
{
    let mut all = Vec::new(alloc);
    for a in groups {
        all = add_assigned(alloc, all, a.assignments.as_slice())?;
    }
    Ok(all)
}

/// Adds the parameters that an item declares for an instance's overrides.
fn add_item_names(
    alloc: Global,
    all: Vec<Identifier>,
    a: &Item,
) -> Result<Vec<Identifier>, AllocError>
    ensures { IfOk result (λ v. v.items ≡ all.items ++ h.item_parameters a.now) }
{
    match a {
        Item::Parameter(_, ParameterKeyword::Parameter, _, assignments) => {
            add_assigned(alloc, all, assignments.as_slice())
        }
        _ => Ok(all),
    }
}

/// The parameters of a body.
fn body_names(alloc: Global, items: &[Item]) -> Result<Vec<Identifier>, AllocError>
    ensures { IfOk result (λ v. v.items ≡ flat_map h.item_parameters items.now) }
{
    let mut all = Vec::new(alloc);
    for a in items {
        all = add_item_names(alloc, all, a)?;
    }
    Ok(all)
}

/// The parameters that an instance may override: those of the header where it has some, else those of the body.
pub(crate) fn overridable(alloc: Global, m: &Module) -> Result<Vec<Identifier>, AllocError>
    ensures { IfOk result (λ v. v.items ≡ h.overridable m.now) }
{
    match &m.parameters {
        None => body_names(alloc, m.items.as_slice()),
        Some(groups) => header_names(alloc, groups.as_slice()),
    }
}
