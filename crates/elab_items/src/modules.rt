//! Items and modules.

ghost use Rattle.std.specs.Prelude.{◌≡◌, ◌++◌, [], map, IfOk};
ghost use Rattle.std.specs.Option.{option_map_or};
ghost use Rattle.elab_plain.specs.vl_flat.specs.Declarations as d;
ghost use Rattle.elab_plain.specs.SeenItems as s;

use crate::functions::bind_function;
use crate::headers::{listed, overridable};
use crate::instances::bind_instances;
use crate::parameters::{bind_group, bind_parameters, bind_settings};
use crate::signals::{assigned_nets, bind_ports, variables, vector_signals};
use crate::triggers::copied_trigger;
use crate::types::copied_name;
use elab_bind::statements::bind_statement;
use elab_plain::items::{DataType, Item, Module};
use std::alloc::{AllocError, Global};
use vl_tree::parts::Parts;
use vl_tree::source_tree::{
    Item as ItemTree, Module as ModuleTree, ParameterGroup, PortDeclaration, Ports, Source,
};

/// An item.
fn bind_item(alloc: Global, a: &ItemTree) -> Result<Item, AllocError>
    ensures { IfOk result (λ b. s.seen_item b ≡ d.item a.now) }
{
    match a {
        ItemTree::Port(ports) => bind_ports(alloc, ports),
        ItemTree::Parameter(_, _, kind, assignments) => {
            bind_parameters(alloc, kind, assignments.as_slice())
        }
        ItemTree::Wire(_, signed, range, declared) => {
            let all = assigned_nets(alloc, declared.as_slice())?;
            vector_signals(alloc, *signed, range, all)
        }
        ItemTree::Reg(_, signed, range, declared) => {
            let all = variables(alloc, declared.as_slice())?;
            vector_signals(alloc, *signed, range, all)
        }
        ItemTree::Integer(_, declared) => {
            let all = variables(alloc, declared.as_slice())?;
            Ok(Item::Signals(DataType::Integer, all))
        }
        ItemTree::Assign(_, assignments) => {
            let settings = bind_settings(alloc, assignments.as_slice())?;
            Ok(Item::Assigns(settings))
        }
        ItemTree::Initial(at, body) => {
            let body = bind_statement(alloc, body)?;
            Ok(Item::Initial(*at, body))
        }
        ItemTree::Always(at, trigger, body) => {
            let trigger = copied_trigger(alloc, trigger)?;
            let body = bind_statement(alloc, body)?;
            Ok(Item::Always(*at, trigger, body))
        }
        ItemTree::Function(function) => {
            let function = bind_function(alloc, function)?;
            Ok(Item::Functions(function))
        }
        ItemTree::Instance(instance) => {
            let instances = bind_instances(alloc, instance)?;
            Ok(Item::Instantiates(instances))
        }
    }
}

/// The groups of a header's parameters.
fn bind_groups(alloc: Global, groups: &[ParameterGroup]) -> Result<Vec<Item>, AllocError>
    ensures { IfOk result (λ v. map s.seen_item v.items ≡ map d.header_parameters groups.now) }
{
    let mut all = Vec::new(alloc);
    for a in groups {
        all.push(bind_group(alloc, a)?)?;
    }
    Ok(all)
}

/// The groups of a header's parameters, where it has some.
fn header_groups(
    alloc: Global,
    groups: &Option<Parts<ParameterGroup>>,
) -> Result<Vec<Item>, AllocError>
    ensures { IfOk result (λ v. map s.seen_item v.items ≡ option_map_or (map d.header_parameters) groups.now []) }
{
    match groups {
        None => Ok(Vec::new(alloc)),
        Some(groups) => bind_groups(alloc, groups.as_slice()),
    }
}

/// Adds what a header's declarations of ports declare.
fn add_ports(
    alloc: Global,
    mut all: Vec<Item>,
    ports: &[PortDeclaration],
) -> Result<Vec<Item>, AllocError>
    ensures { IfOk result (λ v. map s.seen_item v.items ≡ map s.seen_item all.items ++ map s.port_item ports.now) }
{
    for a in ports {
        all.push(bind_ports(alloc, a)?)?;
    }
    Ok(all)
}

/// Adds what a header's ports declare.
fn add_header(alloc: Global, all: Vec<Item>, ports: &Option<Ports>) -> Result<Vec<Item>, AllocError>
    ensures { IfOk result (λ v. map s.seen_item v.items ≡ map s.seen_item all.items ++ d.header_ports ports.now) }
{
    match ports {
        Some(Ports::Declarations(ports)) => add_ports(alloc, all, ports.as_slice()),
        Some(Ports::Names(_)) | Some(Ports::Empty) | None => Ok(all),
    }
}

/// Adds items.
fn add_items(alloc: Global, mut all: Vec<Item>, items: &[ItemTree]) -> Result<Vec<Item>, AllocError>
    ensures { IfOk result (λ v. map s.seen_item v.items ≡ map s.seen_item all.items ++ map d.item items.now) }
{
    for a in items {
        all.push(bind_item(alloc, a)?)?;
    }
    Ok(all)
}

/// The items of a module, those of the header first.
fn items_of(alloc: Global, m: &ModuleTree) -> Result<Vec<Item>, AllocError>
    ensures { IfOk result (λ v. map s.seen_item v.items ≡ s.items_of m.now) }
{
    let groups = header_groups(alloc, &m.parameters)?;
    let header = add_header(alloc, groups, &m.ports)?;
    add_items(alloc, header, m.items.as_slice())
}

/// A module.
fn bind_module(alloc: Global, m: &ModuleTree) -> Result<Module, AllocError>
    ensures { IfOk result (λ b. s.seen_module b ≡ d.module' m.now) }
{
    let name = copied_name(alloc, &m.name)?;
    let ports = listed(alloc, &m.ports)?;
    let parameters = overridable(alloc, m)?;
    let items = items_of(alloc, m)?;
    Ok(Module {
        name,
        ports,
        parameters,
        items,
    })
}

/// Modules one by one.
fn bind_modules(alloc: Global, modules: &[ModuleTree]) -> Result<Vec<Module>, AllocError>
    ensures { IfOk result (λ v. map s.seen_module v.items ≡ map d.module' modules.now) }
{
    let mut all = Vec::new(alloc);
    for m in modules {
        all.push(bind_module(alloc, m)?)?;
    }
    Ok(all)
}

/// A source's modules with their operators bound.
pub fn prepare(alloc: Global, source: &Source) -> Result<Vec<Module>, AllocError>
    ensures { IfOk result (λ ms. map s.seen_module ms.items ≡ d.modules source.now) }
{
    bind_modules(alloc, source.modules.as_slice())
}
