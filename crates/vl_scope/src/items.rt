//! The declarations that a module's items make.

ghost use Rattle.std.specs.Prelude.{◌≡◌, ◌++◌, false, length, map, IfOk, OnOk};
ghost use Rattle.vl_scope.specs.Declarations as spec;
ghost use Rattle.vl_scope.specs.declared.kind.Class.TheVariants as class;

use crate::declaration::{Declaration, declared};
use crate::inputs::function_inputs;
use crate::kind::Class;
use crate::ports::add_port;
use std::alloc::{AllocError, Global};
use vl_tree::source_tree::{
    DeclarationAssignment, Function, Item, NamedInstance, ParameterAssignment, VariableMore,
    VariableType,
};

/// Adds parameters, whose numbers aren't told yet.
pub fn add_parameters<'a>(
    declarations: &mut Vec<Declaration<'a>>,
    assignments: &'a [ParameterAssignment],
) -> Result<(), AllocError>
    ensures { OnOk result (spec.all_seen declarations.new.items ≡ spec.all_seen declarations.old.items ++ spec.parameter_declarations assignments.entry.now) }
{
    for assignment in assignments {
        declarations.push(declared(Class::Parameter(0), true, &assignment.name))?;
    }
    Ok(())
}

/// Adds nets.
fn add_nets<'a>(
    declarations: &mut Vec<Declaration<'a>>,
    vector: bool,
    assignments: &'a [DeclarationAssignment],
) -> Result<(), AllocError>
    ensures { OnOk result (spec.all_seen declarations.new.items ≡ spec.all_seen declarations.old.items ++ map (λ a. spec.declared class.Net vector a.name) assignments.entry.now) }
{
    for assignment in assignments {
        declarations.push(declared(Class::Net, vector, &assignment.name))?;
    }
    Ok(())
}

/// What `reg` or `integer` declares.
fn variable_class(more: &Option<VariableMore>) -> Class
    ensures { result ≡ spec.variable_class more.now }
{
    match more {
        None => Class::Variable,
        Some(VariableMore::Words(_)) => Class::Memory,
        Some(VariableMore::Value(_)) => Class::Variable,
    }
}

/// Adds variables and memories.
fn add_variables<'a>(
    declarations: &mut Vec<Declaration<'a>>,
    vector: bool,
    variables: &'a [VariableType],
) -> Result<(), AllocError>
    ensures { OnOk result (spec.all_seen declarations.new.items ≡ spec.all_seen declarations.old.items ++ map (λ a. spec.declared (spec.variable_class a.more) vector a.name) variables.entry.now) }
{
    for variable in variables {
        let class = variable_class(&variable.more);
        declarations.push(declared(class, vector, &variable.name))?;
    }
    Ok(())
}

/// Adds instances.
fn add_instances<'a>(
    declarations: &mut Vec<Declaration<'a>>,
    instances: &'a [NamedInstance],
) -> Result<(), AllocError>
    ensures { OnOk result (spec.all_seen declarations.new.items ≡ spec.all_seen declarations.old.items ++ map (λ n. spec.declared class.Instance false n.name) instances.entry.now) }
{
    for instance in instances {
        declarations.push(declared(Class::Instance, false, &instance.name))?;
    }
    Ok(())
}

/// A declaration of a function.
fn function(alloc: Global, tree: &Function) -> Result<Declaration<'_>, AllocError>
    ensures { IfOk result (λ a. spec.seen a ≡ spec.declared (class.Function (length (spec.function_inputs tree.entry.now))) false tree.entry.now.name) }
{
    let inputs = function_inputs(alloc, tree)?;
    Ok(declared(Class::Function(inputs.len()), false, &tree.name))
}

/// Adds the declarations that an item makes.
pub fn add_item<'a>(
    alloc: Global,
    declarations: &mut Vec<Declaration<'a>>,
    item: &'a Item,
) -> Result<(), AllocError>
    ensures { OnOk result (spec.all_seen declarations.new.items ≡ spec.all_seen declarations.old.items ++ spec.item_declarations item.entry.now) }
{
    match item {
        Item::Port(port) => add_port(declarations, port),
        Item::Parameter(_, _, _, assignments) => {
            add_parameters(declarations, assignments.as_slice())
        }
        Item::Wire(_, _, range, assignments) => {
            add_nets(declarations, range.is_some(), assignments.as_slice())
        }
        Item::Reg(_, _, range, variables) => {
            add_variables(declarations, range.is_some(), variables.as_slice())
        }
        Item::Integer(_, variables) => add_variables(declarations, true, variables.as_slice()),
        Item::Function(tree) => {
            declarations.push(function(alloc, tree)?)?;
            Ok(())
        }
        Item::Instance(instance) => add_instances(declarations, instance.instances.as_slice()),
        Item::Assign(_, _) => Ok(()),
        Item::Initial(_, _) => Ok(()),
        Item::Always(_, _, _) => Ok(()),
    }
}
