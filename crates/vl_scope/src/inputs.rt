//! The inputs of functions.

ghost use Rattle.std.specs.Prelude.{◌≡◌, ◌++◌, IfOk, OnOk};
ghost use Rattle.vl_scope.specs.Declarations as spec;

use std::alloc::{AllocError, Global};
use vl_tree::source_tree::{Function, FunctionDeclaration};
use vl_tree::tree::Identifier;

/// Adds names at the end.
fn add_names<'a>(names: &mut Vec<&'a Identifier>, more: &'a [Identifier]) -> Result<(), AllocError>
    ensures { OnOk result (spec.names_seen names.new.items ≡ spec.names_seen names.old.items ++ more.entry.now) }
{
    for name in more {
        names.push(name)?;
    }
    Ok(())
}

/// Adds the inputs that stand in a function's parentheses.
fn add_header_inputs<'a>(
    names: &mut Vec<&'a Identifier>,
    function: &'a Function,
) -> Result<(), AllocError>
    ensures { OnOk result (spec.names_seen names.new.items ≡ spec.names_seen names.old.items ++ spec.header_inputs function.entry.now) }
{
    let Some(ports) = &function.ports else {
        return Ok(());
    };
    for port in ports.as_slice() {
        add_names(names, port.names.as_slice())?;
    }
    Ok(())
}

/// Adds the inputs that a declaration in a function's body declares.
fn add_body_inputs<'a>(
    names: &mut Vec<&'a Identifier>,
    declaration: &'a FunctionDeclaration,
) -> Result<(), AllocError>
    ensures { OnOk result (spec.names_seen names.new.items ≡ spec.names_seen names.old.items ++ spec.body_inputs_of declaration.entry.now) }
{
    match declaration {
        FunctionDeclaration::Input(port) => add_names(names, port.names.as_slice()),
        FunctionDeclaration::Reg(_, _, _, _) => Ok(()),
        FunctionDeclaration::Integer(_, _) => Ok(()),
    }
}

/// The inputs in a function's body, in the order of the text.
pub fn body_inputs(alloc: Global, function: &Function) -> Result<Vec<&Identifier>, AllocError>
    ensures { IfOk result (λ names. spec.names_seen names.items ≡ spec.body_inputs function.now) }
{
    let mut names = Vec::new(alloc);
    for declaration in function.declarations.as_slice() {
        add_body_inputs(&mut names, declaration)?;
    }
    Ok(names)
}

/// The inputs of a function, in the order of the text.
pub fn function_inputs(alloc: Global, function: &Function) -> Result<Vec<&Identifier>, AllocError>
    ensures { IfOk result (λ names. spec.names_seen names.items ≡ spec.function_inputs function.now) }
{
    let mut names = Vec::new(alloc);
    add_header_inputs(&mut names, function)?;
    for declaration in function.declarations.as_slice() {
        add_body_inputs(&mut names, declaration)?;
    }
    Ok(names)
}
