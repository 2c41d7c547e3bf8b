//! The declarations in functions.

ghost use Rattle.std.specs.Prelude.{◌≡◌, ◌++◌, ◌∷◌, [], map, flat_map, OnOk};
ghost use Rattle.std.specs.Option.{option_map_or};
ghost use Rattle.vl_scope.specs.Declarations as spec;

use crate::declaration::{Declaration, add_declared, declared};
use crate::kind::Class;
use std::alloc::AllocError;
use vl_tree::source_tree::{Function, FunctionDeclaration, FunctionPort, ParameterType};

/// Whether a type has bits to select.
fn is_vector(kind: &ParameterType) -> bool
    ensures { result ≡ spec.is_vector kind.now }
{
    match kind {
        ParameterType::Integer => true,
        ParameterType::Vector(_, range) => range.is_some(),
    }
}

/// Adds the variables that inputs are.
fn add_input<'a>(
    declarations: &mut Vec<Declaration<'a>>,
    port: &'a FunctionPort,
) -> Result<(), AllocError>
    ensures { OnOk result (spec.all_seen declarations.new.items ≡ spec.all_seen declarations.old.items ++ spec.input_declarations port.entry.now) }
{
    let vector = is_vector(&port.kind);
    add_declared(declarations, Class::Variable, vector, port.names.as_slice())
}

/// Adds the variables that inputs in a function's parentheses are.
fn add_header<'a>(
    declarations: &mut Vec<Declaration<'a>>,
    function: &'a Function,
) -> Result<(), AllocError>
    ensures { OnOk result (spec.all_seen declarations.new.items ≡ spec.all_seen declarations.old.items ++ option_map_or (flat_map spec.input_declarations) function.entry.now.ports []) }
{
    let Some(ports) = &function.ports else {
        return Ok(());
    };
    for port in ports.as_slice() {
        add_input(declarations, port)?;
    }
    Ok(())
}

/// Adds the variables that a declaration in a function's body declares.
fn add_body<'a>(
    declarations: &mut Vec<Declaration<'a>>,
    declaration: &'a FunctionDeclaration,
) -> Result<(), AllocError>
    ensures { OnOk result (spec.all_seen declarations.new.items ≡ spec.all_seen declarations.old.items ++ spec.body_declarations declaration.entry.now) }
{
    match declaration {
        FunctionDeclaration::Input(port) => add_input(declarations, port),
        FunctionDeclaration::Reg(_, _, range, names) => add_declared(
            declarations,
            Class::Variable,
            range.is_some(),
            names.as_slice(),
        ),
        FunctionDeclaration::Integer(_, names) => {
            add_declared(declarations, Class::Variable, true, names.as_slice())
        }
    }
}

/// Adds the declarations in a function.
pub fn add_locals<'a>(
    declarations: &mut Vec<Declaration<'a>>,
    function: &'a Function,
) -> Result<(), AllocError>
    ensures { OnOk result (spec.all_seen declarations.new.items ≡ spec.all_seen declarations.old.items ++ spec.function_declarations function.entry.now) }
{
    let vector = is_vector(&function.kind);
    declarations.push(declared(Class::Variable, vector, &function.name))?;
    add_header(declarations, function)?;
    for declaration in function.declarations.as_slice() {
        add_body(declarations, declaration)?;
    }
    Ok(())
}
