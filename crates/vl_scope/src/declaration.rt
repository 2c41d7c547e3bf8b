//! The declarations of modules and of functions.

ghost use Rattle.std.specs.Prelude.{◌≡◌, ◌<◌, ◌^◌, ◌++◌, [], map, flat_map, IfOk, OnOk};
ghost use Rattle.std.specs.Option.{option_map_or};
ghost use Rattle.vl_scope.specs.Declarations as spec;

pub use crate::inputs::function_inputs;
use crate::items::{add_item, add_parameters};
use crate::kind::{Class, Kind};
use crate::locals::add_locals;
use crate::ports::add_port;
use std::alloc::{AllocError, Global};
use vl_tree::source_tree::{Direction, Function, Module, ParameterGroup, Ports};
use vl_tree::tree::Identifier;

/// A declaration of a name.
#[derive(Clone, Copy)]
pub struct Declaration<'a> {
    /// The name, where it is declared.
    pub name: &'a Identifier,
    /// The direction of a port, if it gives one.
    pub direction: Option<Direction>,
    /// Whether it says what the name is: a net, a variable, a parameter, a function or an instance.
    pub typed: bool,
    /// What it says that the name is.
    pub kind: Kind,
}

/// A declaration that gives no direction.
pub(crate) fn declared(class: Class, vector: bool, name: &Identifier) -> Declaration<'_>
    ensures { spec.seen result ≡ spec.declared class vector name.entry.now }
{
    Declaration {
        name,
        direction: None,
        typed: true,
        kind: Kind { class, vector },
    }
}

/// Adds declarations of names, which give no direction.
pub(crate) fn add_declared<'a>(
    declarations: &mut Vec<Declaration<'a>>,
    class: Class,
    vector: bool,
    names: &'a [Identifier],
) -> Result<(), AllocError>
    ensures { OnOk result (spec.all_seen declarations.new.items ≡ spec.all_seen declarations.old.items ++ map (spec.declared class vector) names.entry.now) }
{
    for name in names {
        declarations.push(declared(class, vector, name))?;
    }
    Ok(())
}

/// Adds the parameters in a module's header.
fn add_header_parameters<'a>(
    declarations: &mut Vec<Declaration<'a>>,
    groups: &'a [ParameterGroup],
) -> Result<(), AllocError>
    ensures { OnOk result (spec.all_seen declarations.new.items ≡ spec.all_seen declarations.old.items ++ flat_map (λ g. spec.parameter_declarations g.assignments) groups.entry.now) }
{
    for group in groups {
        add_parameters(declarations, group.assignments.as_slice())?;
    }
    Ok(())
}

/// Adds the ports that a module's header declares.
fn add_header_ports<'a>(
    declarations: &mut Vec<Declaration<'a>>,
    ports: &'a Option<Ports>,
) -> Result<(), AllocError>
    ensures { OnOk result (spec.all_seen declarations.new.items ≡ spec.all_seen declarations.old.items ++ option_map_or spec.header_declarations ports.entry.now []) }
{
    let Some(Ports::Declarations(ports)) = ports else {
        return Ok(());
    };
    for port in ports.as_slice() {
        add_port(declarations, port)?;
    }
    Ok(())
}

/// The declarations of a module, its parameters not yet numbered.
fn unnumbered(alloc: Global, tree: &Module) -> Result<Vec<Declaration<'_>>, AllocError>
    ensures { IfOk result (λ ds. spec.all_seen ds.items ≡ spec.unnumbered tree.entry.now) }
{
    let mut declarations = Vec::new(alloc);
    if let Some(groups) = &tree.parameters {
        add_header_parameters(&mut declarations, groups.as_slice())?;
    }
    add_header_ports(&mut declarations, &tree.ports)?;
    for item in tree.items.as_slice() {
        add_item(alloc, &mut declarations, item)?;
    }
    Ok(declarations)
}

/// Whether a class is a parameter's.
fn is_parameter(class: Class) -> bool
    ensures { result ≡ spec.is_parameter class }
{
    matches!(class, Class::Parameter(_))
}

/// A declaration with its number, where it is a parameter's.
fn with_number(declaration: Declaration<'_>, number: usize) -> Declaration<'_>
    ensures { spec.seen result ≡ spec.with_number number (spec.seen declaration.entry) }
{
    if !is_parameter(declaration.kind.class) {
        return declaration;
    }
    Declaration {
        name: declaration.name,
        direction: declaration.direction,
        typed: declaration.typed,
        kind: Kind {
            class: Class::Parameter(number),
            vector: declaration.kind.vector,
        },
    }
}

/// The number of the next parameter.
fn number_after(number: usize, declaration: Declaration<'_>) -> usize
    requires { number < 2 ^ 63 }
    ensures { result ≡ spec.number_after number (spec.seen declaration.entry) }
{
    if is_parameter(declaration.kind.class) {
        number + 1
    } else {
        number
    }
}

/// The declarations with their parameters numbered.
fn numbered<'a>(
    alloc: Global,
    declarations: &[Declaration<'a>],
) -> Result<Vec<Declaration<'a>>, AllocError>
    ensures { IfOk result (λ ds. spec.all_seen ds.items ≡ spec.numbered 0 (spec.all_seen declarations.now)) }
{
    let mut number = 0;
    let mut numbered = Vec::new(alloc);
    for declaration in declarations {
        numbered.push(with_number(*declaration, number))?;
        number = number_after(number, *declaration);
    }
    Ok(numbered)
}

/// The declarations of a module, in the order of the text.
pub fn module_declarations(alloc: Global, tree: &Module) -> Result<Vec<Declaration<'_>>, AllocError>
    ensures { IfOk result (λ ds. spec.all_seen ds.items ≡ spec.declarations tree.now) }
{
    let declarations = unnumbered(alloc, tree)?;
    numbered(alloc, &declarations)
}

/// The declarations in a function: its result, then its inputs and variables in the order of the text.
pub fn function_declarations(
    alloc: Global,
    function: &Function,
) -> Result<Vec<Declaration<'_>>, AllocError>
    ensures { IfOk result (λ ds. spec.all_seen ds.items ≡ spec.function_declarations function.now) }
{
    let mut declarations = Vec::new(alloc);
    add_locals(&mut declarations, function)?;
    Ok(declarations)
}
