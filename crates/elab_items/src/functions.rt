//! Functions (IEEE 1364-2005, clause 10.4.1).

ghost use Rattle.std.specs.Prelude.{◌≡◌, ◌++◌, true, false, [], map, flat_map, IfOk};
ghost use Rattle.std.specs.Option.{option_map_or};
ghost use Rattle.elab_plain.specs.vl_flat.specs.Declarations as d;
ghost use Rattle.elab_plain.specs.SeenItems as s;

use crate::types::{bind_type, copied_name, vector};
use elab_bind::statements::bind_statement;
use elab_plain::items::{DataType, Function, Locals};
use std::alloc::{AllocError, Global};
use vl_tree::parts::Parts;
use vl_tree::source_tree::{Function as FunctionTree, FunctionDeclaration, FunctionPort};
use vl_tree::tree::Identifier;

/// Copies of names.
pub(crate) fn copied_names(
    alloc: Global,
    names: &[Identifier],
) -> Result<Vec<Identifier>, AllocError>
    ensures { IfOk result (λ v. v.items ≡ names.now) }
{
    let mut all = Vec::new(alloc);
    for n in names {
        all.push(copied_name(alloc, n)?)?;
    }
    Ok(all)
}

/// Inputs of one type.
fn bind_inputs(alloc: Global, a: &FunctionPort) -> Result<Locals, AllocError>
    ensures { IfOk result (λ b. s.seen_locals b ≡ d.inputs_in a.now) }
{
    let names = copied_names(alloc, a.names.as_slice())?;
    let kind = bind_type(alloc, &a.kind)?;
    Ok(Locals {
        kind,
        is_input: true,
        is_free: false,
        names,
    })
}

/// Variables of this type that are no inputs.
fn free_locals(kind: DataType, names: Vec<Identifier>) -> Locals
    ensures { s.seen_locals result ≡ map (d.local false true (s.seen_type kind)) names.items }
{
    Locals {
        kind,
        is_input: false,
        is_free: true,
        names,
    }
}

/// What a declaration in a function declares.
fn bind_locals(alloc: Global, a: &FunctionDeclaration) -> Result<Locals, AllocError>
    ensures { IfOk result (λ b. s.seen_locals b ≡ d.locals_in a.now) }
{
    match a {
        FunctionDeclaration::Input(port) => bind_inputs(alloc, port),
        FunctionDeclaration::Reg(_, signed, range, names) => {
            let names = copied_names(alloc, names.as_slice())?;
            let kind = vector(alloc, *signed, range)?;
            Ok(free_locals(kind, names))
        }
        FunctionDeclaration::Integer(_, names) => {
            let names = copied_names(alloc, names.as_slice())?;
            Ok(free_locals(DataType::Integer, names))
        }
    }
}

/// The inputs in a function's parentheses.
fn header_inputs(alloc: Global, ports: &[FunctionPort]) -> Result<Vec<Locals>, AllocError>
    ensures { IfOk result (λ v. flat_map s.seen_locals v.items ≡ flat_map d.inputs_in ports.now) }
{
    let mut all = Vec::new(alloc);
    for a in ports {
        all.push(bind_inputs(alloc, a)?)?;
    }
    Ok(all)
}

/// The inputs in a function's parentheses, where it has some.
fn bind_header(
    alloc: Global,
    ports: &Option<Parts<FunctionPort>>,
) -> Result<Vec<Locals>, AllocError>
    ensures { IfOk result (λ v. flat_map s.seen_locals v.items ≡ option_map_or (flat_map d.inputs_in) ports.now []) }
{
    match ports {
        None => Ok(Vec::new(alloc)),
        Some(ports) => header_inputs(alloc, ports.as_slice()),
    }
}

/// Adds what a function's declarations declare.
fn add_locals(
    alloc: Global,
    mut all: Vec<Locals>,
    declarations: &[FunctionDeclaration],
) -> Result<Vec<Locals>, AllocError>
    ensures { IfOk result (λ v. flat_map s.seen_locals v.items ≡ flat_map s.seen_locals all.items ++ flat_map d.locals_in declarations.now) }
{
    for a in declarations {
        all.push(bind_locals(alloc, a)?)?;
    }
    Ok(all)
}

/// A function.
pub(crate) fn bind_function(alloc: Global, a: &FunctionTree) -> Result<Function, AllocError>
    ensures { IfOk result (λ b. s.seen_function b ≡ d.function a.now) }
{
    let header = bind_header(alloc, &a.ports)?;
    let locals = add_locals(alloc, header, a.declarations.as_slice())?;
    let name = copied_name(alloc, &a.name)?;
    let kind = Box::new(alloc, bind_type(alloc, &a.kind)?)?;
    let body = bind_statement(alloc, &a.statement)?;
    Ok(Function {
        name,
        kind: Box::into_inner(kind),
        locals,
        body,
    })
}
