//! The variables of a function (IEEE 1364-2005, clause 10.4).

ghost use Rattle.std.specs.Prelude.{◌≡◌, ◌++◌, ◌∷◌, map, flat_map, IfOk, OnOk};
ghost use Rattle.elab_plain.specs.vl_flat.specs.Items as x;
ghost use Rattle.elab_plain.specs.SeenItems.{seen_function, seen_locals};
ghost use Rattle.elab_instance.specs.Variables as spec;

use elab_kinds::locals::{BodyRoles, body_roles};
use elab_plain::items::{DataType, Function, Locals};
use elab_plain::tree::Identifier;
use std::alloc::{AllocError, Global};

/// A variable of a function.
#[derive(Clone, Copy)]
pub struct Variable<'m> {
    /// Its name.
    pub name: &'m Identifier,
    /// Its type.
    pub kind: &'m DataType,
    /// It is an input.
    pub is_input: bool,
    /// It is neither an input nor the result.
    pub is_free: bool,
}

/// The variables of a function in text order, the result first, and what its body does with them.
#[derive(Drop)]
pub struct Frame<'m> {
    /// The variables.
    pub variables: Vec<Variable<'m>>,
    /// What the body does with names.
    pub roles: BodyRoles<'m>,
}

/// Adds variables that are declared together.
fn add_variables<'m>(all: &mut Vec<Variable<'m>>, group: &'m Locals) -> Result<(), AllocError>
    ensures { OnOk result (map spec.seen_variable all.new.items ≡ map spec.seen_variable all.old.items ++ seen_locals group.entry.now) }
{
    for name in group.names.as_slice() {
        all.push(Variable {
            name,
            kind: &group.kind,
            is_input: group.is_input,
            is_free: group.is_free,
        })?;
    }
    Ok(())
}

/// The variables of a function.
fn variables_of<'m>(alloc: Global, function: &'m Function) -> Result<Vec<Variable<'m>>, AllocError>
    ensures { IfOk result (λ all. map spec.seen_variable all.items ≡ (seen_function function.entry.now).locals) }
{
    let mut all = Vec::new(alloc);
    all.push(Variable {
        name: &function.name,
        kind: &function.kind,
        is_input: false,
        is_free: false,
    })?;
    for group in function.locals.as_slice() {
        add_variables(&mut all, group)?;
    }
    Ok(all)
}

/// What is known of a function's variables.
pub fn frame_of<'m>(alloc: Global, function: &'m Function) -> Result<Frame<'m>, AllocError>
    ensures { IfOk result (λ frame. spec.IsFrame frame (seen_function function.entry.now)) }
{
    let variables = variables_of(alloc, function)?;
    let roles = body_roles(alloc, &function.body)?;
    Ok(Frame { variables, roles })
}
