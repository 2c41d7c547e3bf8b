//! The declarations of ports.

ghost use Rattle.std.specs.Prelude.{◌≡◌, ◌++◌, map, OnOk};
ghost use Rattle.vl_scope.specs.Declarations as spec;

use crate::declaration::Declaration;
use crate::kind::{Class, Kind};
use std::alloc::AllocError;
use vl_tree::source_tree::{DeclarationAssignment, Direction, PortDeclaration};
use vl_tree::tree::Identifier;

/// A declaration of a port with nothing but its direction, or of a net too.
fn port(direction: Direction, wire: bool, vector: bool, name: &Identifier) -> Declaration<'_>
    ensures { spec.seen result ≡ spec.port direction wire vector name.entry.now }
{
    Declaration {
        name,
        direction: Some(direction),
        typed: wire,
        kind: Kind {
            class: if wire { Class::Net } else { Class::Port },
            vector,
        },
    }
}

/// A declaration of an output that is a variable.
fn output_variable(vector: bool, name: &Identifier) -> Declaration<'_>
    ensures { spec.seen result ≡ spec.output_variable vector name.entry.now }
{
    Declaration {
        name,
        direction: Some(Direction::Output),
        typed: true,
        kind: Kind {
            class: Class::Variable,
            vector,
        },
    }
}

/// Adds ports that are no variables.
fn add_nets<'a>(
    declarations: &mut Vec<Declaration<'a>>,
    direction: Direction,
    wire: bool,
    vector: bool,
    names: &'a [Identifier],
) -> Result<(), AllocError>
    ensures { OnOk result (spec.all_seen declarations.new.items ≡ spec.all_seen declarations.old.items ++ map (spec.port direction wire vector) names.entry.now) }
{
    for name in names {
        declarations.push(port(direction, wire, vector, name))?;
    }
    Ok(())
}

/// Adds outputs that are variables.
fn add_variables<'a>(
    declarations: &mut Vec<Declaration<'a>>,
    vector: bool,
    assignments: &'a [DeclarationAssignment],
) -> Result<(), AllocError>
    ensures { OnOk result (spec.all_seen declarations.new.items ≡ spec.all_seen declarations.old.items ++ map (λ a. spec.output_variable vector a.name) assignments.entry.now) }
{
    for assignment in assignments {
        declarations.push(output_variable(vector, &assignment.name))?;
    }
    Ok(())
}

/// Adds the declarations in a port declaration.
pub fn add_port<'a>(
    declarations: &mut Vec<Declaration<'a>>,
    port: &'a PortDeclaration,
) -> Result<(), AllocError>
    ensures { OnOk result (spec.all_seen declarations.new.items ≡ spec.all_seen declarations.old.items ++ spec.port_declarations port.entry.now) }
{
    match port {
        PortDeclaration::Net(_, direction, wire, _, range, names) => add_nets(
            declarations,
            *direction,
            *wire,
            range.is_some(),
            names.as_slice(),
        ),
        PortDeclaration::Reg(_, _, range, assignments) => {
            add_variables(declarations, range.is_some(), assignments.as_slice())
        }
        PortDeclaration::Integer(_, assignments) => {
            add_variables(declarations, true, assignments.as_slice())
        }
    }
}
