//! Instances (IEEE 1364-2005, clauses 12.2 and 12.3).

ghost use Rattle.std.specs.Prelude.{◌≡◌, [], map, IfOk};
ghost use Rattle.std.specs.Option.{option_map_or};
ghost use Rattle.elab_plain.specs.vl_flat.specs.Declarations as d;
ghost use Rattle.elab_plain.specs.SeenItems as s;

use crate::types::{bind_value, copied_name};
use elab_bind::expressions::copied;
use elab_plain::items::{Connection, Instances, NamedUnit};
use std::alloc::{AllocError, Global};
use vl_tree::parts::Parts;
use vl_tree::source_tree::{Connection as ConnectionTree, Instance, NamedInstance};

/// A connection, or an override.
fn bind_connection(alloc: Global, a: &ConnectionTree) -> Result<Connection, AllocError>
    ensures { IfOk result (λ b. s.seen_connection b ≡ d.connection a.now) }
{
    match a {
        ConnectionTree::Ordered(place, e) => Ok(Connection {
            place: *place,
            name: None,
            value: bind_value(alloc, e)?,
        }),
        ConnectionTree::Named(place, n, e) => Ok(Connection {
            place: *place,
            name: Some(copied(alloc, &n.name)?),
            value: bind_value(alloc, e)?,
        }),
    }
}

/// Connections one by one.
fn bind_connections(
    alloc: Global,
    connections: &[ConnectionTree],
) -> Result<Vec<Connection>, AllocError>
    ensures { IfOk result (λ v. map s.seen_connection v.items ≡ map d.connection connections.now) }
{
    let mut all = Vec::new(alloc);
    for a in connections {
        all.push(bind_connection(alloc, a)?)?;
    }
    Ok(all)
}

/// One instance of a list.
fn bind_unit(alloc: Global, a: &NamedInstance) -> Result<NamedUnit, AllocError>
    ensures { IfOk result (λ b. s.seen_unit b ≡ d.named_instance a.now) }
{
    let name = copied_name(alloc, &a.name)?;
    let connections = bind_connections(alloc, a.connections.as_slice())?;
    Ok(NamedUnit { name, connections })
}

/// Instances one by one.
fn bind_units(alloc: Global, units: &[NamedInstance]) -> Result<Vec<NamedUnit>, AllocError>
    ensures { IfOk result (λ v. map s.seen_unit v.items ≡ map d.named_instance units.now) }
{
    let mut all = Vec::new(alloc);
    for a in units {
        all.push(bind_unit(alloc, a)?)?;
    }
    Ok(all)
}

/// Overrides, where there are some.
fn bind_overrides(
    alloc: Global,
    overrides: &Option<Parts<ConnectionTree>>,
) -> Result<Vec<Connection>, AllocError>
    ensures { IfOk result (λ v. map s.seen_connection v.items ≡ option_map_or (map d.connection) overrides.now []) }
{
    match overrides {
        None => Ok(Vec::new(alloc)),
        Some(given) => bind_connections(alloc, given.as_slice()),
    }
}

/// Instances of one module.
pub(crate) fn bind_instances(alloc: Global, a: &Instance) -> Result<Instances, AllocError>
    ensures { IfOk result (λ b. s.seen_instances b ≡ d.instances a.now) }
{
    let definition = copied(alloc, &a.definition.name)?;
    let overrides = bind_overrides(alloc, &a.overrides)?;
    let units = bind_units(alloc, a.instances.as_slice())?;
    Ok(Instances {
        place: a.place,
        definition,
        overrides,
        units,
    })
}
