//! Lists of connections to ports, and of overrides of parameters (IEEE 1364-2005, clauses 12.2.2 and 12.3.5).

ghost use Rattle.std.specs.Prelude.{◌≡◌, map, fold, option_map, IfOk, OnOk};
ghost use Rattle.elab_plain.specs.vl_flat.specs.Connections as c;
ghost use Rattle.elab_plain.specs.Seen.{seen};
ghost use Rattle.elab_plain.specs.SeenItems.{seen_connection, seen_module, seen_instances, seen_unit};
ghost use Rattle.elab_instance.specs.Tables as spec;

use elab_plain::Place;
use elab_plain::items::{Connection, Instances, Module, NamedUnit};
use elab_plain::surface::Ex;
use elab_plain::tree::Identifier;
use indexmap::IndexMap;
use std::alloc::{AllocError, Global};

/// The connection of each name that has one.
pub type Connected<'m> = IndexMap<&'m [u8], &'m Connection>;

/// Gives a name a connection, where it has none.
fn connect<'m>(
    table: &mut Connected<'m>,
    name: &'m [u8],
    connection: &'m Connection,
) -> Result<(), AllocError>
    ensures { OnOk result (spec.joined table.new ≡ spec.connect (spec.joined table.old) name.entry.now (seen_connection connection.entry.now)) }
{
    if table.contains_key(name) {
        return Ok(());
    }
    table.insert(name, connection)?;
    Ok(())
}

/// Gives a name a connection, where there is one and it has none.
fn connect_if<'m>(
    table: &mut Connected<'m>,
    name: &'m [u8],
    connection: Option<&'m Connection>,
) -> Result<(), AllocError>
    ensures { OnOk result (spec.joined table.new ≡ spec.connect_if (spec.joined table.old) name.entry.now (option_map (λ q. seen_connection q.now) connection.entry)) }
{
    match connection {
        Some(connection) => connect(table, name, connection),
        None => Ok(()),
    }
}

/// The list is by name.
fn by_name(list: &[Connection]) -> bool
    ensures { result ≡ c.by_name (map seen_connection list.now) }
{
    match list {
        [] => false,
        [first, ..] => first.name.is_some(),
    }
}

/// Connections by order.
fn in_order<'m>(
    alloc: Global,
    names: &[&'m [u8]],
    list: &'m [Connection],
) -> Result<Connected<'m>, AllocError>
    ensures { IfOk result (λ table. spec.joined table ≡ spec.in_order (spec.nows names.now) (map seen_connection list.entry.now)) }
{
    let mut table = IndexMap::new(alloc);
    for (place, name) in names.iter().enumerate() {
        connect_if(&mut table, *name, list.get(place))?;
    }
    Ok(table)
}

/// Gives the name of a connection that connection, where it has none.
fn connect_named<'m>(
    table: &mut Connected<'m>,
    connection: &'m Connection,
) -> Result<(), AllocError>
    ensures { OnOk result (spec.joined table.new ≡ spec.connect_named (spec.joined table.old) (seen_connection connection.entry.now)) }
{
    match &connection.name {
        Some(name) => connect(table, name.as_slice(), connection),
        None => Ok(()),
    }
}

/// The first connection of each name.
fn named<'m>(alloc: Global, list: &'m [Connection]) -> Result<Connected<'m>, AllocError>
    ensures { IfOk result (λ table. spec.joined table ≡ spec.named (map seen_connection list.entry.now)) }
{
    let mut table = IndexMap::new(alloc);
    for connection in list {
        connect_named(&mut table, connection)?;
    }
    Ok(table)
}

/// Gives a name its connection of another table.
fn take_over<'m>(
    table: &mut Connected<'m>,
    given: &Connected<'m>,
    name: &'m [u8],
) -> Result<(), AllocError>
    ensures { OnOk result (spec.joined table.new ≡ spec.take_over (spec.joined given.now) (spec.joined table.old) name.entry.now) }
{
    connect_if(table, name, connection(given, name))
}

/// The connections that names have in another table.
fn chosen<'m>(
    alloc: Global,
    names: &[&'m [u8]],
    given: &Connected<'m>,
) -> Result<Connected<'m>, AllocError>
    ensures { IfOk result (λ table. spec.joined table ≡ fold (spec.take_over (spec.joined given.now)) spec.none (spec.nows names.now)) }
{
    let mut table = IndexMap::new(alloc);
    for name in names {
        take_over(&mut table, given, *name)?;
    }
    Ok(table)
}

/// Connections by name: those of these names.
fn among<'m>(
    alloc: Global,
    names: &[&'m [u8]],
    list: &'m [Connection],
) -> Result<Connected<'m>, AllocError>
    ensures { IfOk result (λ table. spec.joined table ≡ spec.among (spec.nows names.now) (map seen_connection list.entry.now)) }
{
    let first = named(alloc, list)?;
    chosen(alloc, names, &first)
}

/// The connections of names by a list.
fn connections_of<'m>(
    alloc: Global,
    names: &[&'m [u8]],
    list: &'m [Connection],
) -> Result<Connected<'m>, AllocError>
    ensures { IfOk result (λ table. spec.joined table ≡ c.named_connection (spec.nows names.now) (map seen_connection list.entry.now)) }
{
    if by_name(list) {
        among(alloc, names, list)
    } else {
        in_order(alloc, names, list)
    }
}

/// How names are spelled.
fn spelled<'m>(alloc: Global, names: &'m [Identifier]) -> Result<Vec<&'m [u8]>, AllocError>
    ensures { IfOk result (λ all. spec.nows all.items ≡ c.spelled names.entry.now) }
{
    let mut all = Vec::new(alloc);
    for name in names {
        all.push(name.name.as_slice())?;
    }
    Ok(all)
}

/// The connections of the ports of a module in an instance of it.
pub fn port_connections<'m>(
    alloc: Global,
    definition: &'m Module,
    unit: &'m NamedUnit,
) -> Result<Connected<'m>, AllocError>
    ensures { IfOk result (λ table. spec.joined table ≡ c.port_connection (seen_module definition.entry.now) (seen_unit unit.entry.now)) }
{
    let names = spelled(alloc, definition.ports.as_slice())?;
    connections_of(alloc, &names, unit.connections.as_slice())
}

/// The overrides of the parameters of a module in instances of it.
pub fn overrides<'m>(
    alloc: Global,
    definition: &'m Module,
    instances: &'m Instances,
) -> Result<Connected<'m>, AllocError>
    ensures { IfOk result (λ table. spec.joined table ≡ c.named_connection (c.spelled (seen_module definition.entry.now).parameters) (seen_instances instances.entry.now).overrides) }
{
    let names = spelled(alloc, definition.parameters.as_slice())?;
    connections_of(alloc, &names, instances.overrides.as_slice())
}

/// The connection of a name.
#[tactic(auto, unfolding(crate::specs::Tables::joined))]
pub fn connection<'m>(table: &Connected<'m>, name: &[u8]) -> Option<&'m Connection>
    ensures { option_map (λ q. seen_connection q.now) result ≡ spec.joined table.now name.now }
{
    table.get(name).copied()
}

/// What is connected to a name.
pub fn expression<'m>(table: &Connected<'m>, name: &[u8]) -> Option<&'m Ex>
    ensures { option_map (λ e. seen e.now) result ≡ c.expression_of (spec.joined table.now name.now) }
{
    match connection(table, name) {
        Some(connection) => connection.value.as_ref(),
        None => None,
    }
}

/// Where a connection of an instance stands, or the instance's name where there is none.
pub fn place_in(unit: &NamedUnit, connection: Option<&Connection>) -> Place
    ensures { result ≡ c.place_in (seen_unit unit.now) (option_map (λ q. seen_connection q.now) connection.entry) }
{
    match connection {
        Some(connection) => connection.place,
        None => unit.name.place,
    }
}
