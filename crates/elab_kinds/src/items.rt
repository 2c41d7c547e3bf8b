//! What the items of a module do with names.

ghost use Rattle.std.specs.Prelude.{◌≡◌, ◌&&◌, not, map, is_some, IfOk, OnOk};
ghost use Rattle.std.specs.List.{list_any};
ghost use Rattle.std.specs.Str.{bytes_eq};
ghost use Rattle.elab_plain.specs.vl_flat.specs.Items as x;
ghost use Rattle.elab_plain.specs.vl_flat.specs.Kinds as k;
ghost use Rattle.elab_plain.specs.SeenItems.{seen_setting, seen_unit, seen_connection, seen_function, seen_item};
ghost use Rattle.elab_kinds.specs.Names.{has, nothing, Adds};
ghost use Rattle.elab_kinds.specs.Parts.{optional_ex_uses, writes_in};

use crate::controls::add_controls;
use crate::lefts::add_left_uses;
use crate::names::{NameSet, add, add_shown};
use crate::strays::add_strays;
use crate::uses::add_uses;
use crate::writes::add_writes;
use elab_plain::items::{Connection, Declared, Function, Item, Locals, NamedUnit, Setting};
use elab_plain::source_tree::{Event, Trigger};
use elab_plain::surface::{Ex, Statement};
use elab_plain::tree::Identifier;
use indexmap::IndexSet;
use std::alloc::{AllocError, Global};

/// Adds the names in a value, if there is one.
fn add_optional<'m>(
    names: &mut NameSet<'m>,
    hidden: &NameSet<'_>,
    value: &'m Option<Ex>,
) -> Result<(), AllocError>
    ensures { OnOk result (Adds names.old names.new (has hidden.now) (λ t. optional_ex_uses t value.entry.now)) }
{
    match value {
        None => Ok(()),
        Some(e) => add_uses(names, hidden, e),
    }
}

/// Adds the names in the values of declarations.
fn add_values<'m>(
    names: &mut NameSet<'m>,
    hidden: &NameSet<'_>,
    ds: &'m [Declared],
) -> Result<(), AllocError>
    ensures { OnOk result (Adds names.old names.new (has hidden.now) (λ t. list_any (λ d. optional_ex_uses t d.value) ds.entry.now)) }
{
    for d in ds {
        add_optional(names, hidden, &d.value)?;
    }
    Ok(())
}

/// Adds the names in an assignment.
fn add_setting<'m>(
    names: &mut NameSet<'m>,
    hidden: &NameSet<'_>,
    a: &'m Setting,
) -> Result<(), AllocError>
    ensures { OnOk result (Adds names.old names.new (has hidden.now) (λ t. k.setting_uses t (seen_setting a.entry.now))) }
{
    add_left_uses(names, hidden, &a.target)?;
    add_uses(names, hidden, &a.value)
}

/// Adds the names in assignments.
fn add_settings<'m>(
    names: &mut NameSet<'m>,
    hidden: &NameSet<'_>,
    settings: &'m [Setting],
) -> Result<(), AllocError>
    ensures { OnOk result (Adds names.old names.new (has hidden.now) (λ t. list_any (λ a. k.setting_uses t (seen_setting a)) settings.entry.now)) }
{
    for a in settings {
        add_setting(names, hidden, a)?;
    }
    Ok(())
}

/// Adds the names in connections.
fn add_connections<'m>(
    names: &mut NameSet<'m>,
    hidden: &NameSet<'_>,
    connections: &'m [Connection],
) -> Result<(), AllocError>
    ensures { OnOk result (Adds names.old names.new (has hidden.now) (λ t. list_any (λ q. optional_ex_uses t q.value) connections.entry.now)) }
{
    for q in connections {
        add_optional(names, hidden, &q.value)?;
    }
    Ok(())
}

/// Adds the names in the connections of instances.
fn add_units<'m>(
    names: &mut NameSet<'m>,
    hidden: &NameSet<'_>,
    units: &'m [NamedUnit],
) -> Result<(), AllocError>
    ensures { OnOk result (Adds names.old names.new (has hidden.now) (λ t. list_any (λ u. list_any (λ q. optional_ex_uses t q.value) u.connections.items) units.entry.now)) }
{
    for u in units {
        add_connections(names, hidden, u.connections.as_slice())?;
    }
    Ok(())
}

/// Adds the names of events.
fn add_events<'m>(
    names: &mut NameSet<'m>,
    hidden: &NameSet<'_>,
    events: &'m [Event],
) -> Result<(), AllocError>
    ensures { OnOk result (Adds names.old names.new (has hidden.now) (λ t. list_any (λ e. bytes_eq t e.name.name) events.entry.now)) }
{
    for e in events {
        add_shown(names, hidden, e.name.name.as_slice())?;
    }
    Ok(())
}

/// Adds the names in a trigger.
fn add_trigger<'m>(
    names: &mut NameSet<'m>,
    hidden: &NameSet<'_>,
    trigger: &'m Trigger,
) -> Result<(), AllocError>
    ensures { OnOk result (Adds names.old names.new (has hidden.now) (λ t. k.trigger_uses t trigger.entry.now)) }
{
    match trigger {
        Trigger::Events(events) => add_events(names, hidden, events.as_slice()),
        _ => Ok(()),
    }
}

/// Adds identifiers.
fn add_identifiers<'m>(
    names: &mut NameSet<'m>,
    identifiers: &'m [Identifier],
) -> Result<(), AllocError>
    ensures { OnOk result (Adds names.old names.new nothing (λ t. list_any (λ n. bytes_eq t n.name) identifiers.entry.now)) }
{
    for n in identifiers {
        add(names, n.name.as_slice())?;
    }
    Ok(())
}

/// Adds the names of a function's variables.
fn add_locals<'m>(names: &mut NameSet<'m>, groups: &'m [Locals]) -> Result<(), AllocError>
    ensures { OnOk result (Adds names.old names.new nothing (λ t. list_any (λ g. list_any (λ n. bytes_eq t n.name) g.names.items) groups.entry.now)) }
{
    for g in groups {
        add_identifiers(names, g.names.as_slice())?;
    }
    Ok(())
}

/// Adds the names that a function declares.
fn add_own_names<'m>(names: &mut NameSet<'m>, f: &'m Function) -> Result<(), AllocError>
    ensures { OnOk result (Adds names.old names.new nothing (λ t. k.declares t (seen_function f.entry.now))) }
{
    add(names, f.name.name.as_slice())?;
    add_locals(names, f.locals.as_slice())
}

/// The names that a function declares.
fn own_names(alloc: Global, f: &Function) -> Result<NameSet<'_>, AllocError>
    ensures { IfOk result (λ s. has s ≡ (λ t. k.declares t (seen_function f.entry.now))) }
{
    let mut own = IndexSet::new(alloc);
    add_own_names(&mut own, f).and(Ok(own))
}

/// Adds the names that a function names and doesn't declare.
fn add_function_strays<'m>(
    alloc: Global,
    names: &mut NameSet<'m>,
    f: &'m Function,
) -> Result<(), AllocError>
    ensures { OnOk result (Adds names.old names.new nothing (λ t. k.item_strays t (x.Functions (seen_function f.entry.now)))) }
{
    let mut own = own_names(alloc, f)?;
    add_strays(names, &mut own, &f.body)
}

/// Adds the names that control a `for` of a function that doesn't declare them.
fn add_function_controls<'m>(
    alloc: Global,
    names: &mut NameSet<'m>,
    f: &'m Function,
) -> Result<(), AllocError>
    ensures { OnOk result (Adds names.old names.new nothing (λ t. k.item_controls t (x.Functions (seen_function f.entry.now)))) }
{
    let own = own_names(alloc, f)?;
    add_controls(names, &own, &f.body)
}

/// Adds the names that an item names outside each `for` that they control, where none is hidden.
fn add_shown_strays<'m>(
    alloc: Global,
    names: &mut NameSet<'m>,
    hidden: &mut NameSet<'m>,
    item: &'m Item,
) -> Result<(), AllocError>
    requires { has hidden.old ≡ nothing }
    ensures { OnOk result (Adds names.old names.new nothing (λ t. k.item_strays t (seen_item item.entry.now))) }
{
    match item {
        Item::Parameters(_, _) => Ok(()),
        Item::Signals(_, ds) => add_values(names, &*hidden, ds.as_slice()),
        Item::Assigns(settings) => add_settings(names, &*hidden, settings.as_slice()),
        Item::Initial(_, body) => add_strays(names, hidden, body),
        Item::Always(_, trigger, body) => {
            add_trigger(names, &*hidden, trigger)?;
            add_strays(names, hidden, body)
        }
        Item::Functions(f) => add_function_strays(alloc, names, f),
        Item::Instantiates(us) => add_units(names, &*hidden, us.units.as_slice()),
    }
}

/// Adds the names that an item names outside each `for` that they control.
fn add_item_strays<'m>(
    alloc: Global,
    names: &mut NameSet<'m>,
    item: &'m Item,
) -> Result<(), AllocError>
    ensures { OnOk result (Adds names.old names.new nothing (λ t. k.item_strays t (seen_item item.entry.now))) }
{
    let mut hidden = IndexSet::new(alloc);
    add_shown_strays(alloc, names, &mut hidden, item)
}

/// Adds the names that control a `for` of an item, where none is hidden.
fn add_shown_controls<'m>(
    alloc: Global,
    names: &mut NameSet<'m>,
    hidden: &NameSet<'_>,
    item: &'m Item,
) -> Result<(), AllocError>
    requires { has hidden.now ≡ nothing }
    ensures { OnOk result (Adds names.old names.new nothing (λ t. k.item_controls t (seen_item item.entry.now))) }
{
    match item {
        Item::Initial(_, body) => add_controls(names, hidden, body),
        Item::Always(_, _, body) => add_controls(names, hidden, body),
        Item::Functions(f) => add_function_controls(alloc, names, f),
        _ => Ok(()),
    }
}

/// Adds the names that control a `for` of an item.
fn add_item_controls<'m>(
    alloc: Global,
    names: &mut NameSet<'m>,
    item: &'m Item,
) -> Result<(), AllocError>
    ensures { OnOk result (Adds names.old names.new nothing (λ t. k.item_controls t (seen_item item.entry.now))) }
{
    let hidden = IndexSet::new(alloc);
    add_shown_controls(alloc, names, &hidden, item)
}

/// One of the events has an edge.
fn has_edges(events: &[Event]) -> bool
    ensures { result ≡ list_any (λ e. is_some e.edge) events.now }
{
    for e in events {
        if e.edge.is_some() {
            return true;
        }
    }
    false
}

/// The trigger has an edge.
fn has_edge(trigger: &Trigger) -> bool
    ensures { result ≡ k.has_edge trigger.now }
{
    match trigger {
        Trigger::Star => false,
        Trigger::Parenthesized => false,
        Trigger::Events(events) => has_edges(events.as_slice()),
    }
}

/// Adds the names that a combinational process writes.
fn add_process_writes<'m>(
    names: &mut NameSet<'m>,
    trigger: &Trigger,
    body: &'m Statement,
) -> Result<(), AllocError>
    ensures { OnOk result (Adds names.old names.new nothing (λ t. not (k.has_edge trigger.now) && writes_in t body.entry.now)) }
{
    if has_edge(trigger) {
        return Ok(());
    }
    add_writes(names, body)
}

/// Adds the names that an item writes, if it is a combinational process.
fn add_item_writes<'m>(names: &mut NameSet<'m>, item: &'m Item) -> Result<(), AllocError>
    ensures { OnOk result (Adds names.old names.new nothing (λ t. k.item_writes t (seen_item item.entry.now))) }
{
    match item {
        Item::Always(_, trigger, body) => add_process_writes(names, trigger, body),
        _ => Ok(()),
    }
}

/// Adds the names that items name outside each `for` that they control.
fn add_strays_of<'m>(
    alloc: Global,
    names: &mut NameSet<'m>,
    items: &'m [Item],
) -> Result<(), AllocError>
    ensures { OnOk result (Adds names.old names.new nothing (λ t. list_any (λ a. k.item_strays t (seen_item a)) items.entry.now)) }
{
    for item in items {
        add_item_strays(alloc, names, item)?;
    }
    Ok(())
}

/// The names that items name outside each `for` that they control.
pub(crate) fn strays_of(alloc: Global, items: &[Item]) -> Result<NameSet<'_>, AllocError>
    ensures { IfOk result (λ s. has s ≡ (λ t. list_any (k.item_strays t) (map seen_item items.entry.now))) }
{
    let mut names = IndexSet::new(alloc);
    add_strays_of(alloc, &mut names, items).and(Ok(names))
}

/// Adds the names that control a `for` of the items.
fn add_controls_of<'m>(
    alloc: Global,
    names: &mut NameSet<'m>,
    items: &'m [Item],
) -> Result<(), AllocError>
    ensures { OnOk result (Adds names.old names.new nothing (λ t. list_any (λ a. k.item_controls t (seen_item a)) items.entry.now)) }
{
    for item in items {
        add_item_controls(alloc, names, item)?;
    }
    Ok(())
}

/// The names that control a `for` of the items.
pub(crate) fn controls_of(alloc: Global, items: &[Item]) -> Result<NameSet<'_>, AllocError>
    ensures { IfOk result (λ s. has s ≡ (λ t. list_any (k.item_controls t) (map seen_item items.entry.now))) }
{
    let mut names = IndexSet::new(alloc);
    add_controls_of(alloc, &mut names, items).and(Ok(names))
}

/// Adds the names that combinational processes write.
fn add_writes_of<'m>(names: &mut NameSet<'m>, items: &'m [Item]) -> Result<(), AllocError>
    ensures { OnOk result (Adds names.old names.new nothing (λ t. list_any (λ a. k.item_writes t (seen_item a)) items.entry.now)) }
{
    for item in items {
        add_item_writes(names, item)?;
    }
    Ok(())
}

/// The names that combinational processes write.
pub(crate) fn writes_of(alloc: Global, items: &[Item]) -> Result<NameSet<'_>, AllocError>
    ensures { IfOk result (λ s. has s ≡ (λ t. list_any (k.item_writes t) (map seen_item items.entry.now))) }
{
    let mut names = IndexSet::new(alloc);
    add_writes_of(&mut names, items).and(Ok(names))
}
