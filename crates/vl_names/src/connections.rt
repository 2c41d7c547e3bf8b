//! Lists of connections to ports, and of overrides of parameters.

ghost use Rattle.std.specs.Prelude.{◌≡◌, ◌||◌, ◌∷◌, [], not, IfOk, OnOk};
ghost use Rattle.vl_scope.specs.Faults.{at, earliest, fault_if, each_after};
ghost use Rattle.vl_names.specs.Connections as spec;
ghost use Rattle.vl_names.specs.Seen as seen;

use crate::interface::{Known, Listed, add};
use indexmap::IndexMap;
use std::alloc::{AllocError, Global};
use vl_scope::Place;
use vl_scope::fault::{Fault, earlier};
use vl_scope::source_tree::Connection;
use vl_scope::tree::Identifier;

/// Notes construct 7 at a place.
fn note(place: Place, best: Option<Fault>) -> Option<Fault>
    ensures { result ≡ earliest best (at place 7 ∷ []) }
{
    earlier(
        best,
        Fault {
            place,
            construct: 7,
        },
    )
}

/// Notes construct 7 at a place, if it holds.
fn note_if(is_fault: bool, place: Place, best: Option<Fault>) -> Option<Fault>
    ensures { result ≡ earliest best (fault_if is_fault place 7) }
{
    if is_fault { note(place, best) } else { best }
}

/// Notes a name that isn't there or was given before.
#[tactic(auto, unfolding(crate::specs::Seen::has, crate::specs::Seen::look))]
fn note_name<'a>(
    names: &Listed<'_>,
    given: &mut Known<'a>,
    place: Place,
    name: &'a Identifier,
    best: Option<Fault>,
) -> Result<Option<Fault>, AllocError>
    ensures given { OnOk result (seen.has given.new ≡ seen.with_name (seen.has given.old) name.now.name) }
    ensures best { IfOk result (λ r. r ≡ earliest best (fault_if (not (seen.has names.now.known name.now.name) || seen.has given.old name.now.name) place 7)) }
{
    let text = name.name.as_slice();
    let is_fault = !names.known.contains_key(text) || given.contains_key(text);
    add(given, text)?;
    Ok(note_if(is_fault, place, best))
}

/// Notes names that aren't there or were given before.
#[tactic(auto, using(crate::proofs::Steps::walks))]
fn note_names(
    alloc: Global,
    names: &Listed<'_>,
    connections: &[Connection],
    best: Option<Fault>,
) -> Result<Option<Fault>, AllocError>
    ensures { IfOk result (λ r. r ≡ earliest best (each_after (spec.naming_fault (seen.has names.now.known)) [] connections.now)) }
{
    let mut given = IndexMap::new(alloc);
    let mut best = best;
    for connection in connections {
        if let Connection::Named(place, name, _) = connection {
            best = note_name(names, &mut given, *place, name, best)?;
        }
    }
    Ok(best)
}

/// Notes connections by order for which no name is left.
#[tactic(auto, using(crate::proofs::Steps::walks))]
fn note_past(count: usize, connections: &[Connection], best: Option<Fault>) -> Option<Fault>
    ensures { result ≡ earliest best (each_after (spec.past_fault count) [] connections.now) }
{
    let mut best = best;
    for (number, connection) in connections.iter().enumerate() {
        if let Connection::Ordered(place, _) = connection {
            best = note_if(count <= number, *place, best);
        }
    }
    best
}

/// The place of a connection.
fn place_of(connection: &Connection) -> Place
    ensures { result ≡ spec.place_of connection.now }
{
    match connection {
        Connection::Ordered(place, _) => *place,
        Connection::Named(place, _, _) => *place,
    }
}

/// Whether a connection is by name.
fn is_named(connection: &Connection) -> bool
    ensures { result ≡ spec.is_named connection.now }
{
    match connection {
        Connection::Ordered(_, _) => false,
        Connection::Named(_, _, _) => true,
    }
}

/// Whether a connection is of a form: by name or not.
fn has_form(named: bool, connection: &Connection) -> bool
    ensures { result ≡ spec.has_form named connection.now }
{
    if named {
        is_named(connection)
    } else {
        !is_named(connection)
    }
}

/// Notes the first connection that isn't of a form.
fn note_other(named: bool, connections: &[Connection], best: Option<Fault>) -> Option<Fault>
    ensures { result ≡ earliest best (spec.other_faults named connections.now) }
{
    for connection in connections {
        if !has_form(named, connection) {
            return note(place_of(connection), best);
        }
    }
    best
}

/// Notes the first connection that isn't of the form of the list's first.
fn note_mixed(connections: &[Connection], best: Option<Fault>) -> Option<Fault>
    ensures { result ≡ earliest best (spec.mixed_faults connections.now) }
{
    match connections {
        [] => best,
        [first, rest @ ..] => note_other(is_named(first), rest, best),
    }
}

/// Whether a list is one connection that is nothing.
fn is_nothing(connections: &[Connection]) -> bool
    ensures { result ≡ spec.is_nothing connections.now }
{
    match connections {
        [Connection::Ordered(_, None)] => true,
        _ => false,
    }
}

/// Notes the faults of a list of connections against names.
pub fn note_connections(
    alloc: Global,
    names: &Listed<'_>,
    connections: &[Connection],
    best: Option<Fault>,
) -> Result<Option<Fault>, AllocError>
    ensures { IfOk result (λ r. r ≡ earliest best (spec.connection_faults (seen.has names.now.known) names.now.count connections.now)) }
{
    let best = note_names(alloc, names, connections, best)?;
    let best = if is_nothing(connections) {
        best
    } else {
        note_past(names.count, connections, best)
    };
    Ok(note_mixed(connections, best))
}
