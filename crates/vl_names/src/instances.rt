//! The instances of modules, and the faults of what they are given.

ghost use Rattle.std.specs.Prelude.{◌≡◌, ◌++◌, ◌∷◌, [], flat_map, IfOk, OnOk};
ghost use Rattle.std.specs.Option.{option_map_or};
ghost use Rattle.vl_scope.specs.Faults.{at, earliest};
ghost use Rattle.vl_scope.specs.vl_tree.specs.Hierarchy.{instances};
ghost use Rattle.vl_names.specs.Modules.{all_instances};
ghost use Rattle.vl_names.specs.Seen as seen;

use crate::connections::note_connections;
use crate::interface::{Interface, Listed};
use crate::numbers::Numbers;
use std::alloc::{AllocError, Global};
use vl_scope::Place;
use vl_scope::fault::{Fault, earlier};
use vl_scope::parts::Parts;
use vl_scope::source_tree::{Connection, Instance, Item, Module, NamedInstance, Source};

/// Adds the instances in a module.
pub fn add_instances<'a>(all: &mut Vec<&'a Instance>, tree: &'a Module) -> Result<(), AllocError>
    ensures { OnOk result (seen.nows all.new.items ≡ seen.nows all.old.items ++ instances tree.now) }
{
    for item in tree.items.as_slice() {
        if let Item::Instance(instance) = item {
            all.push(instance)?;
        }
    }
    Ok(())
}

/// The instances in the modules of a source.
pub fn all_instances(alloc: Global, source: &Source) -> Result<Vec<&Instance>, AllocError>
    ensures { IfOk result (λ all. seen.nows all.items ≡ all_instances source.now) }
{
    let mut all = Vec::new(alloc);
    for tree in source.modules.as_slice() {
        add_instances(&mut all, tree)?;
    }
    Ok(all)
}

/// Notes the faults of overrides.
fn note_overrides(
    alloc: Global,
    parameters: &Listed<'_>,
    overrides: &Option<Parts<Connection>>,
    best: Option<Fault>,
) -> Result<Option<Fault>, AllocError>
    ensures { IfOk result (λ r. r ≡ earliest best (option_map_or (seen.faults_to parameters.now) overrides.now [])) }
{
    match overrides {
        None => Ok(best),
        Some(overrides) => note_connections(alloc, parameters, overrides.as_slice(), best),
    }
}

/// Notes the faults of the connections of instances.
#[tactic(auto, using(crate::proofs::Steps::walks))]
fn note_ports(
    alloc: Global,
    ports: &Listed<'_>,
    instances: &[NamedInstance],
    best: Option<Fault>,
) -> Result<Option<Fault>, AllocError>
    ensures { IfOk result (λ r. r ≡ earliest best (flat_map (λ n. seen.faults_to ports.now n.connections) instances.now)) }
{
    let mut best = best;
    for instance in instances {
        best = note_connections(alloc, ports, instance.connections.as_slice(), best)?;
    }
    Ok(best)
}

/// Notes the faults of what an instance is given.
#[tactic(auto, using(crate::proofs::Steps::walks))]
fn note_given(
    alloc: Global,
    interface: &Interface<'_>,
    instance: &Instance,
    best: Option<Fault>,
) -> Result<Option<Fault>, AllocError>
    ensures { IfOk result (λ r. r ≡ earliest best (seen.faults_at instance.now interface.now)) }
{
    let best = note_overrides(alloc, &interface.parameters, &instance.overrides, best)?;
    note_ports(alloc, &interface.ports, instance.instances.as_slice(), best)
}

/// Notes construct 5 at a place.
fn note(place: Place, best: Option<Fault>) -> Option<Fault>
    ensures { result ≡ earliest best (at place 5 ∷ []) }
{
    earlier(
        best,
        Fault {
            place,
            construct: 5,
        },
    )
}

/// Notes the faults of an instance.
#[tactic(auto, using(std::proofs::lemmas::Grind::common_steps, std::proofs::lemmas::Option::gets), unfolding(crate::specs::Seen::look))]
fn note_instance(
    alloc: Global,
    numbers: &Numbers<'_>,
    interfaces: &[Interface<'_>],
    instance: &Instance,
    best: Option<Fault>,
) -> Result<Option<Fault>, AllocError>
    ensures { IfOk result (λ r. r ≡ earliest best (seen.faults_in (seen.look numbers.now) interfaces.now instance.now)) }
{
    let Some(number) = numbers.get(instance.definition.name.as_slice()) else {
        return Ok(note(instance.place, best));
    };
    match interfaces.get(*number) {
        None => Ok(best),
        Some(interface) => note_given(alloc, interface, instance, best),
    }
}

/// Notes the faults of instances.
#[tactic(auto, using(crate::proofs::Steps::walks))]
pub fn note_instances(
    alloc: Global,
    numbers: &Numbers<'_>,
    interfaces: &[Interface<'_>],
    instances: &[&Instance],
    best: Option<Fault>,
) -> Result<Option<Fault>, AllocError>
    ensures { IfOk result (λ r. r ≡ earliest best (flat_map (seen.faults_in (seen.look numbers.now) interfaces.now) (seen.nows instances.now))) }
{
    let mut best = best;
    for instance in instances {
        best = note_instance(alloc, numbers, interfaces, instance, best)?;
    }
    Ok(best)
}
