//! The numbers of modules, by their names, and what each module instantiates.

ghost use Rattle.std.specs.Prelude.{◌≡◌, ◌++◌, [], is_some, map, flat_map, IfOk, OnOk};
ghost use Rattle.std.specs.Option.{option_to_list};
ghost use Rattle.vl_scope.specs.Faults.{earliest, fault_if, each_after};
ghost use Rattle.vl_names.specs.HierarchyFaults.{repeated_fault};
ghost use Rattle.vl_scope.specs.vl_tree.specs.Hierarchy as spec;
ghost use Rattle.vl_names.specs.Seen as seen;

use crate::instances::add_instances;
use indexmap::IndexMap;
use std::alloc::{AllocError, Global};
use vl_scope::Items;
use vl_scope::fault::{Fault, earlier};
use vl_scope::source_tree::{Instance, Module, Source};

/// The number of the first module of each name.
pub type Numbers<'a> = IndexMap<&'a [u8], usize>;

/// Gives a module its number, or notes that another has its name.
#[tactic(auto, unfolding(crate::specs::Seen::look))]
fn number<'a>(
    numbers: &mut Numbers<'a>,
    tree: &'a Module,
    number: usize,
    best: Option<Fault>,
) -> Result<Option<Fault>, AllocError>
    ensures numbers { OnOk result (seen.look numbers.new ≡ seen.with_number (seen.look numbers.old) tree.now.name.name number) }
    ensures best { IfOk result (λ r. r ≡ earliest best (fault_if (is_some (seen.look numbers.old tree.now.name.name)) tree.now.name.place 5)) }
{
    let text = tree.name.name.as_slice();
    if numbers.contains_key(text) {
        return Ok(earlier(
            best,
            Fault {
                place: tree.name.place,
                construct: 5,
            },
        ));
    }
    numbers.insert(text, number)?;
    Ok(best)
}

/// The numbers of the modules, with those noted that are called as one before them.
#[tactic(auto, using(crate::proofs::Steps::walks))]
pub fn numbers_of(
    alloc: Global,
    source: &Source,
    best: Option<Fault>,
) -> Result<(Numbers<'_>, Option<Fault>), AllocError>
    ensures numbers { IfOk result (λ r. seen.look r.0 ≡ spec.module_number source.now) }
    ensures best { IfOk result (λ r. r.1 ≡ earliest best (each_after repeated_fault [] source.now.modules)) }
{
    let mut numbers = IndexMap::new(alloc);
    let mut best = best;
    for (index, tree) in source.modules.as_slice().iter().enumerate() {
        best = number(&mut numbers, tree, index, best)?;
    }
    Ok((numbers, best))
}

/// Adds the number of the module that an instance is of, if there is one.
#[tactic(auto, unfolding(crate::specs::Seen::look))]
fn add_step(
    numbers: &Numbers<'_>,
    instance: &Instance,
    steps: &mut Vec<usize>,
) -> Result<(), AllocError>
    ensures { OnOk result (steps.new.items ≡ steps.old.items ++ option_to_list (seen.look numbers.now instance.now.definition.name)) }
{
    if let Some(number) = numbers.get(instance.definition.name.as_slice()) {
        steps.push(*number)?;
    }
    Ok(())
}

/// The numbers of the modules that instances are of.
fn steps(
    alloc: Global,
    numbers: &Numbers<'_>,
    instances: &[&Instance],
) -> Result<Vec<usize>, AllocError>
    ensures { IfOk result (λ steps. steps.items ≡ flat_map (λ u. option_to_list (seen.look numbers.now u.definition.name)) (seen.nows instances.now)) }
{
    let mut steps = Vec::new(alloc);
    for instance in instances {
        add_step(numbers, instance, &mut steps)?;
    }
    Ok(steps)
}

/// The numbers of the modules that a module instantiates.
fn steps_of(alloc: Global, numbers: &Numbers<'_>, tree: &Module) -> Result<Items<usize>, AllocError>
    ensures { IfOk result (λ steps. steps ≡ spec.steps_of (seen.look numbers.now) tree.now) }
{
    let mut instances = Vec::new(alloc);
    add_instances(&mut instances, tree)?;
    Ok(Items::from_vec(steps(alloc, numbers, &instances)?))
}

/// For each module the numbers of those that it instantiates.
pub fn graph(
    alloc: Global,
    numbers: &Numbers<'_>,
    source: &Source,
) -> Result<Vec<Items<usize>>, AllocError>
    ensures { IfOk result (λ graph. graph.items ≡ map (spec.steps_of (seen.look numbers.now)) source.now.modules) }
{
    let mut graph = Vec::new(alloc);
    for tree in source.modules.as_slice() {
        graph.push(steps_of(alloc, numbers, tree)?)?;
    }
    Ok(graph)
}
