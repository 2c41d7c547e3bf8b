//! The faults of the modules of a source.

ghost use Rattle.std.specs.Prelude.{◌≡◌, ◌<◌, length, IfOk, IfSome};
ghost use Rattle.vl_scope.specs.vl_tree.specs.Hierarchy.{graph_of, module_number, first_top};
ghost use Rattle.vl_scope.specs.Faults.{earliest};
ghost use Rattle.vl_names.specs.HierarchyFaults as spec;
ghost use Rattle.vl_names.specs.Seen as seen;
ghost use Rattle.vl_names.specs.Walks as walk;

use crate::instances::{all_instances, note_instances};
use crate::interface::interfaces;
use crate::itself::note_cyclic;
use crate::numbers::{Numbers, graph, numbers_of};
use crate::tops::{first_of_tops, note_all_tops};
use std::alloc::{AllocError, Global};
use vl_scope::Items;
use vl_scope::fault::Fault;
use vl_scope::source_tree::{Module, Source};

/// Notes the faults of instances.
fn note_given(
    alloc: Global,
    source: &Source,
    numbers: &Numbers<'_>,
    best: Option<Fault>,
) -> Result<Option<Fault>, AllocError>
    requires { seen.look numbers.now ≡ module_number source.now }
    ensures { IfOk result (λ r. r ≡ earliest best (spec.given_faults source.now)) }
{
    let instances = all_instances(alloc, source)?;
    let interfaces = interfaces(alloc, source)?;
    note_instances(alloc, numbers, &interfaces, &instances, best)
}

/// Notes the faults of tops and of modules that contain themselves, by what modules instantiate.
fn note_graph(
    alloc: Global,
    graph: &[Items<usize>],
    modules: &[Module],
    best: Option<Fault>,
) -> Result<Option<Fault>, AllocError>
    requires within { walk.IsWithin graph.now }
    requires all { length graph.now ≡ length modules.now }
    ensures { IfOk result (λ r. r ≡ earliest best (spec.graph_faults graph.now modules.now)) }
{
    let best = note_all_tops(alloc, graph, modules, best)?;
    note_cyclic(alloc, graph, modules, best)
}

/// Notes the faults of tops and of modules that contain themselves.
fn note_hierarchy(
    alloc: Global,
    source: &Source,
    numbers: &Numbers<'_>,
    best: Option<Fault>,
) -> Result<Option<Fault>, AllocError>
    requires { seen.look numbers.now ≡ module_number source.now }
    ensures { IfOk result (λ r. r ≡ earliest best (spec.graph_faults (graph_of source.now) source.now.modules)) }
{
    let graph = graph(alloc, numbers, source)?;
    note_graph(alloc, &graph, source.modules.as_slice(), best)
}

/// The earliest of what was found and the faults of the modules.
pub fn first_hierarchy_fault(
    alloc: Global,
    source: &Source,
    best: Option<Fault>,
) -> Result<Option<Fault>, AllocError>
    ensures { IfOk result (λ b. b ≡ earliest best (spec.hierarchy_faults source.now)) }
{
    let (numbers, best) = numbers_of(alloc, source, best)?;
    let best = note_given(alloc, source, &numbers, best)?;
    note_hierarchy(alloc, source, &numbers, best)
}

/// The number of the top module, from 0: of the first that no module instantiates (IEEE 1364-2005, clause 12.1.1).
pub fn top_number(alloc: Global, source: &Source) -> Result<Option<usize>, AllocError>
    ensures number { IfOk result (λ k. k ≡ first_top (graph_of source.now)) }
    ensures within { IfOk result (λ k. IfSome k (λ n. n < length source.now.modules)) }
{
    let (numbers, _repeated) = numbers_of(alloc, source, None)?;
    let graph = graph(alloc, &numbers, source)?;
    first_of_tops(alloc, &graph)
}
