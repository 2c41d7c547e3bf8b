//! The modules that contain themselves.

ghost use Rattle.std.specs.Prelude.{◌≡◌, ◌<◌, ◌≤◌, ℕ, length, IsTrue, IfOk};
ghost use Rattle.vl_scope.specs.Faults.{In, earlier, earliest, fault_if};
ghost use Rattle.vl_names.specs.HierarchyFaults.{itself_faults};
ghost use Rattle.vl_names.specs.Walks as spec;

use crate::components::components;
use crate::cycle::leads_back;
use std::alloc::{AllocError, Global};
use vl_scope::Items;
use vl_scope::fault::{Fault, earlier};
use vl_scope::source_tree::Module;

/// The number that a node has, or 0.
fn rank(ranks: &[usize], node: usize) -> usize
    ensures { result ≡ spec.rank ranks.now node }
{
    match ranks.get(node) {
        Some(rank) => *rank,
        None => 0,
    }
}

/// Whether no node has a greater number than the limit.
fn are_at_most(nodes: &[usize], ranks: &[usize], limit: usize) -> bool
    ensures { IsTrue result → (k : ℕ) → In k nodes.now → spec.rank ranks.now k ≤ limit }
{
    for node in nodes {
        if rank(ranks, *node) > limit {
            return false;
        }
    }
    true
}

/// Whether all nodes have lower numbers than the limit.
fn are_below(nodes: &[usize], ranks: &[usize], limit: usize) -> bool
    ensures { IsTrue result → (k : ℕ) → In k nodes.now → spec.rank ranks.now k < limit }
{
    for node in nodes {
        if rank(ranks, *node) >= limit {
            return false;
        }
    }
    true
}

/// Whether no step leads to a greater number.
fn is_falling(graph: &[Items<usize>], ranks: &[usize]) -> bool
    ensures { IsTrue result → spec.IsFalling graph.now ranks.now }
{
    for (node, steps) in graph.iter().enumerate() {
        if !are_at_most(steps.as_slice(), ranks, rank(ranks, node)) {
            return false;
        }
    }
    true
}

/// Whether a path of steps leads from a node back to it.
fn contains_itself(
    alloc: Global,
    graph: &[Items<usize>],
    ranks: &[usize],
    is_falling: bool,
    node: usize,
) -> Result<bool, AllocError>
    requires falling { IsTrue is_falling → spec.IsFalling graph.now ranks.now }
    requires within { spec.IsWithin graph.now }
    requires node { node < length graph.now }
    ensures { IfOk result (λ yes. yes ≡ spec.is_cyclic graph.now node) }
{
    if is_falling && are_below(graph[node].as_slice(), ranks, rank(ranks, node)) {
        return Ok(false);
    }
    leads_back(alloc, graph, node)
}

/// Whether a fault wouldn't be the earliest.
fn is_late(best: Option<Fault>, fault: Fault) -> bool
    ensures { IsTrue result → earlier best fault ≡ best }
{
    earlier(best, fault) == best
}

/// Notes a module that contains itself. Nothing is searched where its fault wouldn't be the earliest.
fn note_if_cyclic(
    alloc: Global,
    graph: &[Items<usize>],
    ranks: &[usize],
    is_falling: bool,
    node: usize,
    tree: &Module,
    best: Option<Fault>,
) -> Result<Option<Fault>, AllocError>
    requires falling { IsTrue is_falling → spec.IsFalling graph.now ranks.now }
    requires within { spec.IsWithin graph.now }
    requires node { node < length graph.now }
    ensures { IfOk result (λ r. r ≡ earliest best (fault_if (spec.is_cyclic graph.now node) tree.now.name.place 5)) }
{
    let fault = Fault {
        place: tree.name.place,
        construct: 5,
    };
    if is_late(best, fault) {
        return Ok(best);
    }
    if contains_itself(alloc, graph, ranks, is_falling, node)? {
        Ok(earlier(best, fault))
    } else {
        Ok(best)
    }
}

/// Notes the modules that contain themselves.
pub fn note_cyclic(
    alloc: Global,
    graph: &[Items<usize>],
    modules: &[Module],
    best: Option<Fault>,
) -> Result<Option<Fault>, AllocError>
    requires within { spec.IsWithin graph.now }
    requires all { length graph.now ≡ length modules.now }
    ensures { IfOk result (λ r. r ≡ earliest best (itself_faults graph.now modules.now)) }
{
    let ranks = components(alloc, graph)?;
    let is_falling = is_falling(graph, &ranks);
    let mut best = best;
    for (node, tree) in modules.iter().enumerate() {
        best = note_if_cyclic(alloc, graph, &ranks, is_falling, node, tree, best)?;
    }
    Ok(best)
}
