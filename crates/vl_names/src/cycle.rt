//! Whether a path of steps leads from a node back to it.

ghost use Rattle.std.specs.Prelude.{◌≡◌, ◌<◌, ℕ, ◌∷◌, [], length, IfOk, OnOk};
ghost use Rattle.vl_scope.specs.Faults.{In};
ghost use Rattle.vl_names.specs.Walks as spec;

use std::alloc::{AllocError, Global};
use vl_scope::Items;

/// Marks a node and puts it on the pile, unless it is marked.
fn visit(node: usize, marks: &mut Vec<bool>, pile: &mut Vec<usize>) -> Result<(), AllocError>
    requires { node < length marks.old.items }
    ensures { OnOk result (spec.Visits (node ∷ []) marks.old.items pile.old.items marks.new.items pile.new.items) }
{
    if marks[node] {
        return Ok(());
    }
    pile.push(node)?;
    marks[node] = true;
    Ok(())
}

/// Marks nodes and puts those on the pile that weren't marked.
fn visit_all(
    nodes: &[usize],
    marks: &mut Vec<bool>,
    pile: &mut Vec<usize>,
) -> Result<(), AllocError>
    requires { (k : ℕ) → In k nodes.now → k < length marks.old.items }
    ensures { OnOk result (spec.Visits nodes.now marks.old.items pile.old.items marks.new.items pile.new.items) }
{
    for node in nodes {
        visit(*node, marks, pile)?;
    }
    Ok(())
}

/// Whether a path of steps leads from the start back to it.
pub fn leads_back(alloc: Global, graph: &[Items<usize>], start: usize) -> Result<bool, AllocError>
    requires within { spec.IsWithin graph.now }
    requires start { start < length graph.now }
    ensures { IfOk result (λ yes. yes ≡ spec.is_cyclic graph.now start) }
{
    let mut marks = vec![in alloc; false; graph.len()]?;
    let mut pile = Vec::new(alloc);
    pile.push(start)?;
    'search: while let Some(node) = pile.pop() {
        visit_all(graph[node].as_slice(), &mut marks, &mut pile)?;
    }
    Ok(marks[start])
}
