//! Numbers of nodes that rise along no step: those of the strongly connected components of a graph.
//!
//! The components are found along paths: the nodes of a path, and the first node of each component on it. They are
//! numbered as they are left, so that a step leads to the same component or to one with a lower number. `is_falling` checks
//! that, so nothing that is proved rests on how the numbers are found.

use std::alloc::{AllocError, Global};
use vl_scope::Items;

/// The state of the search.
#[derive(Drop)]
struct Search {
    /// In which order the nodes were entered, from 1; 0 for those that weren't.
    order: Vec<usize>,
    /// The numbers of their components, from 1; 0 for those that have none yet.
    components: Vec<usize>,
    /// How many nodes were entered.
    entered: usize,
    /// How many components were left.
    left: usize,
    /// The nodes that have no component yet.
    open: Vec<usize>,
    /// The first nodes of the components on the path.
    roots: Vec<usize>,
    /// The nodes on the path, each with the number of its next step.
    path: Vec<(usize, usize)>,
}

/// What stands at an index, or 0.
fn read(list: &[usize], index: usize) -> usize {
    match list.get(index) {
        Some(value) => *value,
        None => 0,
    }
}

/// Writes at an index, if there is such a place.
fn write(list: &mut Vec<usize>, index: usize, value: usize) {
    if index < list.len() {
        list[index] = value;
    }
}

/// Enters a node.
fn enter(search: &mut Search, node: usize) -> Result<(), AllocError> {
    search.entered = search.entered.saturating_add(1);
    write(&mut search.order, node, search.entered);
    search.open.push(node)?;
    search.roots.push(node)?;
    search.path.push((node, 0))?;
    Ok(())
}

/// Whether the last root was entered behind a time.
fn is_behind(search: &Search, time: usize) -> bool {
    match search.roots.last() {
        Some(root) => read(&search.order, *root) > time,
        None => false,
    }
}

/// Joins the components on the path from that of a node on.
fn join(search: &mut Search, node: usize) {
    let time = read(&search.order, node);
    'join: while is_behind(search, time) {
        if search.roots.pop().is_none() {
            return;
        }
    }
}

/// Whether a node is the last root.
fn is_root(search: &Search, node: usize) -> bool {
    match search.roots.last() {
        Some(root) => *root == node,
        None => false,
    }
}

/// Gives a number to the component of a root.
fn close(search: &mut Search, root: usize) {
    search.left = search.left.saturating_add(1);
    'close: while let Some(node) = search.open.pop() {
        write(&mut search.components, node, search.left);
        if node == root {
            return;
        }
    }
}

/// Leaves a node.
fn leave(search: &mut Search, node: usize) {
    if is_root(search, node) {
        search.roots.pop();
        close(search, node);
    }
}

/// The node to which a step leads, if there is such a step.
fn step_from(graph: &[Items<usize>], node: usize, number: usize) -> Option<usize> {
    let steps = graph.get(node)?;
    steps.as_slice().get(number).copied()
}

/// Follows a step.
fn follow(search: &mut Search, to: usize) -> Result<(), AllocError> {
    if read(&search.order, to) == 0 {
        return enter(search, to);
    }
    if read(&search.components, to) == 0 {
        join(search, to);
    }
    Ok(())
}

/// Goes on with the path. Whether there was something to do.
fn go_on(search: &mut Search, graph: &[Items<usize>]) -> Result<bool, AllocError> {
    let Some((node, number)) = search.path.pop() else {
        return Ok(false);
    };
    match step_from(graph, node, number) {
        None => leave(search, node),
        Some(to) => {
            search.path.push((node, number.saturating_add(1)))?;
            follow(search, to)?;
        }
    }
    Ok(true)
}

/// How many steps and nodes a graph has.
fn size(graph: &[Items<usize>]) -> usize {
    let mut size = graph.len();
    for steps in graph {
        size = size.saturating_add(steps.as_slice().len());
    }
    size
}

/// Goes from a node as far as steps lead to new nodes.
fn explore(
    search: &mut Search,
    graph: &[Items<usize>],
    size: usize,
    node: usize,
) -> Result<(), AllocError> {
    if read(&search.order, node) != 0 {
        return Ok(());
    }
    enter(search, node)?;
    for _ in 0..size {
        if !go_on(search, graph)? {
            return Ok(());
        }
    }
    Ok(())
}

/// For each node the number of its strongly connected component.
pub fn components(alloc: Global, graph: &[Items<usize>]) -> Result<Vec<usize>, AllocError> {
    let mut search = Search {
        order: vec![in alloc; 0; graph.len()]?,
        components: vec![in alloc; 0; graph.len()]?,
        entered: 0,
        left: 0,
        open: Vec::new(alloc),
        roots: Vec::new(alloc),
        path: Vec::new(alloc),
    };
    let size = size(graph);
    for node in 0..graph.len() {
        explore(&mut search, graph, size, node)?;
    }
    Ok(search.components)
}
