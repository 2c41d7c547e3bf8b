//! Which modules are tops, and their ports.

ghost use Rattle.std.specs.Prelude.{◌≡◌, ◌<◌, ◌++◌, ℕ, nat_eq, [], ◌||◌, ◌&&◌, not, false, length, slice_index_or, IfOk, IfSome, OnOk};
ghost use Rattle.std.specs.List.{list_any};
ghost use Rattle.vl_scope.specs.vl_tree.specs.Hierarchy.{first_from, first_top};
ghost use Rattle.vl_scope.specs.vl_tree.specs.Hierarchy.{is_top as is_top_lem};
ghost use Rattle.vl_scope.specs.DeclarationFaults.{is_input};
ghost use Rattle.vl_scope.specs.Faults.{earliest, fault_if, each_after};
ghost use Rattle.vl_names.specs.HierarchyFaults as faults;
ghost use Rattle.vl_names.specs.Modules as spec;
ghost use Rattle.vl_names.specs.Seen as seen;
ghost use Rattle.vl_names.specs.Walks as walk;

use crate::interface::{declares, ports};
use std::alloc::{AllocError, Global};
use vl_scope::Items;
use vl_scope::fault::{Fault, earlier};
use vl_scope::source_tree::{Direction, Item, Module, PortDeclaration, Ports};
use vl_scope::tree::Identifier;

/// Adds port declarations.
fn add_declarations<'a>(
    all: &mut Vec<&'a PortDeclaration>,
    more: &'a [PortDeclaration],
) -> Result<(), AllocError>
    ensures { OnOk result (seen.nows all.new.items ≡ seen.nows all.old.items ++ more.now) }
{
    for declaration in more {
        all.push(declaration)?;
    }
    Ok(())
}

/// Adds the port declarations in a module's parentheses.
fn add_header<'a>(
    all: &mut Vec<&'a PortDeclaration>,
    header: &'a Option<Ports>,
) -> Result<(), AllocError>
    ensures { OnOk result (seen.nows all.new.items ≡ seen.nows all.old.items ++ spec.header_declarations header.now) }
{
    match header {
        Some(Ports::Declarations(declarations)) => add_declarations(all, declarations.as_slice()),
        _ => Ok(()),
    }
}

/// The port declarations of a module, in order.
fn declarations(alloc: Global, tree: &Module) -> Result<Vec<&PortDeclaration>, AllocError>
    ensures { IfOk result (λ all. seen.nows all.items ≡ spec.port_declarations tree.now) }
{
    let mut all = Vec::new(alloc);
    add_header(&mut all, &tree.ports)?;
    for item in tree.items.as_slice() {
        if let Item::Port(declaration) = item {
            all.push(declaration)?;
        }
    }
    Ok(all)
}

/// The direction that a port declaration gives.
fn direction_of(declaration: &PortDeclaration) -> Direction
    ensures { result ≡ spec.direction declaration.now }
{
    match declaration {
        PortDeclaration::Net(_, direction, _, _, _, _) => *direction,
        PortDeclaration::Reg(_, _, _, _) => Direction::Output,
        PortDeclaration::Integer(_, _) => Direction::Output,
    }
}

/// The direction that the first declaration of a name gives it.
fn first_direction(
    alloc: Global,
    declarations: &[&PortDeclaration],
    name: &[u8],
) -> Result<Option<Direction>, AllocError>
    ensures { IfOk result (λ r. r ≡ spec.first_direction (seen.nows declarations.now) name.now) }
{
    for declaration in declarations {
        if declares(alloc, declaration, name)? {
            return Ok(Some(direction_of(declaration)));
        }
    }
    Ok(None)
}

/// Whether a direction is that of an input.
fn is_input(direction: Option<Direction>) -> bool
    ensures { result ≡ is_input direction }
{
    match direction {
        Some(Direction::Input) => true,
        Some(Direction::Output) => false,
        None => false,
    }
}

/// Whether ports are one, and an input by these declarations.
fn is_one_input(
    alloc: Global,
    declarations: &[&PortDeclaration],
    names: &[&Identifier],
) -> Result<bool, AllocError>
    ensures { IfOk result (λ yes. yes ≡ spec.is_one_input (seen.nows declarations.now) (seen.nows names.now)) }
{
    match names {
        [name] => {
            let direction = first_direction(alloc, declarations, name.name.as_slice())?;
            Ok(is_input(direction))
        }
        _ => Ok(false),
    }
}

/// Whether the ports of a module are one input.
fn has_one_input(alloc: Global, tree: &Module) -> Result<bool, AllocError>
    ensures { IfOk result (λ yes. yes ≡ spec.has_one_input tree.now) }
{
    let names = ports(alloc, &tree.ports)?;
    let declarations = declarations(alloc, tree)?;
    is_one_input(alloc, &declarations, &names)
}

/// Marks a node, if it is there.
fn mark(marks: &mut Vec<bool>, node: usize)
    ensures same_length { length marks.new.items ≡ length marks.old.items }
    ensures marks { (k : ℕ) → k < length marks.old.items → slice_index_or marks.new.items k false ≡ (slice_index_or marks.old.items k false || nat_eq k node) }
{
    if node < marks.len() {
        marks[node] = true;
    }
}

/// Marks the nodes to which a node's steps lead.
fn mark_all(marks: &mut Vec<bool>, steps: &[usize])
    ensures same_length { length marks.new.items ≡ length marks.old.items }
    ensures marks { (k : ℕ) → k < length marks.old.items → slice_index_or marks.new.items k false ≡ (slice_index_or marks.old.items k false || list_any (nat_eq k) steps.now) }
{
    for step in steps {
        mark(marks, *step);
    }
}

/// Marks the nodes to which steps lead: the others are the tops.
fn instantiated(alloc: Global, graph: &[Items<usize>]) -> Result<Vec<bool>, AllocError>
    requires { walk.IsWithin graph.now }
    ensures same_length { IfOk result (λ marks. length marks.items ≡ length graph.now) }
    ensures tops { IfOk result (λ marks. walk.is_unmarked marks.items ≡ is_top_lem graph.now) }
{
    let mut marks = vec![in alloc; false; graph.len()]?;
    for steps in graph {
        mark_all(&mut marks, steps.as_slice());
    }
    Ok(marks)
}

/// Whether a node isn't marked.
fn is_unmarked(marks: &[bool], node: usize) -> bool
    ensures { result ≡ walk.is_unmarked marks.now node }
{
    match marks.get(node) {
        Some(mark) => !*mark,
        None => true,
    }
}

/// The first node that isn't marked.
fn first_unmarked(marks: &[bool]) -> Option<usize>
    ensures first { result ≡ first_from (walk.is_unmarked marks.now) 0 (length marks.now) }
    ensures within { IfSome result (λ n. n < length marks.now) }
{
    for node in 0..marks.len() {
        if is_unmarked(marks, node) {
            return Some(node);
        }
    }
    None
}

/// Whether a number is this one.
fn is_number(number: Option<usize>, node: usize) -> bool
    ensures { result ≡ faults.is_number number node }
{
    match number {
        None => false,
        Some(number) => number == node,
    }
}

/// Notes construct 6 at a module's name, if it holds.
fn note_if(is_fault: bool, tree: &Module, best: Option<Fault>) -> Option<Fault>
    ensures { result ≡ earliest best (fault_if is_fault tree.now.name.place 6) }
{
    if !is_fault {
        return best;
    }
    earlier(
        best,
        Fault {
            place: tree.name.place,
            construct: 6,
        },
    )
}

/// Notes a top that isn't the first, or whose ports aren't one input.
fn note_top(
    alloc: Global,
    tree: &Module,
    is_first: bool,
    best: Option<Fault>,
) -> Result<Option<Fault>, AllocError>
    ensures { IfOk result (λ r. r ≡ earliest best (fault_if (not is_first || not (spec.has_one_input tree.now)) tree.now.name.place 6)) }
{
    let is_fault = !is_first || !has_one_input(alloc, tree)?;
    Ok(note_if(is_fault, tree, best))
}

/// Notes a module, if it is a top that isn't the first, or whose ports aren't one input.
fn note_if_top(
    alloc: Global,
    tree: &Module,
    is_top: bool,
    is_first: bool,
    best: Option<Fault>,
) -> Result<Option<Fault>, AllocError>
    ensures { IfOk result (λ r. r ≡ earliest best (fault_if (is_top && (not is_first || not (spec.has_one_input tree.now))) tree.now.name.place 6)) }
{
    if is_top {
        note_top(alloc, tree, is_first, best)
    } else {
        Ok(best)
    }
}

/// Notes each top that isn't the first, and each whose ports aren't one input. Tops aren't marked.
fn note_tops(
    alloc: Global,
    marks: &[bool],
    first: Option<usize>,
    modules: &[Module],
    best: Option<Fault>,
) -> Result<Option<Fault>, AllocError>
    ensures { IfOk result (λ r. r ≡ earliest best (each_after (faults.top_fault (walk.is_unmarked marks.now) first) [] modules.now)) }
{
    let mut best = best;
    for (node, tree) in modules.iter().enumerate() {
        best = note_if_top(
            alloc,
            tree,
            is_unmarked(marks, node),
            is_number(first, node),
            best,
        )?;
    }
    Ok(best)
}

/// Notes the first module, where there is no top.
fn note_no_top(first: Option<usize>, modules: &[Module], best: Option<Fault>) -> Option<Fault>
    ensures { result ≡ earliest best (faults.no_top_faults first modules.now) }
{
    match modules {
        [] => best,
        [tree, ..] => note_if(first.is_none(), tree, best),
    }
}

/// Notes the faults of tops, or that there is none, by marks: tops aren't marked.
fn note_unmarked(
    alloc: Global,
    marks: &[bool],
    modules: &[Module],
    best: Option<Fault>,
) -> Result<Option<Fault>, AllocError>
    ensures { IfOk result (λ r. r ≡ earliest best (faults.top_faults (walk.is_unmarked marks.now) (first_from (walk.is_unmarked marks.now) 0 (length marks.now)) modules.now)) }
{
    let first = first_unmarked(marks);
    let best = note_tops(alloc, marks, first, modules, best)?;
    Ok(note_no_top(first, modules, best))
}

/// Notes the faults of tops, or that there is none.
pub fn note_all_tops(
    alloc: Global,
    graph: &[Items<usize>],
    modules: &[Module],
    best: Option<Fault>,
) -> Result<Option<Fault>, AllocError>
    requires { walk.IsWithin graph.now }
    ensures { IfOk result (λ r. r ≡ earliest best (faults.top_faults (is_top_lem graph.now) (first_top graph.now) modules.now)) }
{
    let marks = instantiated(alloc, graph)?;
    note_unmarked(alloc, &marks, modules, best)
}

/// The first top.
pub fn first_of_tops(alloc: Global, graph: &[Items<usize>]) -> Result<Option<usize>, AllocError>
    requires { walk.IsWithin graph.now }
    ensures number { IfOk result (λ k. k ≡ first_top graph.now) }
    ensures within { IfOk result (λ k. IfSome k (λ n. n < length graph.now)) }
{
    let marks = instantiated(alloc, graph)?;
    Ok(first_unmarked(&marks))
}
