//! The faults of declarations: refused constructs 3, 4 and 7.

ghost use Rattle.std.specs.Prelude.{◌≡◌, ℕ, List, ◌∷◌, [], ◌++◌, ◌||◌, ◌==◌, not, is_some, length, map, flat_map, IfOk, OnOk};
ghost use Rattle.std.specs.Str.{bytes_eq};
ghost use Rattle.vl_scope.specs.Faults.{earliest, fault_if};
ghost use Rattle.vl_scope.specs.Declarations.{seen, all_seen, names_seen, function_inputs as function_inputs_lem, function_declarations as function_declarations_lem, body_inputs as body_inputs_lem};
ghost use Rattle.vl_scope.specs.DeclarationFaults as spec;
ghost use Rattle.vl_scope.specs.Keys.{has};
ghost use Rattle.vl_scope.specs.Marks.{marks_in, marks_of as marks_of_lem, clash_of, mismatch_of, marks_at as marks_at_lem};

use crate::declaration::{Declaration, function_declarations, module_declarations};
use crate::fault::{Fault, earlier};
use crate::inputs::{body_inputs, function_inputs};
use crate::marks::{Known, add_marks, clash, marks_at, marks_of, mismatch};
use crate::ports::add_port;
use indexmap::{IndexMap, IndexSet};
use std::alloc::{AllocError, Global};
use vl_base::place::Place;
use vl_tree::source_tree::{Function, Item, Module, Ports, Source};
use vl_tree::tree::Identifier;

/// Notes a fault, if it holds.
fn note_if(holds: bool, place: Place, construct: u8, best: Option<Fault>) -> Option<Fault>
    ensures { result ≡ earliest best (fault_if holds place construct) }
{
    if holds {
        earlier(best, Fault { place, construct })
    } else {
        best
    }
}

/// Notes the faults at a declaration behind others of its scope.
fn note_declaration(
    known: &Known<'_>,
    declaration: Declaration<'_>,
    best: Option<Fault>,
) -> Option<Fault>
    ensures { result ≡ (let told = marks_of_lem (seen declaration.entry) in let before = marks_at_lem known.now declaration.entry.name.now.name in
        earliest best (fault_if (clash_of before told) declaration.entry.name.now.place 3 ++ fault_if (mismatch_of before told) declaration.entry.name.now.place 4)) }
{
    let name = declaration.name;
    let before = marks_at(known, name.name.as_slice());
    let told = marks_of(declaration);
    let best = note_if(clash(before, told), name.place, 3, best);
    note_if(mismatch(before, told), name.place, 4, best)
}

/// Notes the faults at the declarations of a scope. What is known of its names.
fn note_scope<'a>(
    alloc: Global,
    declarations: &[Declaration<'a>],
    best: Option<Fault>,
) -> Result<(Known<'a>, Option<Fault>), AllocError>
    ensures known { IfOk result (λ r. (t : List ℕ) → marks_at_lem r.0 t ≡ marks_in (all_seen declarations.now) t) }
    ensures best { IfOk result (λ r. r.1 ≡ earliest best (spec.scope_faults (all_seen declarations.now))) }
{
    let mut known = IndexMap::new(alloc);
    let mut best = best;
    for declaration in declarations {
        best = note_declaration(&known, *declaration, best);
        add_marks(&mut known, *declaration)?;
    }
    Ok((known, best))
}

/// The names that a module's header lists.
fn listed(tree: &Module) -> &[Identifier]
    ensures { result.now ≡ spec.listed tree.now }
{
    match &tree.ports {
        Some(Ports::Names(names)) => names.as_slice(),
        _ => &[],
    }
}

/// Notes a listed name that is listed before, and adds it to those.
fn note_name<'a>(
    names: &mut IndexSet<&'a [u8]>,
    name: &'a Identifier,
    best: Option<Fault>,
) -> Result<Option<Fault>, AllocError>
    ensures names { OnOk result ((t : List ℕ) → has names.new t ≡ (has names.old t || bytes_eq t name.entry.now.name)) }
    ensures best { IfOk result (λ r. r ≡ earliest best (fault_if (has names.old name.entry.now.name) name.entry.now.place 3)) }
{
    let is_new = names.insert(name.name.as_slice())?;
    Ok(note_if(!is_new, name.place, 3, best))
}

/// Notes the listed names that are listed before. The names.
fn note_listed<'a>(
    alloc: Global,
    names: &'a [Identifier],
    best: Option<Fault>,
) -> Result<(IndexSet<&'a [u8]>, Option<Fault>), AllocError>
    ensures names { IfOk result (λ r. (t : List ℕ) → has r.0 t ≡ spec.names_have names.entry.now t) }
    ensures best { IfOk result (λ r. r.1 ≡ earliest best (spec.repeated_faults names.entry.now)) }
{
    let mut all = IndexSet::new(alloc);
    let mut best = best;
    for name in names {
        best = note_name(&mut all, name, best)?;
    }
    Ok((all, best))
}

/// Notes the listed names without a direction.
fn note_undirected(known: &Known<'_>, names: &[Identifier], best: Option<Fault>) -> Option<Fault>
    ensures { result ≡ earliest best (flat_map (λ n. fault_if (not (marks_at_lem known.now n.name).directed) n.place 7) names.now) }
{
    let mut best = best;
    for name in names {
        let is_directed = marks_at(known, name.name.as_slice()).directed;
        best = note_if(!is_directed, name.place, 7, best);
    }
    best
}

/// The declarations of ports among the items.
fn item_ports(alloc: Global, items: &[Item]) -> Result<Vec<Declaration<'_>>, AllocError>
    ensures { IfOk result (λ ds. all_seen ds.items ≡ flat_map spec.item_ports items.entry.now) }
{
    let mut declarations = Vec::new(alloc);
    for item in items {
        if let Item::Port(port) = item {
            add_port(&mut declarations, port)?;
        }
    }
    Ok(declarations)
}

/// Notes the ports that aren't listed.
fn note_unlisted(
    names: &IndexSet<&[u8]>,
    declarations: &[Declaration<'_>],
    best: Option<Fault>,
) -> Option<Fault>
    ensures { result ≡ earliest best (flat_map (λ a. fault_if (not (has names.now a.name.name)) a.name.place 7) (all_seen declarations.now)) }
{
    let mut best = best;
    for declaration in declarations {
        let name = declaration.name;
        let is_listed = names.contains(name.name.as_slice());
        best = note_if(!is_listed, name.place, 7, best);
    }
    best
}

/// Notes names, if it holds.
fn note_beside(holds: bool, names: &[&Identifier], best: Option<Fault>) -> Option<Fault>
    ensures { result ≡ earliest best (flat_map (λ n. fault_if holds n.place 7) (names_seen names.now)) }
{
    let mut best = best;
    for name in names {
        best = note_if(holds, name.place, 7, best);
    }
    best
}

/// Notes the faults at the declarations in a function.
fn note_locals(
    alloc: Global,
    function: &Function,
    best: Option<Fault>,
) -> Result<Option<Fault>, AllocError>
    ensures { IfOk result (λ r. r ≡ earliest best (spec.scope_faults (function_declarations_lem function.now))) }
{
    let declarations = function_declarations(alloc, function)?;
    let (_, best) = note_scope(alloc, &declarations, best)?;
    Ok(best)
}

/// Whether a function has no input.
fn has_no_input(alloc: Global, function: &Function) -> Result<bool, AllocError>
    ensures { IfOk result (λ none. none ≡ (length (function_inputs_lem function.now) == 0)) }
{
    let inputs = function_inputs(alloc, function)?;
    Ok(inputs.len() == 0)
}

/// Notes the inputs in a function's body, if inputs stand in its parentheses.
fn note_body(
    alloc: Global,
    function: &Function,
    best: Option<Fault>,
) -> Result<Option<Fault>, AllocError>
    ensures { IfOk result (λ r. r ≡ earliest best (flat_map (λ n. fault_if (is_some function.now.ports) n.place 7) (body_inputs_lem function.now))) }
{
    let names = body_inputs(alloc, function)?;
    Ok(note_beside(function.ports.is_some(), &names, best))
}

/// Notes the faults of a function.
fn note_function(
    alloc: Global,
    function: &Function,
    best: Option<Fault>,
) -> Result<Option<Fault>, AllocError>
    ensures { IfOk result (λ r. r ≡ earliest best (spec.function_faults function.now)) }
{
    let best = note_locals(alloc, function, best)?;
    let is_bare = has_no_input(alloc, function)?;
    note_body(
        alloc,
        function,
        note_if(is_bare, function.name.place, 7, best),
    )
}

/// Notes the faults of a module's functions.
fn note_functions(
    alloc: Global,
    items: &[Item],
    best: Option<Fault>,
) -> Result<Option<Fault>, AllocError>
    ensures { IfOk result (λ r. r ≡ earliest best (flat_map spec.item_faults items.now)) }
{
    let mut best = best;
    for item in items {
        if let Item::Function(function) = item {
            best = note_function(alloc, function, best)?;
        }
    }
    Ok(best)
}

/// Notes the faults of a module.
fn note_module(
    alloc: Global,
    tree: &Module,
    best: Option<Fault>,
) -> Result<Option<Fault>, AllocError>
    ensures { IfOk result (λ r. r ≡ earliest best (spec.module_faults tree.now)) }
{
    let declarations = module_declarations(alloc, tree)?;
    let (known, best) = note_scope(alloc, &declarations, best)?;
    let (names, best) = note_listed(alloc, listed(tree), best)?;
    let best = note_undirected(&known, listed(tree), best);
    let ports = item_ports(alloc, tree.items.as_slice())?;
    let best = note_unlisted(&names, &ports, best);
    note_functions(alloc, tree.items.as_slice(), best)
}

/// The earliest of what was found and the faults of a source's declarations.
pub fn first_declaration_fault(
    alloc: Global,
    source: &Source,
    best: Option<Fault>,
) -> Result<Option<Fault>, AllocError>
    ensures { IfOk result (λ b. b ≡ earliest best (spec.declaration_faults source.now)) }
{
    let mut best = best;
    for tree in source.modules.as_slice() {
        best = note_module(alloc, tree, best)?;
    }
    Ok(best)
}
