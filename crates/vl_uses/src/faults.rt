//! The faults of uses in a source.

ghost use Rattle.std.specs.Prelude.{◌≡◌, ◌+◌, ◌^◌, ◌<◌, List, [], drop, flat_map, map, IfOk, None, Some};
ghost use Rattle.vl_scope.specs.Declarations as scope;
ghost use Rattle.vl_scope.specs.Faults.{earliest};
ghost use Rattle.vl_uses.specs.Nodes as n;
ghost use Rattle.vl_uses.specs.Settings as k;
ghost use Rattle.vl_uses.specs.UseFaults as spec;
ghost use Rattle.vl_uses.specs.Walks as w;

use crate::declarations::{note_function, note_groups, note_item, note_ports};
use crate::names::Names;
use crate::setting::behind;
use std::alloc::{AllocError, Global};
use vl_scope::declaration::{Declaration, function_declarations, module_declarations};
use vl_scope::fault::Fault;
use vl_scope::scope::Scope;
use vl_tree::parts::Parts;
use vl_tree::source_tree::{Function, Item, Module, ParameterGroup, Source};

/// The declarations behind the first.
fn behind_first<'s, 'a>(declarations: &'s [Declaration<'a>]) -> &'s [Declaration<'a>]
    ensures { scope.all_seen result.now ≡ drop 1 (scope.all_seen declarations.now) }
{
    match declarations {
        [] => declarations,
        [_, others @ ..] => others,
    }
}

/// Notes the faults in a function of a module, of whose declarations the scope is known.
fn note_inner_uses(
    alloc: Global,
    outer: &Scope<'_>,
    inner: &Scope<'_>,
    declarations: &[Declaration<'_>],
    parameters: usize,
    function: &Function,
    best: Option<Fault>,
) -> Result<Option<Fault>, AllocError>
    requires declarations { scope.all_seen declarations.now ≡ scope.function_declarations function.now }
    requires inner { w.Knows inner.now (scope.function_declarations function.now) }
    ensures { (as' : List scope.Declared) → w.Knows outer.now as' → IfOk result (λ b. b ≡ earliest best (flat_map (spec.site_faults as') (map (n.site (Some function.now)) (n.function_nodes (k.behind parameters) function.now)))) }
{
    let called = Scope::of(alloc, behind_first(declarations))?;
    let names = Names {
        outer,
        inner,
        called: &called,
    };
    Ok(note_function(&names, behind(parameters), function, best))
}

/// Notes the faults in a function of a module, of which the declarations are known.
fn note_declared_uses(
    alloc: Global,
    outer: &Scope<'_>,
    declarations: &[Declaration<'_>],
    parameters: usize,
    function: &Function,
    best: Option<Fault>,
) -> Result<Option<Fault>, AllocError>
    requires { scope.all_seen declarations.now ≡ scope.function_declarations function.now }
    ensures { (as' : List scope.Declared) → w.Knows outer.now as' → IfOk result (λ b. b ≡ earliest best (flat_map (spec.site_faults as') (map (n.site (Some function.now)) (n.function_nodes (k.behind parameters) function.now)))) }
{
    let inner = Scope::of(alloc, declarations)?;
    note_inner_uses(
        alloc,
        outer,
        &inner,
        declarations,
        parameters,
        function,
        best,
    )
}

/// Notes the faults in a function of a module, which stands behind so many declared parameters.
fn note_function_uses(
    alloc: Global,
    outer: &Scope<'_>,
    parameters: usize,
    function: &Function,
    best: Option<Fault>,
) -> Result<Option<Fault>, AllocError>
    ensures { (as' : List scope.Declared) → w.Knows outer.now as' → IfOk result (λ b. b ≡ earliest best (flat_map (spec.site_faults as') (map (n.site (Some function.now)) (n.function_nodes (k.behind parameters) function.now)))) }
{
    let declarations = function_declarations(alloc, function)?;
    note_declared_uses(
        alloc,
        outer,
        declarations.as_slice(),
        parameters,
        function,
        best,
    )
}

/// Notes the faults in an item of a module, which stands behind so many declared parameters.
fn note_item_uses(
    alloc: Global,
    outer: &Scope<'_>,
    none: &Scope<'_>,
    parameters: usize,
    item: &Item,
    best: Option<Fault>,
) -> Result<Option<Fault>, AllocError>
    requires { parameters + n.item_parameters item.now < 2 ^ 64 }
    ensures { (as' : List scope.Declared) → w.Knows outer.now as' → w.Knows none.now [] → IfOk result (λ b. b ≡ earliest best (flat_map (spec.site_faults as') (n.item_sites parameters item.now))) }
{
    match item {
        Item::Function(function) => note_function_uses(alloc, outer, parameters, function, best),
        _ => {
            let names = Names {
                outer,
                inner: none,
                called: none,
            };
            Ok(note_item(&names, behind(parameters), item, best))
        }
    }
}

/// How many parameters an item declares.
fn item_parameters(item: &Item) -> usize
    ensures { result ≡ n.item_parameters item.now }
{
    match item {
        Item::Parameter(_, _, _, assignments) => assignments.as_slice().len(),
        _ => 0,
    }
}

/// Notes the faults in the items of a module, of which the first stands behind so many declared parameters.
fn note_items(
    alloc: Global,
    outer: &Scope<'_>,
    none: &Scope<'_>,
    parameters: usize,
    items: &[Item],
    best: Option<Fault>,
) -> Result<Option<Fault>, AllocError>
    requires { parameters + n.items_parameters items.now < 2 ^ 64 }
    ensures { (as' : List scope.Declared) → w.Knows outer.now as' → w.Knows none.now [] → IfOk result (λ b. b ≡ earliest best (flat_map (spec.site_faults as') (n.items_sites parameters items.now))) }
{
    let mut best = best;
    let mut parameters = parameters;
    for item in items {
        best = note_item_uses(alloc, outer, none, parameters, item, best)?;
        parameters += item_parameters(item);
    }
    Ok(best)
}

/// How many parameters the groups in a module's header declare.
fn group_parameters(groups: &[ParameterGroup]) -> usize
    requires { n.group_parameters groups.now < 2 ^ 64 }
    ensures { result ≡ n.group_parameters groups.now }
{
    let mut count = 0;
    for group in groups {
        count += group.assignments.as_slice().len();
    }
    count
}

/// How many parameters a module's header declares.
fn header_parameters(groups: &Option<Parts<ParameterGroup>>) -> usize
    requires { n.header_parameters groups.now < 2 ^ 64 }
    ensures { result ≡ n.header_parameters groups.now }
{
    match groups {
        None => 0,
        Some(groups) => group_parameters(groups.as_slice()),
    }
}

/// Notes the faults in the header of a module, which declares so many parameters.
fn note_header(
    names: &Names<'_>,
    parameters: usize,
    tree: &Module,
    best: Option<Fault>,
) -> Option<Fault>
    requires { parameters ≡ n.header_parameters tree.now.parameters }
    ensures { result ≡ earliest best (w.faults (w.means names.now) (n.header_nodes tree.now)) }
{
    let best = match &tree.parameters {
        None => best,
        Some(groups) => note_groups(names, behind(0), groups.as_slice(), best),
    };
    match &tree.ports {
        None => best,
        Some(ports) => note_ports(names, behind(parameters), ports, best),
    }
}

/// Notes the faults in a module, of whose declarations the scope is known.
fn note_module_uses(
    alloc: Global,
    outer: &Scope<'_>,
    none: &Scope<'_>,
    tree: &Module,
    best: Option<Fault>,
) -> Result<Option<Fault>, AllocError>
    requires { n.header_parameters tree.now.parameters + n.items_parameters tree.now.items < 2 ^ 64 }
    ensures { w.Knows outer.now (scope.declarations tree.now) → w.Knows none.now [] → IfOk result (λ b. b ≡ earliest best (spec.module_faults tree.now)) }
{
    let names = Names {
        outer,
        inner: none,
        called: none,
    };
    let parameters = header_parameters(&tree.parameters);
    let best = note_header(&names, parameters, tree, best);
    note_items(alloc, outer, none, parameters, tree.items.as_slice(), best)
}

/// Notes the faults in a module, of which the declarations are known.
fn note_declared_module(
    alloc: Global,
    declarations: &[Declaration<'_>],
    none: &Scope<'_>,
    tree: &Module,
    best: Option<Fault>,
) -> Result<Option<Fault>, AllocError>
    requires declared { scope.all_seen declarations.now ≡ scope.declarations tree.now }
    requires few { n.header_parameters tree.now.parameters + n.items_parameters tree.now.items < 2 ^ 64 }
    ensures { w.Knows none.now [] → IfOk result (λ b. b ≡ earliest best (spec.module_faults tree.now)) }
{
    let outer = Scope::of(alloc, declarations)?;
    note_module_uses(alloc, &outer, none, tree, best)
}

/// Notes the faults in a module.
fn note_module(
    alloc: Global,
    none: &Scope<'_>,
    tree: &Module,
    best: Option<Fault>,
) -> Result<Option<Fault>, AllocError>
    ensures { w.Knows none.now [] → IfOk result (λ b. b ≡ earliest best (spec.module_faults tree.now)) }
{
    let declarations = module_declarations(alloc, tree)?;
    note_declared_module(alloc, declarations.as_slice(), none, tree, best)
}

/// Notes the faults in modules.
fn note_modules(
    alloc: Global,
    none: &Scope<'_>,
    modules: &[Module],
    best: Option<Fault>,
) -> Result<Option<Fault>, AllocError>
    ensures { w.Knows none.now [] → IfOk result (λ b. b ≡ earliest best (flat_map spec.module_faults modules.now)) }
{
    let mut best = best;
    for tree in modules {
        best = note_module(alloc, none, tree, best)?;
    }
    Ok(best)
}

/// The earliest of what was found and the faults of uses in a source.
pub fn first_use_fault(
    alloc: Global,
    source: &Source,
    best: Option<Fault>,
) -> Result<Option<Fault>, AllocError>
    ensures { IfOk result (λ b. b ≡ earliest best (spec.use_faults source.now)) }
{
    let none = Scope::of(alloc, &[])?;
    note_modules(alloc, &none, source.modules.as_slice(), best)
}
