//! What the names of an instance stand for (IEEE 1364-2005, clause 12).

ghost use Rattle.std.specs.Prelude.{◌≡◌, ◌≤◌, ℕ, List, map, IfOk};
ghost use Rattle.elab_plain.specs.vl_flat.specs.Items as x;
ghost use Rattle.elab_plain.specs.vl_flat.specs.Environments as e;
ghost use Rattle.elab_plain.specs.SeenItems.{seen_function, seen_item, seen_module};
ghost use Rattle.elab_constant.specs.Seen.{look};
ghost use Rattle.elab_kinds.specs.Facts.{facts, facts_of};
ghost use Rattle.elab_kinds.specs.Sized.{Tells, size_of};
ghost use Rattle.elab_instance.specs.Given.{given_of, overrides_of};
ghost use Rattle.elab_instance.specs.Known as spec;

use crate::given::Above;
use crate::parameters::add_parameters;
use crate::signals::add_signals;
use elab_constant::ranges::type_form;
use elab_constant::scope::{Known, Names, bind, module_scope};
use elab_kinds::counts::{Counts, sum};
use elab_kinds::roles::Roles;
use elab_kinds::sizes::{Sizes, instances_size};
use elab_plain::items::{Function, Item, Module};
use indexmap::IndexMap;
use std::alloc::{AllocError, Global};

/// So many functions, and no signals.
fn functions(count: u32) -> Counts
    ensures { spec.counts_of result ≡ spec.functions count }
{
    Counts {
        signals: 0,
        functions: count,
    }
}

/// Adds a function. The numbers behind it.
fn add_function<'m>(
    names: &mut Names<'m>,
    next: Counts,
    function: &'m Function,
) -> Result<Counts, AllocError>
    ensures { IfOk result (λ after. spec.known names.new after ≡ spec.with_function (spec.known names.old next) (seen_function function.entry.now)) }
{
    let form = type_form(&module_scope(names), &function.kind);
    bind(
        names,
        function.name.name.as_slice(),
        Known::Function(next.functions, form),
    )?;
    Ok(sum(next, functions(1))?)
}

/// Adds an item. The numbers behind it.
fn add_item<'m>(
    names: &mut Names<'m>,
    next: Counts,
    sizes: &Sizes<'_>,
    depth: u8,
    roles: &Roles<'_>,
    above: &Above<'_, '_, '_, 'm>,
    item: &'m Item,
) -> Result<Counts, AllocError>
    ensures table { IfOk result (λ after. spec.known names.new after ≡ spec.with_item (size_of sizes.now depth) (overrides_of above.now) (spec.kinds_by (facts_of roles.now) above.now) (spec.known names.old next) (seen_item item.entry.now)) }
    ensures module { IfOk result (λ after. (told : ℕ → List ℕ → e.Counts) (m : x.Module) (path : List ℕ) (base : e.Counts) → Tells sizes.now told → depth ≤ 129 → facts_of roles.now ≡ facts m →
        spec.known names.new after ≡ e.with_item (told depth) (given_of m above.now path base) m (spec.known names.old next) (seen_item item.entry.now)) }
{
    match item {
        Item::Parameters(kind, parameters) => {
            add_parameters(names, above, kind, parameters.as_slice())?;
            Ok(next)
        }
        Item::Signals(kind, declared) => {
            add_signals(names, next, roles, above, kind, declared.as_slice())
        }
        Item::Functions(function) => add_function(names, next, function),
        Item::Instantiates(instances) => {
            let size = instances_size(sizes, depth, instances)?;
            Ok(sum(next, size)?)
        }
        Item::Assigns(_) => Ok(next),
        Item::Initial(_, _) => Ok(next),
        Item::Always(_, _, _) => Ok(next),
    }
}

/// The names of an instance of a module that stands below this, whose first signal and function have these numbers.
/// `sizes` tells how many signals and functions the modules have, with what stands so deep in them.
pub fn environment<'m>(
    alloc: Global,
    sizes: &Sizes<'_>,
    depth: u8,
    roles: &Roles<'_>,
    above: &Above<'_, '_, '_, 'm>,
    base: Counts,
    definition: &'m Module,
) -> Result<Names<'m>, AllocError>
    ensures table { IfOk result (λ names. look names ≡ spec.names_by (size_of sizes.now depth) (overrides_of above.now) (spec.kinds_by (facts_of roles.now) above.now) base (map seen_item definition.entry.now.items.items)) }
    ensures module { IfOk result (λ names. (told : ℕ → List ℕ → e.Counts) (path : List ℕ) → Tells sizes.now told → depth ≤ 129 → facts_of roles.now ≡ facts (seen_module definition.entry.now) →
        look names ≡ e.environment (told depth) (given_of (seen_module definition.entry.now) above.now path (spec.counts_of base)) (seen_module definition.entry.now)) }
{
    let mut names = IndexMap::new(alloc);
    let mut next = base;
    for item in definition.items.as_slice() {
        next = add_item(&mut names, next, sizes, depth, roles, above, item)?;
    }
    Ok(names)
}
