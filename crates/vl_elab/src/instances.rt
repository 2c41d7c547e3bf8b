//! Instances in the design (IEEE 1364-2005, clause 12.1.2).

ghost use Rattle.std.specs.Prelude.{◌≡◌, ◌≤◌, ◌<◌, ◌∷◌, [], ℕ, List, length, map, Some, IfOk, IfSome, IfNone, slice_get};
ghost use Rattle.elab_plain.specs.vl_flat.specs.Items as x;
ghost use Rattle.elab_plain.specs.vl_flat.specs.Flat as f;
ghost use Rattle.elab_plain.specs.vl_flat.specs.Environments as e;
ghost use Rattle.elab_plain.specs.declared.items.Item.TheVariants as i;
ghost use Rattle.elab_plain.specs.SeenItems.{seen_unit, seen_instances, seen_item, seen_module};
ghost use Rattle.elab_kinds.specs.Sized.{counts_of};
ghost use Rattle.elab_instance.specs.Given.{overrides_of};
ghost use Rattle.elab_plain.specs.vl_flat.specs.Functions.{dotted as dotted_name};
ghost use Rattle.vl_elab.specs.Standing.{seen_here};
ghost use Rattle.vl_elab.specs.Insides.{IsInside, contents};
ghost use Rattle.vl_elab.specs.Growing.{Adds};
ghost use Rattle.vl_elab.specs.Libraries.{IsLibrary, modules_of, sizes_in, instance_in};
ghost use Rattle.vl_elab.specs.Parts.{IsNoInstance};
ghost use Rattle.elab_constant.specs.Seen.{look};

use crate::faults::override_faults;
use crate::here::Here;
use crate::items::add_item;
use crate::library::{Library, definition_at, roles_at};
use crate::limits::{instance_limit, is_long_path, with_instance};
use crate::making::Making;
use crate::ports::{Ports, add_inputs, add_outputs};
use elab_constant::scope::Names;
use elab_instance::connections::{Connected, overrides, port_connections};
use elab_instance::environment::environment;
use elab_instance::functions::dotted;
use elab_instance::given::{Above, Surroundings};
use elab_kinds::counts::{Counts, behind_signals, sum};
use elab_kinds::index::module_at;
use elab_kinds::sizes::{instances_size, size_at};
use elab_plain::items::{Instances, Item, Module, NamedUnit};
use std::alloc::{AllocError, Global};
use vl_design::stop::Stop;
use vl_design::stops::limit_if;

/// What is known of an instance: its overrides, the connections of its ports, and what names stand for in it.
#[derive(Drop)]
pub struct Inside<'m> {
    /// The overrides of its parameters.
    pub overrides: Connected<'m>,
    /// The connections of its ports.
    pub ports: Connected<'m>,
    /// What names stand for in it.
    pub names: Names<'m>,
}

/// An instance begins: its path and its overrides are judged.
fn begin(
    making: &mut Making,
    above: &Names<'_>,
    path: &[u8],
    instances: &Instances,
) -> Result<(), Stop>
    ensures { (g : e.Given) → g.path ≡ path.now → Adds making.old making.new (f.beginning (look above.now) g (seen_instances instances.now) ∷ []) result }
{
    let at = instances.place;
    let best = instance_limit(None, making.totals, at);
    let best = limit_if(best, is_long_path(path), at, 11);
    match override_faults(best, above, instances.overrides.as_slice()) {
        Some(stop) => Err(stop),
        None => {
            making.totals = with_instance(making.totals)?;
            Ok(())
        }
    }
}

/// The numbers behind instances.
fn behind_instances(
    library: &Library<'_>,
    depth: u8,
    next: Counts,
    instances: &Instances,
) -> Result<Counts, AllocError>
    requires depth { depth ≤ 129 }
    requires library { IsLibrary library.now }
    ensures { IfOk result (λ c. counts_of c ≡ e.plus (e.plus (counts_of next) e.no_more) (e.item_counts (sizes_in library.now depth) (x.Instantiates (seen_instances instances.now)))) }
{
    let size = instances_size(&library.sizes, depth, instances)?;
    Ok(sum(next, size)?)
}

/// The instances that an item is, if it is some.
fn instances_in(item: &Item) -> Option<&Instances>
    ensures some { IfSome result (λ us. item.entry.now ≡ i.Instantiates us.now) }
    ensures none { IfNone result (IsNoInstance (seen_item item.entry.now)) }
{
    match item {
        Item::Instantiates(instances) => Some(instances),
        Item::Parameters(_, _)
        | Item::Signals(_, _)
        | Item::Assigns(_)
        | Item::Initial(_, _)
        | Item::Always(_, _, _)
        | Item::Functions(_) => None,
    }
}

/// How many functions an item is that is no instance.
fn functions_in(item: &Item) -> Counts
    ensures { (sizes : List ℕ → e.Counts) → IsNoInstance (seen_item item.now) → counts_of result ≡ e.item_counts sizes (seen_item item.now) }
{
    let functions = match item {
        Item::Functions(_) => 1,
        _ => 0,
    };
    Counts {
        signals: 0,
        functions,
    }
}

/// What is known of an instance of the module of this number, whose first signal and function have these numbers.
fn inside_of<'m>(
    alloc: Global,
    library: &Library<'m>,
    depth: u8,
    above: Here<'_, '_, 'm>,
    base: Counts,
    instances: &'m Instances,
    unit: &'m NamedUnit,
    number: usize,
) -> Result<Box<Inside<'m>>, AllocError>
    requires depth { depth ≤ 129 }
    requires library { IsLibrary library.now }
    requires number { number < length library.now.modules.now }
    ensures { IfOk result (λ a. (m : x.Module) → slice_get (modules_of library.now) number ≡ Some m →
        IsInside a.value (sizes_in library.now) depth (seen_here above.entry) (counts_of base) (seen_instances instances.entry.now) (seen_unit unit.entry.now) m) }
{
    let definition = definition_at(library, number);
    let roles = roles_at(library, number);
    let overridden = Box::new(alloc, overrides(alloc, definition, instances)?)?;
    let ports = Box::new(alloc, port_connections(alloc, definition, unit)?)?;
    let given = Above::Item(Surroundings {
        names: above.names,
        overrides: &overridden,
        ports: &ports,
    });
    let names = environment(
        alloc,
        &library.sizes,
        depth,
        roles,
        &given,
        base,
        definition,
    )?;
    let inside = Inside {
        overrides: Box::into_inner(overridden),
        ports: Box::into_inner(ports),
        names,
    };
    Ok(Box::new(alloc, inside)?)
}

/// Adds what stands in an instance of the module of this number and this path: the connections of its inputs, its items with
/// what stands less than so deep in them, and the connections of its outputs.
#[cycle(instance)]
fn add_contents<'m>(
    alloc: Global,
    making: &mut Making,
    library: &Library<'m>,
    depth: u8,
    above: Here<'_, '_, 'm>,
    base: Counts,
    unit: &'m NamedUnit,
    number: usize,
    path: &[u8],
    inside: &Inside<'m>,
) -> Result<(), Stop>
    requires depth { depth ≤ 128 }
    requires library { IsLibrary library.now }
    requires number { number < length library.now.modules.now }
    ensures { (m : x.Module) (us : x.Instances) → slice_get (modules_of library.now) number ≡ Some m → path.now ≡ dotted_name (seen_here above.entry).path (seen_unit unit.entry.now).name.name →
        IsInside inside.now (sizes_in library.now) depth (seen_here above.entry) (counts_of base) us (seen_unit unit.entry.now) m →
        Adds making.old making.new (contents (sizes_in library.now) depth (modules_of library.now) (seen_here above.entry) (counts_of base) us (seen_unit unit.entry.now) m) result }
{
    let definition = definition_at(library, number);
    let roles = roles_at(library, number);
    let ports = Ports {
        above,
        names: &inside.names,
        roles,
        connected: &inside.ports,
        unit,
    };
    let here = Here {
        names: &inside.names,
        path,
        behind: above.behind,
    };
    let given = Above::Item(Surroundings {
        names: above.names,
        overrides: &inside.overrides,
        ports: &inside.ports,
    });
    add_inputs(alloc, making, ports, definition.ports.as_slice())?;
    add_items(
        alloc,
        making,
        library,
        depth,
        here,
        &given,
        base,
        definition.items.as_slice(),
    )?;
    add_outputs(alloc, making, ports, definition.ports.as_slice())
}

/// Adds what stands in an instance of the module of this number and this path.
#[cycle(instance)]
fn add_inside<'m>(
    alloc: Global,
    making: &mut Making,
    library: &Library<'m>,
    depth: u8,
    above: Here<'_, '_, 'm>,
    base: Counts,
    instances: &'m Instances,
    unit: &'m NamedUnit,
    number: usize,
    path: &[u8],
) -> Result<(), Stop>
    requires depth { depth ≤ 128 }
    requires library { IsLibrary library.now }
    requires number { number < length library.now.modules.now }
    ensures { (m : x.Module) → slice_get (modules_of library.now) number ≡ Some m → path.now ≡ dotted_name (seen_here above.entry).path (seen_unit unit.entry.now).name.name →
        Adds making.old making.new (contents (sizes_in library.now) depth (modules_of library.now) (seen_here above.entry) (counts_of base) (seen_instances instances.entry.now) (seen_unit unit.entry.now) m) result }
{
    let inside = inside_of(alloc, library, depth, above, base, instances, unit, number)?;
    add_contents(
        alloc, making, library, depth, above, base, unit, number, path, &inside,
    )
}

/// Adds an instance of the module of this number, with what stands less than so deep in it.
#[cycle(instance)]
fn add_instance<'m>(
    alloc: Global,
    making: &mut Making,
    library: &Library<'m>,
    depth: u8,
    above: Here<'_, '_, 'm>,
    base: Counts,
    instances: &'m Instances,
    unit: &'m NamedUnit,
    number: usize,
) -> Result<(), Stop>
    requires depth { depth ≤ 128 }
    requires library { IsLibrary library.now }
    requires number { number < length library.now.modules.now }
    ensures { (m : x.Module) → slice_get (modules_of library.now) number ≡ Some m →
        Adds making.old making.new (instance_in library.now depth (seen_here above.entry) (counts_of base) (seen_instances instances.entry.now) (seen_unit unit.entry.now) m) result }
{
    if depth == 0 {
        return Ok(());
    }
    let path = dotted(alloc, above.path, unit.name.name.as_slice())?;
    begin(making, above.names, path.as_slice(), instances)?;
    add_inside(
        alloc,
        making,
        library,
        depth - 1,
        above,
        base,
        instances,
        unit,
        number,
        path.as_slice(),
    )
}

/// Adds the instances of an item, of the module of this number, each of which has so many signals and functions.
#[cycle(instance)]
fn add_units<'m>(
    alloc: Global,
    making: &mut Making,
    library: &Library<'m>,
    depth: u8,
    here: Here<'_, '_, 'm>,
    next: Counts,
    instances: &'m Instances,
    number: usize,
    size: Counts,
) -> Result<(), Stop>
    requires depth { depth ≤ 128 }
    requires library { IsLibrary library.now }
    requires number { number < length library.now.modules.now }
    ensures { (m : x.Module) → slice_get (modules_of library.now) number ≡ Some m →
        Adds making.old making.new (f.instances (instance_in library.now depth) (seen_here here.entry) (counts_of next) (seen_instances instances.entry.now) m (counts_of size) (map seen_unit instances.entry.now.units.items)) result }
{
    let mut base = next;
    for unit in instances.units.as_slice() {
        add_instance(
            alloc, making, library, depth, here, base, instances, unit, number,
        )?;
        base = sum(base, size)?;
    }
    Ok(())
}

/// Adds what instances stand for.
#[cycle(instance)]
fn add_instances<'m>(
    alloc: Global,
    making: &mut Making,
    library: &Library<'m>,
    depth: u8,
    here: Here<'_, '_, 'm>,
    next: Counts,
    instances: &'m Instances,
) -> Result<(), Stop>
    requires depth { depth ≤ 128 }
    requires library { IsLibrary library.now }
    ensures { (g : e.Given) → Adds making.old making.new (f.item_parts (instance_in library.now depth) (sizes_in library.now depth) (modules_of library.now) (seen_here here.entry) g (counts_of next) (x.Instantiates (seen_instances instances.entry.now))) result }
{
    let name = instances.definition.as_slice();
    match module_at(&library.index, name) {
        None => Ok(()),
        Some(number) => {
            let size = size_at(&library.sizes, depth, name)?;
            add_units(
                alloc, making, library, depth, here, next, instances, number, size,
            )
        }
    }
}

/// Adds what an item stands for that is no instance. The numbers behind it.
fn add_own(
    alloc: Global,
    making: &mut Making,
    here: Here<'_, '_, '_>,
    above: &Above<'_, '_, '_, '_>,
    next: Counts,
    item: &Item,
) -> Result<Counts, Stop>
    ensures adds { (g : e.Given) → g.overrides ≡ overrides_of above.now → Adds making.old making.new (f.item_part (seen_here here.entry) g (counts_of next).signals (seen_item item.now) ∷ []) result }
    ensures behind { (sizes : List ℕ → e.Counts) → IsNoInstance (seen_item item.now) → IfOk result (λ n. counts_of n ≡ f.behind_item sizes (seen_here here.entry) (counts_of next) (seen_item item.now)) }
{
    let first = making.signals.as_slice().len();
    add_item(alloc, making, here, above, next.signals, item)?;
    let own = making.signals.as_slice().len() - first;
    let behind = behind_signals(next, own)?;
    Ok(sum(behind, functions_in(item))?)
}

/// Adds what an item stands for. The numbers behind it.
#[cycle(instance)]
fn add_parts<'m>(
    alloc: Global,
    making: &mut Making,
    library: &Library<'m>,
    depth: u8,
    here: Here<'_, '_, 'm>,
    above: &Above<'_, '_, '_, 'm>,
    next: Counts,
    item: &'m Item,
) -> Result<Counts, Stop>
    requires depth { depth ≤ 128 }
    requires library { IsLibrary library.now }
    ensures adds { (g : e.Given) → g.overrides ≡ overrides_of above.now → Adds making.old making.new (f.item_parts (instance_in library.now depth) (sizes_in library.now depth) (modules_of library.now) (seen_here here.entry) g (counts_of next) (seen_item item.entry.now)) result }
    ensures behind { IfOk result (λ n. counts_of n ≡ f.behind_item (sizes_in library.now depth) (seen_here here.entry) (counts_of next) (seen_item item.entry.now)) }
{
    match instances_in(item) {
        Some(instances) => {
            add_instances(alloc, making, library, depth, here, next, instances)?;
            Ok(behind_instances(library, depth, next, instances)?)
        }
        None => add_own(alloc, making, here, above, next, item),
    }
}

/// Adds what items stand for, the first of which has these numbers.
#[cycle(instance)]
pub fn add_items<'m>(
    alloc: Global,
    making: &mut Making,
    library: &Library<'m>,
    depth: u8,
    here: Here<'_, '_, 'm>,
    above: &Above<'_, '_, '_, 'm>,
    base: Counts,
    items: &'m [Item],
) -> Result<(), Stop>
    requires depth { depth ≤ 128 }
    requires library { IsLibrary library.now }
    ensures { (g : e.Given) → g.overrides ≡ overrides_of above.now → Adds making.old making.new (f.items_parts (instance_in library.now depth) (sizes_in library.now depth) (modules_of library.now) (seen_here here.entry) g (counts_of base) (map seen_item items.entry.now)) result }
{
    let mut next = base;
    for item in items {
        next = add_parts(alloc, making, library, depth, here, above, next, item)?;
    }
    Ok(())
}
