//! From a source to its flat design (IEEE 1364-2005, clause 12).

ghost use Rattle.std.specs.Prelude.{◌≡◌, ◌<◌, length, map, slice_get, All, Some, IfOk, true, false};
ghost use Rattle.vl_design.specs.Sound.{IsSound};
ghost use Rattle.vl_design.specs.Trees.{flat_of};
ghost use Rattle.elab_plain.specs.vl_flat.specs.Items as x;
ghost use Rattle.elab_plain.specs.vl_flat.specs.Declarations.{modules};
ghost use Rattle.elab_plain.specs.vl_flat.specs.Environments as e;
ghost use Rattle.elab_plain.specs.vl_flat.specs.Flat as f;
ghost use Rattle.elab_plain.specs.vl_flat.specs.Outcome as o;
ghost use Rattle.elab_plain.specs.SeenItems.{seen_module};
ghost use Rattle.elab_constant.specs.Seen.{look};
ghost use Rattle.vl_sound.specs.Apart.{AreApart};
ghost use Rattle.vl_sound.specs.Sized.{parts_by};
ghost use Rattle.vl_sound.specs.Inputs.{NoLoopInputs};
ghost use Rattle.vl_elab.specs.Growing.{Makes};
ghost use Rattle.vl_elab.specs.Libraries.{IsLibrary, modules_of, sizes_by, sizes_in};
ghost use Rattle.vl_sound.specs.Meeting.{Meets, Elaborates, stop_of};

use crate::here::Here;
use crate::instances::add_items;
use crate::library::{Library, definition_at, library_of, roles_at, unnumbered_library};
use crate::making::{Making, nothing_yet};
use elab_constant::scope::Names;
use elab_expr::expressions::copied;
use elab_instance::environment::environment;
use elab_instance::given::Above;
use elab_items::modules::prepare;
use elab_kinds::counts::Counts;
use elab_kinds::sizes::{is_vast, module_size};
use elab_plain::items::Module;
use elab_plain::source_tree::Source;
use std::alloc::Global;
use vl_design::Items;
use vl_design::design::Design;
use vl_design::stop::Stop;
use vl_names::hierarchy::top_number;
use vl_names::names::{NamesFault, names};

/// No signal and no function stand before a top.
const NOTHING: Counts = Counts {
    signals: 0,
    functions: 0,
};

/// What the modules stand for from the one of this number, in which names stand for this.
fn made_with(
    alloc: Global,
    library: &Library<'_>,
    number: usize,
    names: &Names<'_>,
) -> Result<Making, Stop>
    requires library { IsLibrary library.now }
    requires number { number < length library.now.modules.now }
    ensures { (m : x.Module) → slice_get (modules_of library.now) number ≡ Some m → look names.now ≡ e.environment (sizes_in library.now 128) (f.top_given m) m → Makes (parts_by (sizes_in library.now) (modules_of library.now) m) result }
{
    let top = definition_at(library, number);
    let name = top.name.name.as_slice();
    let all = module_size(alloc, &library.sizes, 128, top)?;
    let here = Here {
        names,
        path: name,
        behind: all.signals,
    };
    let mut making = nothing_yet(alloc);
    add_items(
        alloc,
        &mut making,
        library,
        128,
        here,
        &Above::Top,
        NOTHING,
        top.items.as_slice(),
    )?;
    Ok(making)
}

/// What the modules stand for from the one of this number.
fn made(alloc: Global, library: &Library<'_>, number: usize) -> Result<Making, Stop>
    requires library { IsLibrary library.now }
    requires number { number < length library.now.modules.now }
    ensures { (m : x.Module) → slice_get (modules_of library.now) number ≡ Some m → Makes (parts_by (sizes_in library.now) (modules_of library.now) m) result }
{
    let top = definition_at(library, number);
    let roles = roles_at(library, number);
    let names = environment(alloc, &library.sizes, 128, roles, &Above::Top, NOTHING, top)?;
    made_with(alloc, library, number, &names)
}

/// The flat design of modules whose signals are numbered, from the one of this number.
fn design_from(alloc: Global, library: &Library<'_>, number: usize) -> Result<Design, Stop>
    requires library { IsLibrary library.now }
    requires numbered { library.now.numbered ≡ true }
    requires number { number < length library.now.modules.now }
    ensures { (m : x.Module) → slice_get (modules_of library.now) number ≡ Some m → Meets result (o.flattened_from (modules_of library.now) m) }
{
    let making = made(alloc, library, number)?;
    let top = copied(alloc, &definition_at(library, number).name.name)?;
    Ok(Design {
        top,
        signals: Items::from_vec(making.signals),
        funcs: Items::from_vec(making.funcs),
        processes: Items::from_vec(making.processes),
    })
}

/// What modules stand for from the one of this number, where no signal and no function is numbered.
fn made_unnumbered(alloc: Global, modules: &[Module], number: usize) -> Result<Making, Stop>
    requires { number < length modules.now }
    ensures { (m : x.Module) → slice_get (map seen_module modules.now) number ≡ Some m → Makes (parts_by (sizes_by false (map seen_module modules.now)) (map seen_module modules.now) m) result }
{
    let library = unnumbered_library(alloc, modules)?;
    made(alloc, &library, number)
}

/// The first fault of modules from the one of this number, of which there are too many instances: it doesn't depend on numbers.
fn vast_fault(alloc: Global, modules: &[Module], number: usize) -> Result<Design, Stop>
    requires { number < length modules.now }
    ensures { (m : x.Module) → slice_get (map seen_module modules.now) number ≡ Some m → All AreApart (map seen_module modules.now) → Meets result (o.flattened_from (map seen_module modules.now) m) }
{
    made_unnumbered(alloc, modules, number)?;
    Err(Stop::Memory)
}

/// The flat design of modules of which this is known, from the one of this number.
fn flatten_with(alloc: Global, library: &Library<'_>, number: usize) -> Result<Design, Stop>
    requires library { IsLibrary library.now }
    requires numbered { library.now.numbered ≡ true }
    requires number { number < length library.now.modules.now }
    ensures { (m : x.Module) → slice_get (modules_of library.now) number ≡ Some m → All AreApart (modules_of library.now) → Meets result (o.flattened_from (modules_of library.now) m) }
{
    if is_vast(alloc, &library.sizes, 128, definition_at(library, number))? {
        vast_fault(alloc, library.modules, number)
    } else {
        design_from(alloc, library, number)
    }
}

/// The flat design of modules from the one of this number.
fn flatten_from(alloc: Global, modules: &[Module], number: usize) -> Result<Design, Stop>
    requires { number < length modules.now }
    ensures { (m : x.Module) → slice_get (map seen_module modules.now) number ≡ Some m → All AreApart (map seen_module modules.now) → Meets result (o.flattened_from (map seen_module modules.now) m) }
{
    let library = library_of(alloc, modules)?;
    flatten_with(alloc, &library, number)
}

/// The flat design of a source from the module of this number.
fn flatten_top(alloc: Global, source: &Source, number: usize) -> Result<Design, Stop>
    requires { number < length source.now.modules }
    ensures { (m : x.Module) → slice_get (modules source.now) number ≡ Some m → All AreApart (modules source.now) → Meets result (o.flattened_from (modules source.now) m) }
{
    let modules = prepare(alloc, source)?;
    flatten_from(alloc, modules.as_slice(), number)
}

/// The flat design of a source whose names have no fault, or its first fault.
fn flatten(alloc: Global, source: &Source) -> Result<Design, Stop>
    ensures { All AreApart (modules source.now) → Meets result (o.flattened source.now) }
{
    let top = top_number(alloc, source)?;
    match top {
        Some(number) => flatten_top(alloc, source, number),
        None => Err(Stop::Memory),
    }
}

/// Why a flattening stops at a fault of names.
fn stop_of(fault: NamesFault) -> Stop
    ensures { result ≡ stop_of fault }
{
    match fault {
        NamesFault::Construct(place, number) => Stop::Construct(place, number),
        NamesFault::Memory => Stop::Memory,
    }
}

/// The flat design of a source, or the first fault of its names and then of its design: a refused construct or a limit, by its
/// place and its number. The design is sound: each name stands for what it is used as, and no input of a function is a loop
/// variable.
pub fn elaborate(alloc: Global, source: &Source) -> Result<Design, Stop>
    ensures elaborated { Elaborates source.now result }
    ensures sound { IfOk result (λ d. IsSound (flat_of d)) }
    ensures inputs { IfOk result (λ d. NoLoopInputs (flat_of d)) }
{
    match names(alloc, source) {
        Ok(()) => flatten(alloc, source),
        Err(fault) => Err(stop_of(fault)),
    }
}
