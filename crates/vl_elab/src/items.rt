//! What an item of an instance adds to its design, but for instances.

ghost use Rattle.std.specs.Prelude.{◌≡◌, ◌++◌, ◌∷◌, [], map, flat_map, OnOk};
ghost use Rattle.elab_plain.specs.vl_flat.specs.Items as x;
ghost use Rattle.elab_plain.specs.vl_flat.specs.Processes as p;
ghost use Rattle.elab_plain.specs.vl_flat.specs.Functions as spec_functions;
ghost use Rattle.elab_plain.specs.vl_flat.specs.Parameters as q;
ghost use Rattle.elab_plain.specs.vl_flat.specs.Flat as f;
ghost use Rattle.elab_plain.specs.vl_flat.specs.Environments.{Given};
ghost use Rattle.elab_plain.specs.vl_flat.specs.Scopes.{plainly};
ghost use Rattle.elab_plain.specs.vl_flat.specs.Statements as s;
ghost use Rattle.vl_design.specs.declared.design.ProcKind.TheVariants as ProcKinds;
ghost use Rattle.vl_design.specs.Seen.{func_of};
ghost use Rattle.elab_plain.specs.SeenStatements.{seen_statement};
ghost use Rattle.elab_plain.specs.SeenItems.{seen_type, seen_declared, seen_parameter, seen_setting, seen_function, seen_item};
ghost use Rattle.elab_constant.specs.Seen.{look};
ghost use Rattle.elab_instance.specs.Given.{overrides_of};
ghost use Rattle.elab_instance.specs.Variables.{IsFrame};
ghost use Rattle.vl_elab.specs.Standing.{seen_here};
ghost use Rattle.vl_elab.specs.Growing.{Adds};
ghost use Rattle.vl_elab.specs.Parts.{part};

use crate::faults::{all_assignment_faults, all_declared_faults, all_parameter_faults};
use crate::functions::{function, function_faults};
use crate::here::Here;
use crate::limits::{Counted, signals_limits};
use crate::making::Making;
use crate::processes::{add_assignments, add_values, always, initial, push_made};
use crate::signals::signals_of;
use elab_constant::scope::module_scope;
use elab_faults::statements::statement_faults;
use elab_instance::given::Above;
use elab_instance::variables::{Frame, frame_of};
use elab_plain::items::{DataType, Declared, Function, Item, Parameter, Setting};
use elab_plain::source_tree::Trigger;
use elab_plain::surface::Statement;
use std::alloc::{AllocError, Global};
use vl_design::Place;
use vl_design::design::Func;
use vl_design::stop::Stop;

/// Parameters are judged, and stand for nothing else.
fn add_parameters(
    making: &mut Making,
    here: Here<'_, '_, '_>,
    above: &Above<'_, '_, '_, '_>,
    kind: &DataType,
    list: &[Parameter],
) -> Result<(), Stop>
    ensures { Adds making.old making.new (part [] [] [] (flat_map (λ a. q.parameter_faults (look here.entry.names.now) (seen_type kind.now) (overrides_of above.now a.name.name) a) (map seen_parameter list.now)) ∷ []) result }
{
    match all_parameter_faults(None, here.names, kind, above, list) {
        Some(stop) => Err(stop),
        None => Ok(()),
    }
}

/// Declarations of signals, the first of which has the number `next`.
fn add_declared(
    alloc: Global,
    making: &mut Making,
    here: Here<'_, '_, '_>,
    next: u32,
    kind: &DataType,
    ds: &[Declared],
) -> Result<(), Stop>
    ensures { Adds making.old making.new (part (p.signals (seen_here here.entry) next (map (seen_declared (seen_type kind.now)) ds.now)) []
        (p.values (seen_here here.entry) (map (seen_declared (seen_type kind.now)) ds.now)) (flat_map (p.declared_faults (look here.entry.names.now)) (map (seen_declared (seen_type kind.now)) ds.now)) ∷ []) result }
{
    let mut signals = signals_of(alloc, here, next, ds)?;
    let Counted { best, totals } = signals_limits(None, making.totals, signals.as_slice())?;
    match all_declared_faults(best, here.names, kind, ds) {
        Some(stop) => Err(stop),
        None => {
            making.totals = totals;
            making.signals.append(&mut signals)?;
            add_values(alloc, &mut making.processes, here, ds)?;
            Ok(())
        }
    }
}

/// Continuous assignments.
fn add_assigns(
    alloc: Global,
    making: &mut Making,
    here: Here<'_, '_, '_>,
    list: &[Setting],
) -> Result<(), Stop>
    ensures { Adds making.old making.new (part [] [] (map (p.assignment (seen_here here.entry)) (map seen_setting list.now)) (flat_map (p.assignment_faults (look here.entry.names.now)) (map seen_setting list.now)) ∷ []) result }
{
    match all_assignment_faults(None, here.names, list) {
        Some(stop) => Err(stop),
        None => {
            add_assignments(alloc, &mut making.processes, here, list)?;
            Ok(())
        }
    }
}

/// An `initial` block.
fn add_initial(
    alloc: Global,
    making: &mut Making,
    here: Here<'_, '_, '_>,
    at: Place,
    a: &Statement,
) -> Result<(), Stop>
    ensures { Adds making.old making.new (part [] [] (p.process (seen_here here.entry) at ProcKinds.Init [] (s.statement (plainly (look here.entry.names.now)) (seen_statement a.now)) ∷ []) (s.statement_faults (plainly (look here.entry.names.now)) (seen_statement a.now)) ∷ []) result }
{
    match statement_faults(None, &module_scope(here.names), a) {
        Some(stop) => Err(stop),
        None => {
            push_made(&mut making.processes, initial(alloc, here, at, a))?;
            Ok(())
        }
    }
}

/// An `always` block.
fn add_always(
    alloc: Global,
    making: &mut Making,
    here: Here<'_, '_, '_>,
    at: Place,
    trigger: &Trigger,
    a: &Statement,
) -> Result<(), Stop>
    ensures { Adds making.old making.new (part [] [] (p.process (seen_here here.entry) at (p.trigger_kind trigger.now) (p.events (look here.entry.names.now) trigger.now) (s.statement (plainly (look here.entry.names.now)) (seen_statement a.now)) ∷ []) (s.statement_faults (plainly (look here.entry.names.now)) (seen_statement a.now)) ∷ []) result }
{
    match statement_faults(None, &module_scope(here.names), a) {
        Some(stop) => Err(stop),
        None => {
            push_made(&mut making.processes, always(alloc, here, at, trigger, a))?;
            Ok(())
        }
    }
}

/// Adds a function to others.
fn push_function(
    alloc: Global,
    all: &mut Vec<Func>,
    here: Here<'_, '_, '_>,
    frame: &Frame<'_>,
    a: &Function,
) -> Result<(), AllocError>
    ensures { OnOk result (IsFrame frame.now (seen_function a.now) → map func_of all.new.items
        ≡ map func_of all.old.items ++ spec_functions.function here.entry.behind (look here.entry.names.now) here.entry.path.now (seen_function a.now) ∷ []) }
{
    all.push(function(alloc, here, frame, a)?)?;
    Ok(())
}

/// A function whose variables are these.
fn add_framed(
    alloc: Global,
    making: &mut Making,
    here: Here<'_, '_, '_>,
    frame: &Frame<'_>,
    a: &Function,
) -> Result<(), Stop>
    ensures { IsFrame frame.now (seen_function a.now) → Adds making.old making.new (part [] (spec_functions.function here.entry.behind (look here.entry.names.now) here.entry.path.now (seen_function a.now) ∷ []) [] (spec_functions.function_faults here.entry.behind (look here.entry.names.now) (seen_function a.now)) ∷ []) result }
{
    match function_faults(alloc, None, here, frame, a)? {
        Some(stop) => Err(stop),
        None => {
            push_function(alloc, &mut making.funcs, here, frame, a)?;
            Ok(())
        }
    }
}

/// A function.
fn add_function(
    alloc: Global,
    making: &mut Making,
    here: Here<'_, '_, '_>,
    a: &Function,
) -> Result<(), Stop>
    ensures { Adds making.old making.new (part [] (spec_functions.function here.entry.behind (look here.entry.names.now) here.entry.path.now (seen_function a.now) ∷ []) [] (spec_functions.function_faults here.entry.behind (look here.entry.names.now) (seen_function a.now)) ∷ []) result }
{
    let frame = frame_of(alloc, a)?;
    add_framed(alloc, making, here, &frame, a)
}

/// Adds an item, whose first signal has the number `next`; instances stand for nothing here.
pub fn add_item(
    alloc: Global,
    making: &mut Making,
    here: Here<'_, '_, '_>,
    above: &Above<'_, '_, '_, '_>,
    next: u32,
    item: &Item,
) -> Result<(), Stop>
    ensures { (g : Given) → g.overrides ≡ overrides_of above.now → Adds making.old making.new (f.item_part (seen_here here.entry) g next (seen_item item.now) ∷ []) result }
{
    match item {
        Item::Parameters(kind, list) => add_parameters(making, here, above, kind, list.as_slice()),
        Item::Signals(kind, ds) => add_declared(alloc, making, here, next, kind, ds.as_slice()),
        Item::Assigns(list) => add_assigns(alloc, making, here, list.as_slice()),
        Item::Initial(at, a) => add_initial(alloc, making, here, *at, a),
        Item::Always(at, trigger, a) => add_always(alloc, making, here, *at, trigger, a),
        Item::Functions(a) => add_function(alloc, making, here, a),
        Item::Instantiates(_) => Ok(()),
    }
}
