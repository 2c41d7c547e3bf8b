//! The connections of an instance's ports in the design (IEEE 1364-2005, clause 12.3.9).

ghost use Rattle.std.specs.Prelude.{◌≡◌, ◌∷◌, [], flat_map, IfOk};
ghost use Rattle.elab_plain.specs.vl_flat.specs.Items as x;
ghost use Rattle.elab_plain.specs.vl_flat.specs.Connections as c;
ghost use Rattle.elab_plain.specs.vl_flat.specs.Flat as f;
ghost use Rattle.vl_design.specs.Seen.{process_of};
ghost use Rattle.elab_plain.specs.Seen.{seen};
ghost use Rattle.elab_plain.specs.SeenItems.{seen_unit};
ghost use Rattle.elab_constant.specs.Seen.{look};
ghost use Rattle.vl_elab.specs.Standing.{seen_here, IsJoined};
ghost use Rattle.vl_elab.specs.Growing.{Adds};

use crate::here::Here;
use crate::making::Making;
use crate::processes::{assigned, push_made, whole_target};
use elab_constant::scope::{Names, found_in, module_scope};
use elab_constant::selects::number_of;
use elab_expr::expressions::exp;
use elab_expr::targets::output_target;
use elab_faults::faults::faults;
use elab_faults::outputs::output_faults;
use elab_instance::connections::{Connected, connection, expression, place_in};
use elab_instance::scope::is_clock_known;
use elab_kinds::roles::{Roles, is_input};
use elab_plain::items::NamedUnit;
use elab_plain::surface::Ex;
use elab_plain::tree::Identifier;
use std::alloc::{AllocError, Global};
use vl_design::Place;
use vl_design::design::{Expr, ExprNode, ProcKind, Process};
use vl_design::stop::Stop;

/// The ports of an instance, and what stands around them.
#[derive(Clone, Copy)]
pub struct Ports<'n, 'p, 'b, 'c, 'd, 'm> {
    /// Where the instance stands.
    pub above: Here<'n, 'p, 'm>,
    /// What names stand for in it.
    pub names: &'b Names<'m>,
    /// What names are in its module.
    pub roles: &'d Roles<'m>,
    /// The connections of its ports.
    pub connected: &'c Connected<'m>,
    /// The instance.
    pub unit: &'m NamedUnit,
}

/// The process of an input's connection.
fn input_process(
    alloc: Global,
    ports: Ports<'_, '_, '_, '_, '_, '_>,
    at: Place,
    name: &[u8],
    e: &Ex,
) -> Result<Process, AllocError>
    ensures { IfOk result (λ a. process_of a ≡ c.input_process (seen_here ports.entry.above) (look ports.entry.names.now) at name.now (seen e.now)) }
{
    let source = exp(alloc, &module_scope(ports.above.names), e)?;
    let target = whole_target(ports.names, at, name);
    assigned(alloc, ports.above, at, ProcKind::Assign, target, source)
}

/// The connection of an input that is connected, and no clock.
fn add_source(
    alloc: Global,
    making: &mut Making,
    ports: Ports<'_, '_, '_, '_, '_, '_>,
    name: &[u8],
    e: &Ex,
) -> Result<(), Stop>
    ensures { (m : x.Module) → IsJoined ports.entry m → Adds making.old making.new
        (f.connection (c.input_process (seen_here ports.entry.above) (look ports.entry.names.now) (c.place_in (seen_unit ports.entry.unit.now) (c.port_connection m (seen_unit ports.entry.unit.now) name.now)) name.now (seen e.now) ∷ [])
        (c.input_faults (look ports.entry.above.names.now) (seen e.now)) ∷ []) result }
{
    let at = place_in(ports.unit, connection(ports.connected, name));
    match faults(None, &module_scope(ports.above.names), e) {
        Some(stop) => Err(stop),
        None => {
            push_made(
                &mut making.processes,
                input_process(alloc, ports, at, name, e),
            )?;
            Ok(())
        }
    }
}

/// The connection of a port, if it is an input; a clock, and an input that isn't connected, stand for nothing.
fn add_input(
    alloc: Global,
    making: &mut Making,
    ports: Ports<'_, '_, '_, '_, '_, '_>,
    name: &[u8],
) -> Result<(), Stop>
    ensures { (m : x.Module) → IsJoined ports.entry m → Adds making.old making.new (f.input_part (seen_here ports.entry.above) (look ports.entry.names.now) m (seen_unit ports.entry.unit.now) name.now) result }
{
    if !is_input(ports.roles, name) {
        return Ok(());
    }
    if is_clock_known(found_in(ports.names, name)) {
        return Ok(());
    }
    match expression(ports.connected, name) {
        Some(e) => add_source(alloc, making, ports, name, e),
        None => Ok(()),
    }
}

/// The connections of inputs.
pub fn add_inputs(
    alloc: Global,
    making: &mut Making,
    ports: Ports<'_, '_, '_, '_, '_, '_>,
    names: &[Identifier],
) -> Result<(), Stop>
    ensures { (m : x.Module) → IsJoined ports.entry m → Adds making.old making.new (flat_map (λ t. f.input_part (seen_here ports.entry.above) (look ports.entry.names.now) m (seen_unit ports.entry.unit.now) t.name) names.now) result }
{
    for name in names {
        add_input(alloc, making, ports, name.name.as_slice())?;
    }
    Ok(())
}

/// The process of an output's connection.
fn output_process(
    alloc: Global,
    ports: Ports<'_, '_, '_, '_, '_, '_>,
    at: Place,
    name: &[u8],
    e: &Ex,
) -> Result<Process, AllocError>
    ensures { IfOk result (λ a. process_of a ≡ c.output_process (seen_here ports.entry.above) (look ports.entry.names.now) at name.now (seen e.now)) }
{
    let target = output_target(alloc, &module_scope(ports.above.names), e)?;
    let source = Expr {
        place: at,
        node: ExprNode::Sig(number_of(found_in(ports.names, name))),
    };
    assigned(alloc, ports.above, at, ProcKind::Assign, target, source)
}

/// The connection of an output that is connected.
fn add_connected(
    alloc: Global,
    making: &mut Making,
    ports: Ports<'_, '_, '_, '_, '_, '_>,
    name: &[u8],
    e: &Ex,
) -> Result<(), Stop>
    ensures { (m : x.Module) → IsJoined ports.entry m → Adds making.old making.new
        (f.connection (c.output_process (seen_here ports.entry.above) (look ports.entry.names.now) (c.place_in (seen_unit ports.entry.unit.now) (c.port_connection m (seen_unit ports.entry.unit.now) name.now)) name.now (seen e.now) ∷ [])
        (c.output_faults (look ports.entry.above.names.now) (c.place_in (seen_unit ports.entry.unit.now) (c.port_connection m (seen_unit ports.entry.unit.now) name.now)) (seen e.now)) ∷ []) result }
{
    let at = place_in(ports.unit, connection(ports.connected, name));
    match output_faults(None, ports.above.names, at, e) {
        Some(stop) => Err(stop),
        None => {
            push_made(
                &mut making.processes,
                output_process(alloc, ports, at, name, e),
            )?;
            Ok(())
        }
    }
}

/// The connection of a port, if it is an output; one that isn't connected stands for nothing.
fn add_output(
    alloc: Global,
    making: &mut Making,
    ports: Ports<'_, '_, '_, '_, '_, '_>,
    name: &[u8],
) -> Result<(), Stop>
    ensures { (m : x.Module) → IsJoined ports.entry m → Adds making.old making.new (f.output_part (seen_here ports.entry.above) (look ports.entry.names.now) m (seen_unit ports.entry.unit.now) name.now) result }
{
    if is_input(ports.roles, name) {
        return Ok(());
    }
    match expression(ports.connected, name) {
        Some(e) => add_connected(alloc, making, ports, name, e),
        None => Ok(()),
    }
}

/// The connections of outputs.
pub fn add_outputs(
    alloc: Global,
    making: &mut Making,
    ports: Ports<'_, '_, '_, '_, '_, '_>,
    names: &[Identifier],
) -> Result<(), Stop>
    ensures { (m : x.Module) → IsJoined ports.entry m → Adds making.old making.new (flat_map (λ t. f.output_part (seen_here ports.entry.above) (look ports.entry.names.now) m (seen_unit ports.entry.unit.now) t.name) names.now) result }
{
    for name in names {
        add_output(alloc, making, ports, name.name.as_slice())?;
    }
    Ok(())
}
