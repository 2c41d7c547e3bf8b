//! The processes that an item of an instance stands for (IEEE 1364-2005, clauses 6 and 9).

ghost use Rattle.std.specs.Prelude.{◌≡◌, ◌++◌, ◌∷◌, [], map, option_map, IfOk, OnOk};
ghost use Rattle.std.specs.Option.{option_map_or};
ghost use Rattle.elab_plain.specs.vl_flat.specs.Items as x;
ghost use Rattle.vl_design.specs.Placed as placed;
ghost use Rattle.elab_plain.specs.vl_flat.specs.Processes as p;
ghost use Rattle.vl_design.specs.Seen.{exp_of, target_of, stm_of, process_of};
ghost use Rattle.elab_plain.specs.vl_flat.specs.Statements.{statement as spec_statement};
ghost use Rattle.elab_plain.specs.vl_flat.specs.Scopes.{plainly};
ghost use Rattle.elab_plain.specs.vl_flat.specs.Scopes as s;
ghost use Rattle.elab_plain.specs.Seen.{seen};
ghost use Rattle.elab_plain.specs.SeenStatements.{seen_statement};
ghost use Rattle.elab_plain.specs.SeenItems.{seen_declared, seen_setting};
ghost use Rattle.elab_constant.specs.Seen.{look};
ghost use Rattle.vl_elab.specs.Standing.{seen_here};
ghost use Rattle.vl_design.specs.declared.design.ProcKind.TheVariants as ProcKinds;

use crate::here::Here;
use elab_constant::scope::{Names, found_in, module_scope};
use elab_constant::selects::number_of;
use elab_expr::expressions::exp;
use elab_expr::statements::{left_place, statement};
use elab_expr::targets::target;
use elab_plain::items::{Declared, Setting};
use elab_plain::source_tree::{Edge, Event as EventTree, Trigger};
use elab_plain::surface::{Ex, Statement};
use std::alloc::{AllocError, Global};
use vl_design::design::{Event, Expr, ProcKind, Process, Stmt, StmtNode, Target, TargetNode};
use vl_design::{Items, Place};

/// A process of an instance.
fn process(
    alloc: Global,
    here: Here<'_, '_, '_>,
    at: Place,
    kind: ProcKind,
    events: Vec<Event>,
    body: Stmt,
) -> Result<Process, AllocError>
    ensures { IfOk result (λ a. process_of a ≡ p.process (seen_here here.entry) at kind events.items (stm_of body)) }
{
    let body = Box::new(alloc, body)?;
    let path = Items::from_vec(Vec::from_slice(alloc, here.path)?);
    Ok(Process {
        place: at,
        path,
        kind,
        events: Items::from_vec(events),
        body: Box::into_inner(body),
    })
}

/// A process that assigns once, or whenever what it reads changes.
pub fn assigned(
    alloc: Global,
    here: Here<'_, '_, '_>,
    at: Place,
    kind: ProcKind,
    target: Target,
    source: Expr,
) -> Result<Process, AllocError>
    ensures { IfOk result (λ a. process_of a ≡ p.process (seen_here here.entry) at kind [] (placed.Set at (target_of target) (exp_of source))) }
{
    let body = Stmt {
        place: at,
        node: StmtNode::Set(target, source),
    };
    process(alloc, here, at, kind, Vec::new(alloc), body)
}

/// A whole signal as what an assignment writes.
pub fn whole_target(names: &Names<'_>, at: Place, name: &[u8]) -> Target
    ensures { target_of result ≡ placed.Whole at (s.number_of (look names.now name.now)) }
{
    Target {
        place: at,
        node: TargetNode::Sig(number_of(found_in(names, name))),
    }
}

/// Adds a process to others, if it was made.
pub fn push_made(
    all: &mut Vec<Process>,
    made: Result<Process, AllocError>,
) -> Result<(), AllocError>
    ensures { (p : placed.Process) → IfOk made (λ a. process_of a ≡ p) → OnOk result (map process_of all.new.items ≡ map process_of all.old.items ++ p ∷ []) }
{
    match made {
        Ok(process) => {
            all.push(process)?;
            Ok(())
        }
        Err(error) => Err(error),
    }
}

/// When the process of a declared value runs.
fn value_kind(variable: bool) -> ProcKind
    ensures { result ≡ p.value_kind variable }
{
    if variable {
        ProcKind::Init
    } else {
        ProcKind::Assign
    }
}

/// The process of a declared value.
fn value_process(
    alloc: Global,
    here: Here<'_, '_, '_>,
    d: &Declared,
    e: &Ex,
) -> Result<Process, AllocError>
    ensures { IfOk result (λ a. (type : x.DataType) → process_of a ≡ p.value_process (seen_here here.entry) (seen_declared type d.now) (seen e.now)) }
{
    let at = d.name.place;
    let source = exp(alloc, &module_scope(here.names), e)?;
    let target = whole_target(here.names, at, d.name.name.as_slice());
    assigned(alloc, here, at, value_kind(d.variable), target, source)
}

/// Adds the process of a declaration's value, if it has one.
fn add_value(
    alloc: Global,
    all: &mut Vec<Process>,
    here: Here<'_, '_, '_>,
    d: &Declared,
) -> Result<(), AllocError>
    ensures { OnOk result ((type : x.DataType) → map process_of all.new.items
        ≡ map process_of all.old.items ++ option_map_or (λ e. p.value_process (seen_here here.entry) (seen_declared type d.now) e ∷ []) (option_map seen d.now.value) []) }
{
    if let Some(e) = &d.value {
        push_made(all, value_process(alloc, here, d, e))?;
    }
    Ok(())
}

/// Adds the processes of declared values.
pub fn add_values(
    alloc: Global,
    all: &mut Vec<Process>,
    here: Here<'_, '_, '_>,
    ds: &[Declared],
) -> Result<(), AllocError>
    ensures { OnOk result ((type : x.DataType) → map process_of all.new.items ≡ map process_of all.old.items ++ p.values (seen_here here.entry) (map (seen_declared type) ds.now)) }
{
    for d in ds {
        add_value(alloc, all, here, d)?;
    }
    Ok(())
}

/// A continuous assignment.
fn assignment(alloc: Global, here: Here<'_, '_, '_>, a: &Setting) -> Result<Process, AllocError>
    ensures { IfOk result (λ b. process_of b ≡ p.assignment (seen_here here.entry) (seen_setting a.now)) }
{
    let scope = module_scope(here.names);
    let source = Box::new(alloc, exp(alloc, &scope, &a.value)?)?;
    let written = target(alloc, &scope, &a.target)?;
    assigned(
        alloc,
        here,
        left_place(&a.target),
        ProcKind::Assign,
        written,
        Box::into_inner(source),
    )
}

/// Adds continuous assignments.
pub fn add_assignments(
    alloc: Global,
    all: &mut Vec<Process>,
    here: Here<'_, '_, '_>,
    list: &[Setting],
) -> Result<(), AllocError>
    ensures { OnOk result (map process_of all.new.items ≡ map process_of all.old.items ++ map (p.assignment (seen_here here.entry)) (map seen_setting list.now)) }
{
    for a in list {
        push_made(all, assignment(alloc, here, a))?;
    }
    Ok(())
}

/// The number of an edge.
fn edge_of(edge: Option<Edge>) -> u8
    ensures { result ≡ p.edge_of edge }
{
    match edge {
        None => 0,
        Some(Edge::Rising) => 1,
        Some(Edge::Falling) => 2,
    }
}

/// What a process waits for.
fn event(names: &Names<'_>, e: &EventTree) -> Event
    ensures { result ≡ p.event (look names.now) e.now }
{
    Event {
        place: e.place,
        signal: number_of(found_in(names, e.name.name.as_slice())),
        edge: edge_of(e.edge),
    }
}

/// What a process with a list of events waits for.
fn listed_events(
    alloc: Global,
    names: &Names<'_>,
    es: &[EventTree],
) -> Result<Vec<Event>, AllocError>
    ensures { IfOk result (λ v. v.items ≡ map (p.event (look names.now)) es.now) }
{
    let mut all = Vec::new(alloc);
    for e in es {
        all.push(event(names, e))?;
    }
    Ok(all)
}

/// What a process with a trigger waits for.
fn events(alloc: Global, names: &Names<'_>, trigger: &Trigger) -> Result<Vec<Event>, AllocError>
    ensures { IfOk result (λ v. v.items ≡ p.events (look names.now) trigger.now) }
{
    match trigger {
        Trigger::Events(es) => listed_events(alloc, names, es.as_slice()),
        Trigger::Star | Trigger::Parenthesized => Ok(Vec::new(alloc)),
    }
}

/// When a process with these events runs: by its first edge.
fn edge_kind(es: &[EventTree]) -> ProcKind
    ensures { result ≡ p.edge_kind es.now }
{
    for e in es {
        match e.edge {
            Some(Edge::Rising) => return ProcKind::Rise,
            Some(Edge::Falling) => return ProcKind::Fall,
            None => {}
        }
    }
    ProcKind::Comb
}

/// When a process with a trigger runs.
fn trigger_kind(trigger: &Trigger) -> ProcKind
    ensures { result ≡ p.trigger_kind trigger.now }
{
    match trigger {
        Trigger::Events(es) => edge_kind(es.as_slice()),
        Trigger::Star | Trigger::Parenthesized => ProcKind::Comb,
    }
}

/// An `initial` block.
pub fn initial(
    alloc: Global,
    here: Here<'_, '_, '_>,
    at: Place,
    a: &Statement,
) -> Result<Process, AllocError>
    ensures { IfOk result (λ b. process_of b ≡ p.process (seen_here here.entry) at ProcKinds.Init [] (spec_statement (plainly (look here.entry.names.now)) (seen_statement a.now))) }
{
    let body = statement(alloc, &module_scope(here.names), a)?;
    process(alloc, here, at, ProcKind::Init, Vec::new(alloc), body)
}

/// An `always` block.
pub fn always(
    alloc: Global,
    here: Here<'_, '_, '_>,
    at: Place,
    trigger: &Trigger,
    a: &Statement,
) -> Result<Process, AllocError>
    ensures { IfOk result (λ b. process_of b ≡ p.process (seen_here here.entry) at (p.trigger_kind trigger.now) (p.events (look here.entry.names.now) trigger.now) (spec_statement (plainly (look here.entry.names.now)) (seen_statement a.now))) }
{
    let events = events(alloc, here.names, trigger)?;
    let body = statement(alloc, &module_scope(here.names), a)?;
    process(alloc, here, at, trigger_kind(trigger), events, body)
}
