//! A design as a table: its signals, its functions and its processes, a line each.

use crate::flat::marks::{edge_mark, process_kind, show_bytes, signal_kind};
use crate::flat::statements::show_statement;
use std::alloc::{AllocError, Global};
use vl_design::Place;
use vl_design::design::{Design, Event, Func, Process, SigKind, Signal};

/// A place behind a path.
fn show_place(out: &mut String, place: Place) -> Result<(), AllocError> {
    write!(out, " at {}:{}", place.line, place.column)
}

/// The addresses of a memory; other signals have none unless they are wrong.
fn show_addresses(out: &mut String, signal: &Signal) -> Result<(), AllocError> {
    if signal.kind == SigKind::Mem || signal.first != 0 || signal.last != 0 {
        return write!(out, " [{}:{}]", signal.first, signal.last);
    }
    Ok(())
}

/// A signal: its number, path and place, its kind, sign and range.
fn show_signal(out: &mut String, number: usize, signal: &Signal) -> Result<(), AllocError> {
    write!(out, "{number} ")?;
    show_bytes(out, signal.name.as_slice())?;
    show_place(out, signal.place)?;
    write!(out, " {}", signal_kind(signal.kind))?;
    if signal.signed {
        out.push_str(" signed")?;
    }
    write!(out, " [{}:{}]", signal.left, signal.right)?;
    show_addresses(out, signal)?;
    out.push('\n')
}

/// Signals, whose first has a number.
fn show_signals(out: &mut String, first: usize, signals: &[Signal]) -> Result<(), AllocError> {
    for (number, signal) in signals.iter().enumerate() {
        show_signal(out, first.saturating_add(number), signal)?;
    }
    Ok(())
}

/// A function, whose locals stand behind so many signals.
fn show_function(out: &mut String, behind: usize, function: &Func) -> Result<(), AllocError> {
    out.push_str("function ")?;
    show_bytes(out, function.name.as_slice())?;
    show_place(out, function.place)?;
    out.push_str(" inputs")?;
    for input in function.inputs.as_slice() {
        write!(out, " #{input}")?;
    }
    write!(out, " result #{} ", function.result)?;
    show_statement(out, &function.body)?;
    out.push('\n')?;
    show_signals(out, behind, function.locals.as_slice())
}

/// What a process waits for.
fn show_event(out: &mut String, event: Event) -> Result<(), AllocError> {
    write!(out, " {} #{}", edge_mark(event.edge), event.signal)?;
    show_place(out, event.place)
}

/// A process: its kind, path, place and events, and what it does.
fn show_process(out: &mut String, process: &Process) -> Result<(), AllocError> {
    write!(out, "{} ", process_kind(process.kind))?;
    show_bytes(out, process.path.as_slice())?;
    show_place(out, process.place)?;
    for event in process.events.as_slice() {
        show_event(out, *event)?;
    }
    out.push(' ')?;
    show_statement(out, &process.body)?;
    out.push('\n')
}

/// A design, behind a line of its top module.
pub fn table(alloc: Global, design: &Design) -> Result<String, AllocError> {
    let mut out = String::from_str(alloc, "fine ")?;
    show_bytes(&mut out, design.top.as_slice())?;
    out.push('\n')?;
    let signals = design.signals.as_slice();
    show_signals(&mut out, 0, signals)?;
    for function in design.funcs.as_slice() {
        show_function(&mut out, signals.len(), function)?;
    }
    for process in design.processes.as_slice() {
        show_process(&mut out, process)?;
    }
    Ok(out)
}
