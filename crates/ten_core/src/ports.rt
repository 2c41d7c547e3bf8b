//! The ports of a design, and the rows of its snapshots.

ghost use Rattle.std.specs.Prelude.{◌≡◌, ◌<◌, ◌^◌, ◌++◌, [], ◌∷◌, if◌then◌else◌, IfOk, OnOk};
ghost use Rattle.vl_design.specs.Snapshots as kept;
ghost use Rattle.vl_design.specs.Sound.{IsWidth};
ghost use Rattle.vl_design.specs.Trees.{flat_of, row_of};
ghost use Rattle.sub_runs.specs.Memories.{is_mem};
ghost use Rattle.ten_form.specs.Registers as s;
ghost use Rattle.ten_core.specs.Holding.{CanBeHeld, IsSized};
ghost use Rattle.ten_core.specs.Ports.{port_of, ports_of, snap_row};
ghost use Rattle.ten_plan.specs.Written.{rows_of};

use snap_form::snapshot::SnapRow;
use std::alloc::{AllocError, Global};
use ten_files::name::copy_text;
use ten_form::places::{VALUE, WORK, register};
use trap_runtime::{Port, PortMap};
use vl_design::Items;
use vl_design::design::{Design, SigKind, Signal};
use vl_eval::selects::word_count;

/// Whether a snapshot keeps signals of a kind.
fn is_kept(kind: SigKind) -> bool
    ensures { result ≡ kept.is_kept kind }
{
    matches!(kind, SigKind::Var | SigKind::Mem)
}

/// The width of a signal's words in bits.
fn width(signal: &Signal) -> u8
    requires { IsWidth (row_of signal.now).width }
    ensures { result ≡ (row_of signal.now).width }
{
    (signal.left.abs_diff(signal.right) + 1) as u8
}

/// How many words a signal has.
fn words(signal: &Signal) -> u32
    requires { (row_of signal.now).words < 2 ^ 32 }
    ensures { result ≡ (row_of signal.now).words }
{
    word_count(signal) as u32
}

/// How many words a snapshot says of a signal that has so many: none of a variable.
fn snap_words(kind: SigKind, words: u32) -> u32
    ensures { result ≡ kept.snap_words kind words }
{
    match kind {
        SigKind::Mem => words,
        _ => 0,
    }
}

/// The port of a signal: of a memory its number, of a variable its registers.
fn port_at(kind: SigKind, number: u32, width: u8, words: u32) -> Port
    requires { number < 268435456 }
    ensures { result ≡ record { mem = is_mem kind; value = s.place s.value_register kind number; work = s.place s.work_register kind number; width = width; words = kept.snap_words kind words } }
{
    let words = snap_words(kind, words);
    match kind {
        SigKind::Mem => Port {
            mem: true,
            value: number,
            work: number,
            width,
            words,
        },
        _ => Port {
            mem: false,
            value: register(number, VALUE),
            work: register(number, WORK),
            width,
            words,
        },
    }
}

/// Adds the port of a signal, where a snapshot keeps it.
fn add_port(ports: &mut Vec<Port>, signal: &Signal, number: u32) -> Result<(), AllocError>
    requires few { number < 268435456 }
    requires sized { IsSized (row_of signal.now) }
    ensures { OnOk result (ports.new.items ≡ ports.old.items ++ (if kept.is_kept (row_of signal.now).kind then port_of number (row_of signal.now) ∷ [] else [])) }
{
    if !is_kept(signal.kind) {
        return Ok(());
    }
    ports.push(port_at(signal.kind, number, width(signal), words(signal)))?;
    Ok(())
}

/// The ports of a design: one for each variable and memory that a snapshot keeps, in order.
pub fn ports(alloc: Global, design: &Design) -> Result<PortMap, AllocError>
    requires { CanBeHeld (flat_of design.now) }
    ensures { IfOk result (λ map. map.ports ≡ ports_of (flat_of design.now).rows) }
{
    let mut ports = Vec::new(alloc);
    for (number, signal) in design.signals.as_slice().iter().enumerate() {
        add_port(&mut ports, signal, number as u32)?;
    }
    Ok(PortMap {
        ports: Items::from_vec(ports),
    })
}

/// Adds the row of a signal, where a snapshot keeps it.
fn add_row(alloc: Global, rows: &mut Vec<SnapRow>, signal: &Signal) -> Result<(), AllocError>
    requires { IsSized (row_of signal.now) }
    ensures { OnOk result (rows.new.items ≡ rows.old.items ++ (if kept.is_kept (row_of signal.now).kind then snap_row (row_of signal.now) ∷ [] else [])) }
{
    if !is_kept(signal.kind) {
        return Ok(());
    }
    let name = copy_text(alloc, &signal.name)?;
    rows.push(SnapRow {
        name,
        width: width(signal),
        words: snap_words(signal.kind, words(signal)),
    })?;
    Ok(())
}

/// The rows of a design's snapshots.
pub fn snapshot_rows(alloc: Global, design: &Design) -> Result<Items<SnapRow>, AllocError>
    requires { CanBeHeld (flat_of design.now) }
    ensures { IfOk result (λ rows. rows ≡ rows_of (flat_of design.now).rows) }
{
    let mut rows = Vec::new(alloc);
    for signal in design.signals.as_slice() {
        add_row(alloc, &mut rows, signal)?;
    }
    Ok(Items::from_vec(rows))
}
