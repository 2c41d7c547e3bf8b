//! The blocks of a wave as nodes (IEEE 1364-2005, clause 11).

ghost use Rattle.std.specs.Prelude.{◌≡◌, ◌∷◌, List, [], IfOk, map};
ghost use Rattle.vl_design.specs.Queue.{is_fall};
ghost use Rattle.vl_design.specs.Syntax as y;
ghost use Rattle.vl_design.specs.Alone.{blocks};
ghost use Rattle.vl_design.specs.Trees.{proc_of};
ghost use Rattle.sub_nodes.specs.Code as c;
ghost use Rattle.sub_nodes.specs.Implements.{bodies};
ghost use Rattle.sub_split.specs.Makes.{made_view, nodes_view, Makes};
ghost use Rattle.sub_split.specs.Waves.{has_fall, is_of, statements_of, IsPart};

use crate::making::{Head, Next, Nodes};
use crate::marks::marks_in;
use crate::statements::split;
use crate::table::WayOn;
use std::alloc::{AllocError, Global};
use vl_design::design::{ProcKind, Process};

/// The nodes of a wave, and the number of the first one that is done.
#[derive(Drop)]
pub(crate) struct Part<'a> {
    /// The number of the first one.
    pub(crate) first: u32,
    /// The nodes.
    pub(crate) nodes: Nodes<'a>,
}

/// Whether a process of a kind belongs to a wave.
fn belongs(wave: ProcKind, kind: ProcKind) -> bool
    ensures { result ≡ is_of wave kind }
{
    match wave {
        ProcKind::Init => matches!(kind, ProcKind::Init),
        ProcKind::Rise => matches!(kind, ProcKind::Rise),
        ProcKind::Fall => matches!(kind, ProcKind::Fall),
        ProcKind::Comb | ProcKind::Assign => false,
    }
}

/// Whether a block waits for the clock's fall.
pub(crate) fn has_fall(processes: &[Process]) -> bool
    ensures { result ≡ has_fall processes.now }
{
    for process in processes {
        if belongs(ProcKind::Fall, process.kind) {
            return true;
        }
    }
    false
}

/// A process before what begins so, if it belongs to the wave.
fn block<'a>(
    alloc: Global,
    nodes: &mut Nodes<'a>,
    wave: ProcKind,
    process: &'a Process,
    head: Head<'a>,
) -> Result<Head<'a>, AllocError>
    ensures { IfOk result (λ h. (ps : List y.Proc) (m : c.Made) → made_view nodes.old head.entry ≡ c.split_all nodes.old.from (bodies (blocks (is_of wave) ps)) m → Makes nodes.old nodes.new h (c.split_all nodes.old.from (bodies (blocks (is_of wave) (proc_of process.now ∷ ps))) m)) }
{
    if !belongs(wave, process.kind) {
        return Ok(head);
    }
    let marks = marks_in(alloc, &process.body)?;
    let mut left = marks.into_iter();
    split(alloc, nodes, &mut left, &process.path, &process.body, head)
}

/// The processes of a wave before what begins so.
fn split_blocks<'a>(
    alloc: Global,
    nodes: &mut Nodes<'a>,
    wave: ProcKind,
    processes: &'a [Process],
    head: Head<'a>,
) -> Result<Head<'a>, AllocError>
    ensures { IfOk result (λ h. Makes nodes.old nodes.new h (c.split_all nodes.old.from (statements_of wave processes.now) (made_view nodes.old head.entry))) }
{
    let mut before = head;
    let mut left = processes.len();
    while left > 0 {
        left -= 1;
        before = block(alloc, nodes, wave, &processes[left], before)?;
    }
    Ok(before)
}

/// A wave, whose nodes are numbered from a number on. Its update is this node; before it the clock rises or not.
pub(crate) fn wave<'a>(
    alloc: Global,
    from: u32,
    update: u32,
    rises: bool,
    kind: ProcKind,
    processes: &'a [Process],
) -> Result<Part<'a>, AllocError>
    ensures { IfOk result (λ p. IsPart from (c.wave_first from update (statements_of kind processes.now)) (c.wave_nodes from update (statements_of kind processes.now) (record { rises = rises; statements = [] })) p) }
{
    let mut nodes = Nodes::new(alloc, from);
    let end = Head::new(alloc, Next::Leads(WayOn::Commit(update)));
    let head = split_blocks(alloc, &mut nodes, kind, processes, end)?;
    let first = nodes.number()?;
    nodes.place(rises, head)?;
    Ok(Part { first, nodes })
}

/// The wave of the clock's fall; no node where no block waits for that.
pub(crate) fn fall_wave<'a>(
    alloc: Global,
    from: u32,
    falls: bool,
    processes: &'a [Process],
) -> Result<Part<'a>, AllocError>
    requires { falls ≡ has_fall processes.now }
    ensures { IfOk result (λ p. IsPart from (c.wave_first from 2 (statements_of ProcKind.Fall processes.now)) (c.fall_nodes from (blocks is_fall (map proc_of processes.now))) p) }
{
    if falls {
        wave(alloc, from, 2, false, ProcKind::Fall, processes)
    } else {
        Ok(Part {
            first: from,
            nodes: Nodes::new(alloc, from),
        })
    }
}
