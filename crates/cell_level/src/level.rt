//! The order of a design's processes, or a combinational loop.

ghost use Rattle.std.specs.Prelude.{◌≡◌, ◌↔◌, ℕ, true, length, map, IfOk, OnOk};
ghost use Rattle.vl_bits.specs.vl_design.specs.Sound.{IsSound, IsSoundStm};
ghost use Rattle.vl_bits.specs.vl_design.specs.Trees.{flat_of, proc_of, stm_of};
ghost use Rattle.vl_bits.specs.vl_design.specs.Width.{names_of};
ghost use Rattle.vl_bits.specs.Seen.{names_seen};
ghost use Rattle.vl_bits.specs.vl_paths.specs.Graph.{Edge};
ghost use Rattle.vl_bits.specs.Walks.{IsClear};
ghost use Rattle.cell_level.specs.Cycles.{IsOnCycle};
ghost use Rattle.cell_level.specs.Nets.{is_ordered};
ghost use Rattle.cell_level.specs.Levelling.{IsLevel};
ghost use Rattle.cell_level.specs.Netting.{IsNetOf, AreNetsOf};

use crate::levels::levels;
use crate::nets::{Levels, Net};
use std::alloc::{AllocError, Global};
use vl_bits::design::{Design, ProcKind, Process};
use vl_bits::meanings::Meanings;
use vl_bits::process::process;

/// What a process reads and drives: nothing where it isn't combinational.
fn net_of(
    alloc: Global,
    m: &Meanings<'_>,
    known: &mut Vec<u128>,
    a: &Process,
) -> Result<Net, AllocError>
    requires sound { IsSoundStm (names_seen m.now) (stm_of a.now.path a.now.body) }
    requires long { length known.old.items ≡ length (names_seen m.now).rows }
    requires clear { IsClear known.old.items }
    ensures net { IfOk result (IsNetOf (names_seen m.now) (proc_of a.now)) }
    ensures long { OnOk result (length known.new.items ≡ length known.old.items) }
    ensures clear { OnOk result (IsClear known.new.items) }
{
    match a.kind {
        ProcKind::Comb | ProcKind::Assign => {
            let walked = process(alloc, m, a.path.as_slice(), known, &a.body)?;
            Ok(Net {
                reads: walked.read,
                drives: walked.driven,
            })
        }
        ProcKind::Init | ProcKind::Rise | ProcKind::Fall => Ok(Net {
            reads: Vec::new(alloc),
            drives: Vec::new(alloc),
        }),
    }
}

/// What numbers stand for in the processes of the design.
fn meanings_of(design: &Design) -> Meanings<'_>
    ensures names { names_seen result ≡ names_of (flat_of design.now) }
{
    Meanings {
        signals: design.signals.as_slice(),
        locals: &[],
        funcs: design.funcs.as_slice(),
    }
}

/// The nets of the processes of a design.
fn nets_of(
    alloc: Global,
    design: &Design,
    m: &Meanings<'_>,
    known: &mut Vec<u128>,
) -> Result<Vec<Net>, AllocError>
    requires sound { IsSound (flat_of design.now) }
    requires names { names_seen m.now ≡ names_of (flat_of design.now) }
    requires long { length known.old.items ≡ length (names_seen m.now).rows }
    requires clear { IsClear known.old.items }
    ensures { IfOk result (λ v. AreNetsOf (names_seen m.now) (map proc_of design.now.processes) v.items) }
{
    let processes = design.processes.as_slice();
    let mut nets = Vec::new(alloc);
    for a in processes {
        let net = net_of(alloc, m, known, a)?;
        nets.push(net)?;
    }
    Ok(nets)
}

/// The order of the processes of a design whose loops are unrolled, each behind those that drive a bit which it reads before it
/// assigns it; or the lowest process on a combinational loop, and then the others of one.
pub fn level(alloc: Global, design: &Design) -> Result<Levels, AllocError>
    requires sound { IsSound (flat_of design.now) }
    ensures level { IfOk result (IsLevel (flat_of design.now)) }
    ensures exact { IfOk result (λ l. (is_ordered l ≡ true) ↔ ((p : ℕ) → IsOnCycle (Edge (flat_of design.now)) p → ⊥)) }
{
    let signals = design.signals.as_slice().len();
    let mut known = vec![in alloc; 0; signals]?;
    let m = meanings_of(design);
    let nets = nets_of(alloc, design, &m, &mut known)?;
    levels(alloc, signals, nets.as_slice())
}
