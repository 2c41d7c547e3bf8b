//! A design in the making, and what is counted of it.

ghost use Rattle.std.specs.Prelude.{◌≡◌, []};
ghost use Rattle.elab_plain.specs.vl_flat.specs.Outcome as o;
ghost use Rattle.vl_elab.specs.Growing.{totals_of};

use std::alloc::Global;
use vl_design::design::{Func, Process, Signal};

/// So many so far; clocks and loop variables are no signals here.
#[derive(Clone, Copy, Debug, PartialEq, Eq)]
pub struct Totals {
    /// Instances.
    pub instances: u32,
    /// Signals.
    pub signals: u32,
    /// Words of memories.
    pub words: u64,
}

/// A design in the making: what its parts so far stand for.
#[derive(Drop)]
pub struct Making {
    /// Its signals.
    pub signals: Vec<Signal>,
    /// Its functions.
    pub funcs: Vec<Func>,
    /// Its processes.
    pub processes: Vec<Process>,
    /// What is counted.
    pub totals: Totals,
}

/// Nothing yet.
pub fn nothing_yet(alloc: Global) -> Making
    ensures totals { totals_of result.totals ≡ o.nothing_yet }
    ensures signals { result.signals.items ≡ [] }
    ensures funcs { result.funcs.items ≡ [] }
    ensures processes { result.processes.items ≡ [] }
{
    Making {
        signals: Vec::new(alloc),
        funcs: Vec::new(alloc),
        processes: Vec::new(alloc),
        totals: Totals {
            instances: 0,
            signals: 0,
            words: 0,
        },
    }
}
