//! Registers, cells and memory bits of signals (IEEE 1364-2005, clauses 4.2 and 4.9).

ghost use Rattle.std.specs.Prelude.{◌≡◌, ◌+◌, ◌*◌, map, sum_by};
ghost use Rattle.vl_design.specs.Cost.{row_cells, row_mem, row_regs};
ghost use Rattle.vl_design.specs.Rows.{row_of};
ghost use Rattle.vl_design.specs.Width.{signal_form};
ghost use Rattle.vl_design.specs.Costs.{saturated};

use crate::sums::{plus, times};
use vl_design::design::{SigKind, Signal};

/// The width of a signal's words in bits.
fn width_of(signal: &Signal) -> u64
    ensures { result ≡ (row_of signal.now).width }
{
    u64::from(signal.left.abs_diff(signal.right)) + 1
}

/// The width of the words of the signal with a number; 1 where there is none.
pub(crate) fn width_at(signals: &[Signal], number: u32) -> u64
    ensures { result ≡ (signal_form (map row_of signals.now) number).width }
{
    let index = number as usize;
    if index < signals.len() {
        width_of(&signals[index])
    } else {
        1
    }
}

/// The register bits of a signal: 4 for each bit of a variable.
fn row_regs(signal: &Signal) -> u64
    ensures { result ≡ saturated (row_regs signal.now.kind (row_of signal.now).width) }
{
    match signal.kind {
        SigKind::Var | SigKind::Comb => times(4, width_of(signal)),
        SigKind::Net | SigKind::Loop | SigKind::Mem | SigKind::Clock => 0,
    }
}

/// The cells of a signal: 6 for a variable, a memory or a net.
fn row_cells(signal: &Signal) -> u64
    ensures { result ≡ row_cells signal.now.kind }
{
    match signal.kind {
        SigKind::Net | SigKind::Var | SigKind::Comb | SigKind::Mem => 6,
        SigKind::Loop | SigKind::Clock => 0,
    }
}

/// The bits of a memory's words; 0 for other signals.
fn row_mem(signal: &Signal) -> u64
    ensures { result ≡ saturated (row_mem signal.now.kind (row_of signal.now).words (row_of signal.now).width) }
{
    match signal.kind {
        SigKind::Mem => {
            let words = u64::from(signal.first.abs_diff(signal.last)) + 1;
            times(words, width_of(signal))
        }
        SigKind::Net | SigKind::Var | SigKind::Comb | SigKind::Loop | SigKind::Clock => 0,
    }
}

/// The register bits of signals.
pub(crate) fn signal_regs(signals: &[Signal]) -> u64
    ensures { result ≡ saturated (sum_by (λ x. row_regs x.kind (row_of x).width) signals.now) }
{
    let mut all = 0;
    for signal in signals {
        all = plus(all, row_regs(signal));
    }
    all
}

/// The cells of signals.
pub(crate) fn signal_cells(signals: &[Signal]) -> u64
    ensures { result ≡ saturated (sum_by (λ x. row_cells x.kind) signals.now) }
{
    let mut all = 0;
    for signal in signals {
        all = plus(all, row_cells(signal));
    }
    all
}

/// The memory bits of signals.
pub(crate) fn signal_mem(signals: &[Signal]) -> u64
    ensures { result ≡ saturated (sum_by (λ x. row_mem x.kind (row_of x).words (row_of x).width) signals.now) }
{
    let mut all = 0;
    for signal in signals {
        all = plus(all, row_mem(signal));
    }
    all
}
