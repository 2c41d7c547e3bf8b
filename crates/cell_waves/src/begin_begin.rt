//! Variables as they are, and nets over the values committed last (IEEE 1364-2005, clauses 6.1 and 11.3).

ghost use Rattle.std.specs.Prelude.{◌≡◌, ◌+◌, if◌then◌else◌, false, List, ℕ, length, map, All, IfOk};
ghost use Rattle.cell_emit.specs.vl_base.specs.declared.files.File.{File};
ghost use Rattle.ten_form.specs.vl_design.specs.Sound.{IsSound};
ghost use Rattle.ten_form.specs.vl_design.specs.State.{State, sample};
ghost use Rattle.ten_form.specs.vl_design.specs.Trees.{flat_of, row_of};
ghost use Rattle.ten_form.specs.vl_design.specs.Width.{names_of};
ghost use Rattle.ten_form.specs.vl_runs.specs.Nets as settling;
ghost use Rattle.ten_form.specs.vl_runs.specs.Checked.{IsChecked};
ghost use Rattle.ten_form.specs.vl_runs.specs.Computed as c;
ghost use Rattle.ten_form.specs.vl_runs.specs.NetsOfSettle.{run};
ghost use Rattle.cell_emit.specs.cell_form.specs.Data.{BankData};
ghost use Rattle.cell_emit.specs.cell_form.specs.Sound.{Shape};
ghost use Rattle.cell_emit.specs.cell_form.specs.Views.{list_of};
ghost use Rattle.cell_emit.specs.Slots.{AreSound, Grows, Longer};
ghost use Rattle.cell_emit.specs.Envs.{env_of, Fits, HasMemories, Stands};
ghost use Rattle.cell_emit.specs.Entries.{read_count};
ghost use Rattle.cell_emit.specs.Reads.{IsRead};
ghost use Rattle.cell_expr.specs.Bodies.{IsCellFun};
ghost use Rattle.cell_waves.specs.Passes.{pass_count};
ghost use Rattle.cell_waves.specs.BeginsOfBegin as s;

use crate::pass::pass;
use cell_emit::at::At;
use cell_emit::cell::CellList;
use cell_emit::reads_reads::reads;
use std::alloc::{AllocError, Global};
use ten_form::design::{Design, SigKind, Signal};

/// Whether signals of a kind are computed, by combinational processes.
pub fn is_computed(kind: SigKind) -> bool
    ensures { result ≡ c.is_computed kind }
{
    matches!(kind, SigKind::Net | SigKind::Comb)
}

/// The entry of a signal of a kind: that of a net where it is computed, else the other.
fn entry_of(kind: SigKind, net: Option<u32>, other: Option<u32>) -> Option<u32>
    ensures { result ≡ (if c.is_computed kind then net else other) }
{
    if is_computed(kind) { net } else { other }
}

/// Takes the entries of computed signals from those of nets.
fn join(signals: &[Signal], nets: &At, at: &mut At)
    requires nets { length nets.now.slots.items ≡ length signals.now }
    requires others { length at.old.slots.items ≡ length signals.now }
    requires nets_first { nets.now.first ≡ 0 }
    requires first { at.old.first ≡ 0 }
    ensures { s.Joins (map row_of signals.now) (env_of nets.now) (env_of at.old) (env_of at.new) }
{
    for number in 0..signals.len() {
        let kind = signals[number].kind;
        let entry = entry_of(kind, nets.slots[number], at.slots[number]);
        at.slots[number] = entry;
    }
}

/// The cells that a state begins with: each variable is read from the register of its copy `works`, and each net and combinational
/// variable is computed, by one pass in order over what the registers `values` hold; a memory is itself, by its number in `works`.
/// `values` and `works` have for each signal the number of its register, and for a memory the memory's number. An `Err` is want of
/// memory; slots that were there stay then too.
pub fn begin(
    alloc: Global,
    cells: &mut CellList,
    design: &Design,
    order: &[u32],
    values: &[u32],
    works: &[u32],
    time: u32,
    answer: u32,
) -> Result<At, AllocError>
    requires sound { IsSound (flat_of design.now) }
    requires functions { All (IsCellFun (names_of (flat_of design.now))) (flat_of design.now).funs }
    requires checked { IsChecked (flat_of design.now) }
    requires there { settling.AllBelow (length (flat_of design.now).procs) order.now }
    requires values { length values.now ≡ length design.now.signals }
    requires works { length works.now ≡ length design.now.signals }
    ensures grows { Grows (list_of cells.old) (list_of cells.new) }
    ensures first { IfOk result (λ at. at.first ≡ 0) }
    ensures fits { IfOk result (λ at. Fits (names_of (flat_of design.now)) (list_of cells.new) (env_of at)) }
    ensures longer { IfOk result (λ at. Longer (s.HasCopies (names_of (flat_of design.now)) values.now works.now time answer)
        (read_count (flat_of design.now).rows + 4 + pass_count (flat_of design.now) order.now + (read_count (flat_of design.now).rows + 4)) (list_of cells.old) (list_of cells.new)) }
    ensures memories { IfOk result (λ at. (z : Shape) → s.HasCopies (names_of (flat_of design.now)) values.now works.now time answer z → HasMemories (names_of (flat_of design.now)) (env_of at) z) }
    ensures stands { IfOk result (λ at. (files : List File) (z : Shape) (b : BankData) (t : State) (w x : List (List ℕ)) → AreSound z (list_of cells.old) → t.finished ≡ false →
        IsRead (names_of (flat_of design.now)) b values.now time answer (sample t) → IsRead (names_of (flat_of design.now)) b works.now time answer (sample (record t { values = w })) →
        s.Mixes (names_of (flat_of design.now)) (settling.pass (run (flat_of design.now) files t) order.now t.values) w x →
        Stands (names_of (flat_of design.now)) b (list_of cells.new) (env_of at) (sample (record t { values = x }))) }
{
    let mut nets = reads(alloc, cells, design, values, time, answer)?;
    pass(alloc, cells, design, order, &mut nets)?;
    let mut at = reads(alloc, cells, design, works, time, answer)?;
    join(design.signals.as_slice(), &nets, &mut at);
    Ok(at)
}
