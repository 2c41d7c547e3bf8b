//! Parts of what statements of processes do, for one who does a choice step by step (IEEE 1364-2005, clauses 9.4 and 9.5).

ghost use Rattle.std.specs.Prelude.{◌≡◌, ◌<◌, ℕ, List, IfOk, IfSome, OnOk, length};
ghost use Rattle.vl_design.specs.Acts.{branch_of};
ghost use Rattle.vl_design.specs.Exec.{is_true};
ghost use Rattle.vl_design.specs.Functions as d;
ghost use Rattle.vl_design.specs.Plainly.{called_first};
ghost use Rattle.vl_design.specs.Seen as seen;
ghost use Rattle.vl_design.specs.Sound.{IsSound, IsSoundExp, IsSoundStm};
ghost use Rattle.vl_design.specs.Syntax as y;
ghost use Rattle.vl_design.specs.Trees.{exp_of, flat_of};
ghost use Rattle.vl_design.specs.Width as w;
ghost use Rattle.vl_eval.specs.Rooms.{Fit};
ghost use Rattle.vl_run.specs.Cases.{items_of, body_at, AreSoundLabels};
ghost use Rattle.vl_run.specs.Machines.{sample_in, state_of, IsMachine, Does};

use crate::machine::Machine;
use crate::outer::outermost;
use crate::process::give;
use std::alloc::{AllocError, Global};
use vl_base::files::FileSet;
use vl_design::design::{CaseItem, Design, Expr};

/// Calls the system function that a condition is, also behind one `!`; nothing where it is none. After an `Err`, which is want
/// of memory, the machine may have done a part of it.
pub fn call_in_process(
    alloc: Global,
    design: &Design,
    files: &FileSet,
    path: &[u8],
    e: &Expr,
    m: &mut Machine,
) -> Result<(), AllocError>
    requires design { IsSound (flat_of design.now) }
    requires sound { IsSoundStm (w.names_of (flat_of design.now)) (called_first path.now (seen.exp_of e.now) y.Nop) }
    requires machine { IsMachine (w.names_of (flat_of design.now)) m.old }
    ensures does { OnOk result (Does (d.scope_of (flat_of design.now) files.now) (called_first path.now (seen.exp_of e.now) y.Nop) m.old m.new) }
    ensures machine { OnOk result (IsMachine (w.names_of (flat_of design.now)) m.new) }
{
    let calls = |function: u32, args: Vec<u128>| -> Result<u128, AllocError>
        requires design { IsSound (flat_of design.now) }
        requires fit { Fit args.items (w.input_widths (w.names_of (flat_of design.now)) function) }
        ensures { IfOk result (λ v. v ≡ (d.scope_of (flat_of design.entry.now) files.entry.now).call function args.items) }
    { give(alloc, design, files, function, args) };
    let scope = outermost(alloc, design, files, calls);
    scope.call_first(path, e, m)
}

/// Whether a condition holds. An `Err` is want of memory.
pub fn holds_in_process(
    alloc: Global,
    design: &Design,
    files: &FileSet,
    test: &Expr,
    m: &Machine,
) -> Result<bool, AllocError>
    requires design { IsSound (flat_of design.now) }
    requires test { IsSoundExp (w.names_of (flat_of design.now)) (exp_of test.now) }
    requires machine { IsMachine (w.names_of (flat_of design.now)) m.now }
    ensures { IfOk result (λ b. (c : ℕ) → b ≡ is_true (d.scope_of (flat_of design.now) files.now) (exp_of test.now) (state_of m.now c)) }
{
    let calls = |function: u32, args: Vec<u128>| -> Result<u128, AllocError>
        requires design { IsSound (flat_of design.now) }
        requires fit { Fit args.items (w.input_widths (w.names_of (flat_of design.now)) function) }
        ensures { IfOk result (λ v. v ≡ (d.scope_of (flat_of design.entry.now) files.entry.now).call function args.items) }
    { give(alloc, design, files, function, args) };
    let scope = outermost(alloc, design, files, calls);
    let bits = scope.own_value(&m.sample(), test)?;
    Ok(bits.value != 0)
}

/// The place of the item whose body a case does; none where it does nothing. An `Err` is want of memory.
pub fn branch_in_process(
    alloc: Global,
    design: &Design,
    files: &FileSet,
    subject: &Expr,
    items: &[CaseItem],
    m: &Machine,
) -> Result<Option<usize>, AllocError>
    requires design { IsSound (flat_of design.now) }
    requires subject { IsSoundExp (w.names_of (flat_of design.now)) (exp_of subject.now) }
    requires items { AreSoundLabels (w.names_of (flat_of design.now)) items.now }
    requires machine { IsMachine (w.names_of (flat_of design.now)) m.now }
    ensures there { IfOk result (λ r. IfSome r (λ i. i < length items.now)) }
    ensures body { IfOk result (λ r. (path : List ℕ) → body_at path items.now r
        ≡ branch_of (d.scope_of (flat_of design.now) files.now) (sample_in m.now) (y.Case (exp_of subject.now) (items_of path items.now))) }
{
    let calls = |function: u32, args: Vec<u128>| -> Result<u128, AllocError>
        requires design { IsSound (flat_of design.now) }
        requires fit { Fit args.items (w.input_widths (w.names_of (flat_of design.now)) function) }
        ensures { IfOk result (λ v. v ≡ (d.scope_of (flat_of design.entry.now) files.entry.now).call function args.items) }
    { give(alloc, design, files, function, args) };
    let scope = outermost(alloc, design, files, calls);
    scope.branch(&m.sample(), subject, items)
}
