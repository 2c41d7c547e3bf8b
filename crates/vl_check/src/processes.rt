//! The faults of processes and functions: constructs 15 to 18 and 20 to 23, and 14 of variables.

ghost use Rattle.std.specs.Prelude.{◌≡◌, ◌<◌, ℕ, [], ◌++◌, length, map, get_or, false, None, IfOk, OnOk};
ghost use Rattle.vl_design.specs.Seen as seen;
ghost use Rattle.vl_design.specs.Stops.{earliest};
ghost use Rattle.vl_sites.specs.Seen.{site_of};
ghost use Rattle.vl_sites.specs.Sites.{sites};
ghost use Rattle.vl_check.specs.Bodies.{of_function};
ghost use Rattle.vl_check.specs.Standing as x;
ghost use Rattle.vl_check.specs.Told.{process_by, AreLong, AreTold, Notes};

use crate::bodies::body_fault;
use crate::place::{Role, Setting, role_of};
use crate::triggers::trigger_fault;
use crate::writers::{Writers, writer_fault};
use std::alloc::{AllocError, Global};
use vl_design::design::{Design, Func, Process};
use vl_design::stop::Stop;
use vl_sites::statements::statement;

/// The first of a fault so far and those of a process behind others. No signal is marked, and none is behind it.
fn process_fault(
    alloc: Global,
    design: &Design,
    marks: &mut Vec<bool>,
    writers: &mut Writers,
    best: Option<Stop>,
    a: &Process,
) -> Result<Option<Stop>, AllocError>
    requires long { length marks.old.items ≡ length design.now.signals }
    requires clean { (k : ℕ) → k < length design.now.signals → get_or marks.old.items k false ≡ false }
    requires writers { AreLong (length design.now.signals) writers.old }
    ensures stop { IfOk result (λ r. r ≡ earliest best (process_by writers.old (seen.placed design.now) (seen.process_of a.now))) }
    ensures long { OnOk result (length marks.new.items ≡ length design.now.signals) }
    ensures clean { OnOk result ((k : ℕ) → k < length design.now.signals → get_or marks.new.items k false ≡ false) }
    ensures notes { OnOk result (Notes (length design.now.signals) a.now.kind (sites (seen.stm_of a.now.body)) writers.old writers.new) }
{
    let mut all = Vec::new(alloc);
    statement(&mut all, &a.body)?;
    let signals = design.signals.as_slice();
    let s = Setting {
        role: role_of(a.kind),
        shared: signals,
        own: &[],
    };
    let own = body_fault(alloc, &s, best, &a.body, &all)?;
    let trigger = trigger_fault(marks, signals, own, a, &all);
    Ok(writer_fault(writers, signals, trigger, a, &all))
}

/// The first of a fault so far and those of a function.
fn function_fault(
    alloc: Global,
    design: &Design,
    best: Option<Stop>,
    f: &Func,
) -> Result<Option<Stop>, AllocError>
    ensures { IfOk result (λ r. r ≡ earliest best (x.body_faults (of_function (seen.placed design.now) (seen.func_of f.now)) (seen.stm_of f.now.body))) }
{
    let mut all = Vec::new(alloc);
    statement(&mut all, &f.body)?;
    let s = Setting {
        role: Role::Function,
        shared: design.signals.as_slice(),
        own: f.locals.as_slice(),
    };
    body_fault(alloc, &s, best, &f.body, &all)
}

/// The first of a fault so far and those of functions.
pub(crate) fn functions_fault(
    alloc: Global,
    design: &Design,
    best: Option<Stop>,
    fs: &[Func],
) -> Result<Option<Stop>, AllocError>
    ensures { IfOk result (λ r. r ≡ earliest best (x.functions_faults (seen.placed design.now) (map seen.func_of fs.now))) }
{
    let mut first = best;
    for f in fs {
        first = function_fault(alloc, design, first, f)?;
    }
    Ok(first)
}

/// The first of the faults of the processes.
pub(crate) fn processes_fault(
    alloc: Global,
    design: &Design,
    marks: &mut Vec<bool>,
    writers: &mut Writers,
) -> Result<Option<Stop>, AllocError>
    requires long { length marks.old.items ≡ length design.now.signals }
    requires clean { (k : ℕ) → k < length design.now.signals → get_or marks.old.items k false ≡ false }
    requires writers { AreLong (length design.now.signals) writers.old }
    requires told { AreTold (length design.now.signals) [] writers.old }
    ensures { IfOk result (λ r. r ≡ earliest None (x.processes_faults (seen.placed design.now) [] (map seen.process_of design.now.processes))) }
{
    let mut first = None;
    for a in design.processes.as_slice() {
        first = process_fault(alloc, design, marks, writers, first, a)?;
    }
    Ok(first)
}
