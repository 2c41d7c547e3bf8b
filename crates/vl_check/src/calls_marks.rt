//! Functions that were come to.

ghost use Rattle.std.specs.Prelude.{◌≡◌, ◌<◌, ◌≤◌, ◌+◌, ◌*◌, ◌||◌, ◌==◌, ◌⊎◌, ◌++◌, ◌∷◌, [], not, ℕ, true, false, length, OnOk, IfOk, count_by};
ghost use Rattle.cell_level.specs.Walks.{on, Marks};
ghost use Rattle.vl_check.specs.Tables.{AreBelow};
ghost use Rattle.vl_check.specs.Searches.{Follows, IsAdded, room};

use crate::calls_calls::Call;
use std::alloc::{AllocError, Global};

/// Flags that are all off.
pub(crate) fn flags(alloc: Global, count: usize) -> Result<Vec<bool>, AllocError>
    ensures long { IfOk result (λ v. length v.items ≡ count) }
    ensures off { IfOk result (λ v. (x : ℕ) → on v.items x ≡ false) }
{
    vec![in alloc; false; count]
}

/// Whether a function's flag is on.
pub(crate) fn is_on(flags: &Vec<bool>, f: u32) -> bool
    requires { f < length flags.now.items }
    ensures { result ≡ on flags.now.items f }
{
    flags[f as usize]
}

/// A function's flag is on from now on.
fn mark(flags: &mut Vec<bool>, f: u32)
    requires { f < length flags.old.items }
    ensures long { length flags.new.items ≡ length flags.old.items }
    ensures marked { Marks flags.old.items f flags.new.items }
    ensures fewer { on flags.old.items f ≡ false → count_by not flags.new.items + 1 ≡ count_by not flags.old.items }
{
    flags[f as usize] = true;
}

/// Comes to a function, and puts it on the stack if it is new.
pub(crate) fn add(seen: &mut Vec<bool>, stack: &mut Vec<u32>, f: u32) -> Result<(), AllocError>
    requires { f < length seen.old.items }
    ensures long { OnOk result (length seen.new.items ≡ length seen.old.items) }
    ensures added { OnOk result (IsAdded f seen.old.items stack.old.items seen.new.items stack.new.items) }
    ensures room { OnOk result (room seen.new.items stack.new.items ≤ room seen.old.items stack.old.items) }
{
    if !is_on(seen, f) {
        mark(seen, f);
        stack.push(f)?;
    }
    Ok(())
}

/// Comes to the functions that are called.
pub(crate) fn follow(
    seen: &mut Vec<bool>,
    stack: &mut Vec<u32>,
    calls: &[Call],
) -> Result<(), AllocError>
    requires { AreBelow (length seen.old.items) calls.now }
    ensures long { OnOk result (length seen.new.items ≡ length seen.old.items) }
    ensures follows { OnOk result (Follows calls.now seen.old.items stack.old.items seen.new.items stack.new.items) }
    ensures room { OnOk result (room seen.new.items stack.new.items ≤ room seen.old.items stack.old.items) }
{
    for call in calls {
        add(seen, stack, call.callee)?;
    }
    Ok(())
}
