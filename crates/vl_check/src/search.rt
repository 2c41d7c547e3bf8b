//! Whether one function leads to another by calls.

ghost use Rattle.std.specs.Prelude.{◌≡◌, ◌↔◌, ◌<◌, true, length, IfOk};
ghost use Rattle.vl_check.specs.Recursion.{Reaches};
ghost use Rattle.vl_check.specs.Tables as x;

use crate::calls_calls::Call;
use crate::calls_marks::{add, flags, follow, is_on};
use std::alloc::{AllocError, Global};

/// A function is another, or leads to it by calls.
pub(crate) fn reaches(
    alloc: Global,
    table: &[Vec<Call>],
    from: u32,
    to: u32,
) -> Result<bool, AllocError>
    requires within { x.IsClosed (x.rows_of table.now) }
    requires from { from < length table.now }
    requires to { to < length table.now }
    ensures { IfOk result (λ r. (r ≡ true) ↔ Reaches (x.Step (x.rows_of table.now)) from to) }
{
    let mut seen = flags(alloc, table.len())?;
    let mut stack = Vec::new(alloc);
    add(&mut seen, &mut stack, from)?;
    'search: while let Some(f) = stack.pop() {
        follow(&mut seen, &mut stack, table[f as usize].as_slice())?;
    }
    Ok(is_on(&seen, to))
}
