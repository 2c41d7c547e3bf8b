//! A flag for each net.

ghost use Rattle.std.specs.Prelude.{◌≡◌, ◌<◌, ◌+◌, ◌||◌, ◌==◌, not, ℕ, true, false, length, IfOk, count_by};
ghost use Rattle.cell_level.specs.Walks.{on, Marks};

use std::alloc::{AllocError, Global};

/// Flags that are all off.
pub fn flags(alloc: Global, count: usize) -> Result<Vec<bool>, AllocError>
    ensures long { IfOk result (λ v. length v.items ≡ count) }
    ensures off { IfOk result (λ v. (x : ℕ) → on v.items x ≡ false) }
{
    vec![in alloc; false; count]
}

/// Whether a net's flag is on.
pub fn is_on(flags: &Vec<bool>, net: u32) -> bool
    requires { net < length flags.now.items }
    ensures { result ≡ on flags.now.items net }
{
    flags[net as usize]
}

/// A net's flag is on from now on.
pub fn mark(flags: &mut Vec<bool>, net: u32)
    requires { net < length flags.old.items }
    ensures long { length flags.new.items ≡ length flags.old.items }
    ensures marked { Marks flags.old.items net flags.new.items }
    ensures fewer { on flags.old.items net ≡ false → count_by not flags.new.items + 1 ≡ count_by not flags.old.items }
{
    flags[net as usize] = true;
}
