//! Numbers of signals and functions in 32 bits.

ghost use Rattle.std.specs.Prelude.{◌≡◌, ◌+◌, ◌*◌, IfOk};
ghost use Rattle.elab_plain.specs.vl_flat.specs.Environments as e;
ghost use Rattle.elab_kinds.specs.Sized.{counts_of, kept, kept_number};

use std::alloc::AllocError;

/// So many signals and functions, or as many as are kept: 2^32 - 1 stands for each number from there on.
#[derive(Clone, Copy)]
pub struct Counts {
    /// The number of signals.
    pub signals: u32,
    /// The number of functions.
    pub functions: u32,
}

/// No signals and no functions.
pub(crate) fn no_more() -> Counts
    ensures { counts_of result ≡ e.no_more }
{
    Counts {
        signals: 0,
        functions: 0,
    }
}

/// What is kept of the sums of two.
pub(crate) fn plus(a: Counts, b: Counts) -> Counts
    ensures { counts_of result ≡ kept (e.plus (counts_of a) (counts_of b)) }
{
    Counts {
        signals: a.signals.saturating_add(b.signals),
        functions: a.functions.saturating_add(b.functions),
    }
}

/// What is kept of a number so many times.
fn times_within(n: usize, a: u32) -> u32
    ensures { result ≡ kept_number (n * a) }
{
    let product = n as u128 * u128::from(a);
    product.min(4294967295) as u32
}

/// What is kept of each so many times.
pub(crate) fn times(n: usize, a: Counts) -> Counts
    ensures { counts_of result ≡ kept (e.times n (counts_of a)) }
{
    Counts {
        signals: times_within(n, a.signals),
        functions: times_within(n, a.functions),
    }
}

/// The counts of which these are kept; want of memory from 2^32 - 1 on.
pub(crate) fn exactly(all: Counts) -> Result<Counts, AllocError>
    ensures { IfOk result (λ c. (b : e.Counts) → counts_of all ≡ kept b → counts_of c ≡ b) }
{
    if all.signals == 4294967295 || all.functions == 4294967295 {
        return Err(AllocError);
    }
    Ok(all)
}

/// The sums of two; want of memory from 2^32 - 1 on.
pub fn sum(a: Counts, b: Counts) -> Result<Counts, AllocError>
    ensures { IfOk result (λ c. counts_of c ≡ e.plus (counts_of a) (counts_of b)) }
{
    Ok(exactly(plus(a, b))?)
}

/// The numbers behind so many signals; want of memory from 2^32 - 1 on.
pub fn behind_signals(next: Counts, own: usize) -> Result<Counts, AllocError>
    ensures { IfOk result (λ c. counts_of c ≡ e.plus (counts_of next) (record { signals = own; functions = 0 })) }
{
    let own = Counts {
        signals: own.min(4294967295) as u32,
        functions: 0,
    };
    Ok(exactly(plus(next, own))?)
}

/// The number behind a number; want of memory from 2^32 - 1 on.
pub fn next_number(number: u32) -> Result<u32, AllocError>
    ensures { IfOk result (λ n. n ≡ number + 1) }
{
    if number < 4294967294 {
        Ok(number + 1)
    } else {
        Err(AllocError)
    }
}
