//! Places and sizes in a bank.

ghost use Rattle.std.specs.Prelude.{◌≡◌, IfOk};
ghost use Rattle.trap_runtime.specs.cell_form.specs.Views.{bank_of};
ghost use Rattle.trap_runtime.specs.cell_form.specs.Sound.{shape_of};
ghost use Rattle.fab_join.specs.Laid.{shape_of_span};

use std::alloc::AllocError;
use trap_runtime::Bank;

/// So many registers, memories and slots.
#[derive(Clone, Copy, Debug, PartialEq, Eq)]
pub(crate) struct Span {
    pub(crate) regs: u32,
    pub(crate) mems: u32,
    pub(crate) slots: u32,
}

/// A count of things whose numbers have 32 bits; more want memory that there isn't.
fn count(n: usize) -> Result<u32, AllocError>
    ensures { IfOk result (λ m. m ≡ n) }
{
    match u32::try_from(n) {
        Ok(m) => Ok(m),
        Err(_) => Err(AllocError),
    }
}

/// How many registers, memories and slots a bank has.
pub(crate) fn extent(bank: &Bank) -> Result<Span, AllocError>
    ensures { IfOk result (λ s. shape_of_span s ≡ shape_of (bank_of bank.now)) }
{
    Ok(Span {
        regs: count(bank.regs.len())?,
        mems: count(bank.mems.len())?,
        slots: count(bank.slots.len())?,
    })
}
