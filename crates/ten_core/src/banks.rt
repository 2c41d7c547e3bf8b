//! Banks' state register.

ghost use Rattle.std.specs.Prelude.{◌≡◌, ◌<◌, length, slice_set};
ghost use Rattle.trap_runtime.specs.cell_form.specs.Views.{bank_of};

use trap_runtime::Bank;

/// Makes a state the one that is next, by the register that names it.
pub(crate) fn go_to(bank: &mut Bank, register: u32, state: u32)
    requires { register < length bank.old.regs.items }
    ensures { bank_of bank.new ≡ record (bank_of bank.old) { regs = slice_set bank.old.regs.items register state } }
{
    bank.regs[register as usize] = u128::from(state);
}
