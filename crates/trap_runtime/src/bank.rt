//! What calls read and write in a bank.

ghost use Rattle.std.specs.Prelude.{◌≡◌, ◌<◌, ◌^◌, IfSome, length, slice_index, Some};
ghost use Rattle.cell_form.specs.Views.{bank_of};
ghost use Rattle.trap_runtime.specs.Served as s;
ghost use Rattle.trap_runtime.specs.Traps.{HasAnswer, HasDescriptor, HasVariable};

use cell_form::Bits;
use cell_form::bank::Bank;
use cell_form::table::Trap;

/// The descriptor that a call is given.
pub(crate) fn descriptor(trap: &Trap, bank: &Bank) -> u32
    requires { HasDescriptor (bank_of bank.now) trap.now.args }
    ensures { result ≡ s.descriptor (bank_of bank.now) trap.now }
{
    let slot = trap.args.as_slice()[0];
    bank.slots[slot as usize] as u32
}

/// Puts an answer into its register.
pub(crate) fn answer(trap: &Trap, bank: &mut Bank, value: u32)
    requires { HasAnswer (bank_of bank.old) trap.now }
    ensures { bank_of bank.new ≡ s.with_answer trap.now value (bank_of bank.old) }
{
    bank.regs[trap.answer as usize] = u128::from(value);
}

/// The variable that `$fread` reads to, of so many bits.
pub(crate) fn variable(trap: &Trap, bank: &Bank, width: u8) -> Bits
    requires { HasVariable (bank_of bank.now) width trap.now.target }
    ensures value { result.value ≡ s.variable_at (bank_of bank.now) trap.now.target }
    ensures width { result.width ≡ width }
{
    match trap.target {
        None => unreachable!(),
        Some(register) => Bits {
            value: bank.regs[register as usize],
            width,
        },
    }
}

/// Sets the variable that `$fread` reads to.
pub(crate) fn set_variable(trap: &Trap, bank: &mut Bank, width: u8, value: u128)
    requires { HasVariable (bank_of bank.old) width trap.now.target }
    ensures value { bank_of bank.new ≡ s.with_variable trap.now.target value (bank_of bank.old) }
    ensures registers { length bank.new.regs.items ≡ length bank.old.regs.items }
{
    match trap.target {
        None => unreachable!(),
        Some(register) => {
            bank.regs[register as usize] = value;
        }
    }
}
