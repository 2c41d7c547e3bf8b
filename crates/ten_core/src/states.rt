//! States of a table: the one that is next, its cycle, and its call.

ghost use Rattle.std.specs.Prelude.{◌≡◌, ◌<◌, ℕ, Some, length, option_copied, option_map, slice_get};
ghost use Rattle.trap_runtime.specs.cell_form.specs.Data.{StateData};
ghost use Rattle.trap_runtime.specs.cell_form.specs.Sound.{IsList, shape_of};
ghost use Rattle.trap_runtime.specs.cell_form.specs.States.{present, table_cycled};
ghost use Rattle.trap_runtime.specs.cell_form.specs.Views.{bank_of, state_of, table_of};
ghost use Rattle.trap_runtime.specs.cell_form.specs.declared.table.Trap.{Trap as TrapData};
ghost use Rattle.ten_core.specs.Traps.{has_trap, IsAtCall};

use cell_eval::cycle::cycle;
use trap_runtime::Bank;
use trap_runtime::table::{State, StateTable, Trap};

/// The state that is next. None where the state register names none.
fn next_state<'a>(table: &'a StateTable, bank: &Bank) -> Option<&'a State>
    requires { table.now.state < length bank.now.regs.items }
    ensures { option_map state_of (option_copied result) ≡ present (table_of table.now) (bank_of bank.now) }
{
    let states = table.states.as_slice();
    let number = bank.regs[table.state as usize];
    if number < states.len() as u128 {
        Some(&states[number as usize])
    } else {
        None
    }
}

/// One cycle of a table: that of the cells of the state that is next.
pub(crate) fn step(table: &StateTable, bank: &mut Bank)
    requires register { table.now.state < length bank.old.regs.items }
    requires list { (s : StateData) → present (table_of table.now) (bank_of bank.old) ≡ Some s → IsList (shape_of (bank_of bank.old)) s.cells }
    ensures { bank_of bank.new ≡ table_cycled (table_of table.now) (bank_of bank.old) }
{
    if let Some(state) = next_state(table, bank) {
        cycle(&state.cells, bank);
    }
}

/// The state of a number has a call to be served.
pub(crate) fn has_call(table: &StateTable, number: u32) -> bool
    ensures { result ≡ has_trap (slice_get (table_of table.now).states number) }
{
    match table.states.as_slice().get(number as usize) {
        None => false,
        Some(state) => state.trap.is_some(),
    }
}

/// The call of the state that is next, and the state behind it.
pub(crate) fn next_call<'a>(table: &'a StateTable, bank: &Bank) -> (&'a Trap, u32)
    requires register { table.now.state < length bank.now.regs.items }
    requires call { (trap : TrapData) × (to : ℕ) × IsAtCall (table_of table.now) (bank_of bank.now) trap to }
    ensures { IsAtCall (table_of table.now) (bank_of bank.now) result.0.now result.1 }
{
    match next_state(table, bank) {
        None => unreachable!(),
        Some(state) => match &state.trap {
            None => unreachable!(),
            Some(trap) => (trap, state.nexts.as_slice()[0]),
        },
    }
}
