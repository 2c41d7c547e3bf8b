//! One cycle of a table of states.

ghost use Rattle.std.specs.Prelude.{◌≡◌, ◌<◌, ◌%◌, ◌^◌, length, slice_index};
ghost use Rattle.trap_runtime.specs.cell_form.specs.Views.{bank_of, table_of};
ghost use Rattle.trap_runtime.specs.cell_form.specs.Sound.{shape_of};
ghost use Rattle.trap_runtime.specs.cell_form.specs.States.{table_cycled};
ghost use Rattle.fab_join.specs.Parts.{IsTable};

use cell_eval::cycle::cycle;
use trap_runtime::Bank;
use trap_runtime::table::StateTable;

/// One cycle of the cells of the state that the state register names; nothing where it names none.
pub(crate) fn cycle_present(table: &StateTable, bank: &mut Bank)
    requires { IsTable (shape_of (bank_of bank.old)) (table_of table.now) }
    ensures { bank_of bank.new ≡ table_cycled (table_of table.now) (bank_of bank.old) }
{
    let present = bank.regs[table.state as usize];
    let states = table.states.as_slice();
    if present < states.len() as u128 {
        let state = &states[present as usize];
        cycle(&state.cells, bank);
    }
}

/// The low 32 bits of what the state register holds.
pub(crate) fn state_register(table: &StateTable, bank: &Bank) -> u32
    requires { table.now.state < length bank.now.regs.items }
    ensures { result ≡ slice_index bank.now.regs.items table.now.state % 2 ^ 32 }
{
    (bank.regs[table.state as usize] % 0x1_0000_0000) as u32
}
