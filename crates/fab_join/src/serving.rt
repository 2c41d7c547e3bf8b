//! The trap of the state that a table stands in.

ghost use Rattle.std.specs.Prelude.{◌≡◌, ◌<◌, true, length, IfSome, IfOk, OnOk, OnErr, option_copied};
ghost use Rattle.trap_runtime.specs.cell_form.specs.Views.{bank_of, table_of};
ghost use Rattle.trap_runtime.specs.ten_files.specs.Tables.{open_files, IsTableOf};
ghost use Rattle.trap_runtime.specs.Traps.{IsTrap};
ghost use Rattle.fab_join.specs.Traps.{trap_at, trap_served, trap_takes_memory, way_of_trap};

use cell_eval::files::FileSet;
use std::alloc::{AllocError, Global};
use trap_runtime::serve::serve;
use trap_runtime::served::Served;
use trap_runtime::table::{StateTable, Trap};
use trap_runtime::{Bank, Table};

/// The trap of the state that the state register names.
fn present_trap<'a>(states: &'a StateTable, bank: &Bank) -> Option<&'a Trap>
    requires { states.now.state < length bank.now.regs.items }
    ensures { option_copied result ≡ trap_at (table_of states.now) (bank_of bank.now) }
{
    let present = bank.regs[states.state as usize];
    let all = states.states.as_slice();
    if present < all.len() as u128 {
        let state = &all[present as usize];
        state.trap.as_ref()
    } else {
        None
    }
}

/// Serves the trap of the state that the state register names: just its effect, and how. Nothing where there is none. Want of memory
/// leaves all as it was, and is the answer only of a call that takes memory.
pub(crate) fn serve_present(
    alloc: Global,
    states: &StateTable,
    bank: &mut Bank,
    files: &FileSet,
    table: &mut Table,
    out: &mut Vec<u8>,
) -> Result<Served, AllocError>
    requires state { states.now.state < length bank.old.regs.items }
    requires trap { IfSome (trap_at (table_of states.now) (bank_of bank.old)) (λ t. IsTrap (bank_of bank.old) t) }
    requires table { IsTableOf files.now table.old }
    ensures served { OnOk result ((record { bank = bank_of bank.new; table = open_files files.now table.new; printed = out.new.items })
        ≡ trap_served files.now (trap_at (table_of states.now) (bank_of bank.old)) (record { bank = bank_of bank.old; table = open_files files.now table.old; printed = out.old.items })) }
    ensures way { IfOk result (λ way. way ≡ way_of_trap (trap_at (table_of states.now) (bank_of bank.old))) }
    ensures bank { OnErr result (bank_of bank.new ≡ bank_of bank.old) }
    ensures files { OnErr result (table.new ≡ table.old) }
    ensures printed { OnErr result (out.new.items ≡ out.old.items) }
    ensures memory { OnErr result (trap_takes_memory (trap_at (table_of states.now) (bank_of bank.old)) ≡ true) }
    ensures fits { IsTableOf files.now table.new }
{
    match present_trap(states, &*bank) {
        None => Ok(Served::Went),
        Some(trap) => serve(alloc, trap, bank, files, table, out),
    }
}
