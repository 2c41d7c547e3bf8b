//! One system call (IEEE 1364-2005, clause 17).

ghost use Rattle.std.specs.Prelude.{◌≡◌, true, IfOk, OnOk, OnErr};
ghost use Rattle.cell_form.specs.vl_base.specs.Files as file;
ghost use Rattle.cell_form.specs.Views.{bank_of};
ghost use Rattle.ten_files.specs.Tables.{open_files, IsTableOf};
ghost use Rattle.trap_runtime.specs.Served as s;
ghost use Rattle.trap_runtime.specs.Traps.{HasAnswer, HasDescriptor, HasVariable, HasMemory, IsTrap};
ghost use Rattle.fmt_text.specs.vl_design.specs.Rows.{range_width};

use crate::bank::{answer, descriptor, set_variable, variable};
use crate::display::display;
use crate::memory::load_memory;
use crate::served::Served;
use cell_form::Text;
use cell_form::bank::Bank;
use cell_form::files::FileSet;
use cell_form::table::{Trap, TrapCall};
use std::alloc::{AllocError, Global};
use ten_files::name::copy_text;
use ten_files::table::Table;

/// Serves `$fread`.
fn read(trap: &Trap, width: u8, bank: &mut Bank, files: &FileSet, table: &mut Table)
    requires descriptor { HasDescriptor (bank_of bank.old) trap.now.args }
    requires variable { HasVariable (bank_of bank.old) width trap.now.target }
    requires answer { HasAnswer (bank_of bank.old) trap.now }
    requires table { IsTableOf files.now table.old }
    ensures bank { bank_of bank.new ≡ (let r = file.read files.now (open_files files.now table.old) (s.descriptor (bank_of bank.old) trap.now) width (s.variable_at (bank_of bank.old) trap.now.target) in s.with_answer trap.now r.count (s.with_variable trap.now.target r.value (bank_of bank.old))) }
    ensures table { open_files files.now table.new ≡ (file.read files.now (open_files files.now table.old) (s.descriptor (bank_of bank.old) trap.now) width (s.variable_at (bank_of bank.old) trap.now.target)).table }
    ensures fits { IsTableOf files.now table.new }
{
    let fd = descriptor(trap, &*bank);
    let old = variable(trap, &*bank, width);
    let (new, count) = table.read(files, fd, old);
    set_variable(trap, bank, width, new.value);
    answer(trap, bank, count);
}

/// Serves `$fgetc`: its answer.
fn next_character(fd: u32, files: &FileSet, table: &mut Table) -> u32
    requires { IsTableOf files.now table.old }
    ensures table { open_files files.now table.new ≡ (file.next_character files.now (open_files files.now table.old) fd).table }
    ensures answer { result ≡ (file.next_character files.now (open_files files.now table.old) fd).answer }
    ensures fits { IsTableOf files.now table.new }
{
    match table.getc(files, fd) {
        None => u32::MAX,
        Some(byte) => u32::from(byte),
    }
}

/// Serves `$readmemh`. Want of memory leaves the bank as it was.
fn read_hex(
    alloc: Global,
    trap: &Trap,
    name: &Text,
    width: u8,
    first: i32,
    last: i32,
    files: &FileSet,
    bank: &mut Bank,
) -> Result<(), AllocError>
    requires { HasMemory (bank_of bank.old) width (range_width first last) trap.now.target }
    ensures ok { OnOk result (bank_of bank.new ≡ s.loaded (file.contents files.now name.now) width first last trap.now (bank_of bank.old)) }
    ensures err { OnErr result (bank_of bank.new ≡ bank_of bank.old) }
{
    match files.find(name) {
        None => Ok(()),
        Some(text) => load_memory(alloc, trap, width, first, last, text.as_slice(), bank),
    }
}

/// Serves a call that the run goes on behind, whatever it is: just its effect. The state register is the caller's. Want of memory
/// leaves all as it was, and is the answer only of a call that takes memory.
fn serve_call(
    alloc: Global,
    trap: &Trap,
    bank: &mut Bank,
    files: &FileSet,
    table: &mut Table,
    out: &mut Vec<u8>,
) -> Result<(), AllocError>
    requires trap { IsTrap (bank_of bank.old) trap.now }
    requires table { IsTableOf files.now table.old }
    ensures served { OnOk result ((record { bank = bank_of bank.new; table = open_files files.now table.new; printed = out.new.items })
        ≡ s.served files.now trap.now (record { bank = bank_of bank.old; table = open_files files.now table.old; printed = out.old.items })) }
    ensures bank { OnErr result (bank_of bank.new ≡ bank_of bank.old) }
    ensures files { OnErr result (table.new ≡ table.old) }
    ensures printed { OnErr result (out.new.items ≡ out.old.items) }
    ensures memory { OnErr result (s.takes_memory trap.now.call ≡ true) }
    ensures fits { IsTableOf files.now table.new }
{
    match &trap.call {
        TrapCall::Print(parts, newline) => {
            display(
                alloc,
                parts.as_slice(),
                *newline,
                trap.args.as_slice(),
                &*bank,
                out,
            )
        }
        TrapCall::Finish => Ok(()),
        TrapCall::Save(_) => Ok(()),
        TrapCall::Fopen(name) => {
            let fd = table.open_file(files, name);
            answer(trap, bank, fd);
            Ok(())
        }
        TrapCall::Fread(width) => {
            read(trap, *width, bank, files, table);
            Ok(())
        }
        TrapCall::Fgetc => {
            let next = next_character(descriptor(trap, &*bank), files, table);
            answer(trap, bank, next);
            Ok(())
        }
        TrapCall::Feof => {
            let ended = table.at_end(descriptor(trap, &*bank));
            answer(trap, bank, u32::from(ended));
            Ok(())
        }
        TrapCall::Fclose => {
            table.close(descriptor(trap, &*bank));
            Ok(())
        }
        TrapCall::ReadHex(name, width, first, last) => {
            read_hex(alloc, trap, name, *width, *first, *last, files, bank)
        }
    }
}

/// How a call is served. The name of a snapshot is copied: nothing else takes memory.
fn way_of(alloc: Global, call: &TrapCall) -> Result<Served, AllocError>
    ensures way { IfOk result (λ way. way ≡ s.way_of call.now) }
    ensures memory { OnErr result (s.takes_memory call.now ≡ true) }
{
    match call {
        TrapCall::Finish => Ok(Served::Finish),
        TrapCall::Save(name) => Ok(Served::Save(copy_text(alloc, name)?)),
        _ => Ok(Served::Went),
    }
}

/// Serves the call of a trap: just its effect, and how. The state register is the caller's. Want of memory leaves all as it was, and is
/// the answer only of a call that takes memory.
pub fn serve(
    alloc: Global,
    trap: &Trap,
    bank: &mut Bank,
    files: &FileSet,
    table: &mut Table,
    out: &mut Vec<u8>,
) -> Result<Served, AllocError>
    requires trap { IsTrap (bank_of bank.old) trap.now }
    requires table { IsTableOf files.now table.old }
    ensures served { OnOk result ((record { bank = bank_of bank.new; table = open_files files.now table.new; printed = out.new.items })
        ≡ s.served files.now trap.now (record { bank = bank_of bank.old; table = open_files files.now table.old; printed = out.old.items })) }
    ensures way { IfOk result (λ way. way ≡ s.way_of trap.now.call) }
    ensures bank { OnErr result (bank_of bank.new ≡ bank_of bank.old) }
    ensures files { OnErr result (table.new ≡ table.old) }
    ensures printed { OnErr result (out.new.items ≡ out.old.items) }
    ensures memory { OnErr result (s.takes_memory trap.now.call ≡ true) }
    ensures fits { IsTableOf files.now table.new }
{
    let way = way_of(alloc, &trap.call)?;
    serve_call(alloc, trap, bank, files, table, out)?;
    Ok(way)
}
