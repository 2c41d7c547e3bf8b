//! What a run has at a boundary.

ghost use Rattle.std.specs.Prelude.{◌≡◌, ◌<◌, ◌++◌, [], ◌∷◌, length, slice_get, Some, Option, IfOk, OnOk};
ghost use Rattle.trap_runtime.specs.cell_form.specs.Views.{bank_of};
ghost use Rattle.reg_ports.specs.Ports.{captured, IsMap};
ghost use Rattle.ten_files.specs.declared.row.Row.{Row};
ghost use Rattle.ten_files.specs.Tables.{open_files, open_from, open_row, row_of, IsTableOf};

use reg_ports::capture::capture;
use std::alloc::{AllocError, Global};
use ten_files::name::copy_text;
use ten_files::table::Table;
use ten_plan::held::Held;
use trap_runtime::{Bank, PortMap};
use vl_design::Items;
use vl_design::files::{FileSet, OpenFile};

/// A slot's file, with a copy of its name.
fn open_file(
    alloc: Global,
    files: &FileSet,
    slot: u8,
    told: (u32, u64, bool),
) -> Result<OpenFile, AllocError>
    requires { told.0 < length files.now }
    ensures { IfOk result (λ f. f ≡ open_row files.now slot (row_of told)) }
{
    let name = copy_text(alloc, files.name(told.0))?;
    Ok(OpenFile {
        slot,
        name,
        place: told.1,
        ended: told.2,
    })
}

/// Adds the file of a slot, where it is open.
fn add_file(
    alloc: Global,
    files: &FileSet,
    table: &Table,
    slot: u8,
    all: &mut Vec<OpenFile>,
) -> Result<(), AllocError>
    requires slot { slot < 16 }
    requires files { IsTableOf files.now table.now }
    ensures slots { length table.now ≡ 16 }
    ensures added { OnOk result ((row : Option Row) → slice_get table.now slot ≡ Some row → all.new.items ≡ all.old.items ++ open_from files.now slot (row ∷ [])) }
{
    match table.row(slot) {
        None => Ok(()),
        Some(told) => {
            all.push(open_file(alloc, files, slot, told)?)?;
            Ok(())
        }
    }
}

/// The files that are open, in the order of their slots.
fn all_open(alloc: Global, files: &FileSet, table: &Table) -> Result<Items<OpenFile>, AllocError>
    requires { IsTableOf files.now table.now }
    ensures { IfOk result (λ all. all ≡ open_files files.now table.now) }
{
    let mut all = Vec::new(alloc);
    for slot in 0..16 {
        add_file(alloc, files, table, slot, &mut all)?;
    }
    Ok(Items::from_vec(all))
}

/// What a run has, whose variables and memories are the ports of this bank, with these files open, behind so many ticks.
pub fn hold(
    alloc: Global,
    ports: &PortMap,
    bank: &Bank,
    files: &FileSet,
    table: &Table,
    tick: u64,
) -> Result<Held, AllocError>
    requires ports { IsMap ports.now.ports (bank_of bank.now) }
    requires files { IsTableOf files.now table.now }
    ensures tick { IfOk result (λ h. h.tick ≡ tick) }
    ensures words { IfOk result (λ h. h.words ≡ captured ports.now.ports (bank_of bank.now)) }
    ensures files { IfOk result (λ h. h.files ≡ open_files files.now table.now) }
{
    let words = capture(alloc, bank, ports)?;
    let files = all_open(alloc, files, table)?;
    Ok(Held { tick, words, files })
}
