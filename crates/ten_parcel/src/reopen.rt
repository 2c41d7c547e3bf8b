//! The table of a machine's open files (IEEE 1364-2005, clause 17.2.1).

ghost use Rattle.std.specs.Prelude.{◌≡◌};
ghost use Rattle.vl_eval.specs.vl_base.specs.Files as f;
ghost use Rattle.vl_eval.specs.vl_design.specs.Laws.{IsOpenIn, IsTable};
ghost use Rattle.vl_run.specs.ten_files.specs.Tables.{open_files, IsTableOf};

use vl_eval::files::{FileSet, OpenFile};
use vl_run::Table;

/// Opens a file of the set as it is open elsewhere.
fn reopen(files: &FileSet, table: &mut Table, file: &OpenFile)
    requires there { IsOpenIn files.now file.now }
    requires fits { IsTableOf files.now table.old }
    ensures table { open_files files.now table.new ≡ f.with_file file.now (f.closed (open_files files.now table.old) (f.descriptor file.now.slot)) }
    ensures fits { IsTableOf files.now table.new }
{
    match files.number(&file.name) {
        None => unreachable!(),
        Some(number) => table.set_row(files, file.slot, number, file.place, file.ended),
    }
}

/// The table of these open files, which stand in the order of their slots.
pub(crate) fn open_table(files: &FileSet, list: &[OpenFile]) -> Table
    requires { IsTable files.now list.now }
    ensures table { open_files files.now result ≡ list.now }
    ensures fits { IsTableOf files.now result }
{
    let mut table = Table::new();
    for file in list {
        reopen(files, &mut table, file);
    }
    table
}
