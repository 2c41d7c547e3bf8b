//! A table with the files that it is of.

ghost use Rattle.ten_files.specs.Tables.{IsTableOf};

use std::alloc::Global;
use ten_files::table::Table;
use vl_base::files::FileSet;

/// A set of files, and a table of open ones.
#[derive(Drop)]
pub struct Held {
    /// The files.
    pub files: FileSet,
    /// The table.
    pub table: Table,
    ghost fits: { IsTableOf files table },
}

impl Held {
    /// No files.
    pub fn new(alloc: Global) -> Held {
        Held {
            files: FileSet::new(alloc),
            table: Table::new(),
        }
    }
}
