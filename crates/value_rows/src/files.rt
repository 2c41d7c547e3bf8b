//! Rows of calls on one table of open files after another. A row `folder` is a call on the real files of the folder in which the
//! program runs.

mod call;
mod folder;
pub mod held;

use fab_io::dir_store::DirStore;
use held::Held;
use std::alloc::{AllocError, Global};
use std::rt::Files;

/// A row and the answer to its call.
pub fn answer<R: Files>(
    alloc: Global,
    held: &mut Held,
    store: &mut DirStore<R>,
    row: &str,
) -> Result<String, AllocError> {
    match row.strip_prefix("folder ") {
        Some(call) => folder::answer(alloc, store, row, call),
        None => call::answer(alloc, held, row),
    }
}
