//! What was read of a tenant, and why not all was read.

use host_form::store::ReadError;
use ten_core::Text;
use ten_core::files::FileSet;

/// What was read of a tenant.
#[derive(Drop)]
pub struct Loaded {
    /// The bytes of its source.
    pub source: Vec<u8>,
    /// Its files, under their names in the source.
    pub files: FileSet,
    /// The bytes of the snapshot from which it is resumed.
    pub snapshot: Option<Vec<u8>>,
}

/// Why not all was read.
#[derive(Drop)]
pub enum LoadError {
    /// The file of this path was not read, for this. Want of memory is none of its causes.
    Unread(Text, ReadError),
    /// Want of memory.
    Memory,
}
