//! What a script declares.

use crate::statement::Capacity;
use ten_plan::plan::Errand;
use ten_plan::{Items, Text};
use thiserror::Error;

/// A fabric.
#[derive(Drop)]
pub struct FabricLine {
    /// Its name.
    pub name: Text,
    /// What it has room for.
    pub capacity: Capacity,
}

/// A file of a tenant.
#[derive(Drop)]
pub struct FileLine {
    /// Its name in the source.
    pub name: Text,
    /// Its path.
    pub path: Text,
}

/// A tenant. Fabrics are numbered from 0 in the order of the script.
#[derive(Drop)]
pub struct TenantLine {
    /// Its name.
    pub name: Text,
    /// The path of its source.
    pub source: Text,
    /// The number of its fabric.
    pub fabric: u32,
    /// Its budget in ticks, at most 1,000,000,000.
    pub budget: u64,
    /// Its files, in the order of the script.
    pub files: Items<FileLine>,
    /// The path of the snapshot from which it starts.
    pub resume: Option<Text>,
    /// Its errands by ticks; at one tick the saves come first, in the order of the script, and then
    /// at most one other.
    pub errands: Items<Errand>,
}

/// A free order, done when the operator comes to it. Tenants are numbered from 0 in the order of the script.
#[derive(Drop)]
pub enum Free {
    /// The tenant of this number is to move to the fabric of this number.
    Move(u32, u32),
    /// The tenant is to stop.
    Stop(u32),
    /// A snapshot of the tenant of this name.
    Save(u32, Text),
    /// The operator looks how far the tenant is.
    Watch(u32),
}

/// A script: 1 to 8 fabrics, 1 to 64 tenants, each with at most 16 files and 256 errands, and at
/// most 256 free orders, all in the order of their lines.
#[derive(Drop)]
pub struct Script {
    /// The fabrics.
    pub fabrics: Items<FabricLine>,
    /// The tenants.
    pub tenants: Items<TenantLine>,
    /// The free orders.
    pub free: Items<Free>,
}

/// Why a script was not read.
#[derive(Debug, Drop, Error)]
pub enum ScriptError {
    /// The first line that has a cause, from 1, and the least of its causes, 1 to 9.
    #[error("script {0} {1}")]
    At(u64, u8),
    /// Want of memory.
    #[error("out of memory")]
    Memory,
}
