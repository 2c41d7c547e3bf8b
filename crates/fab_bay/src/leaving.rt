//! What calls answer.

use fab_core::Entry;
use fab_core::shell::Why;
use fab_core::transit::Transit;
use vl_design::capacity::Cost;

/// A tenant that comes out, and why.
#[derive(Drop)]
pub struct Leaving {
    /// The tenant.
    pub transit: Transit,
    /// Why.
    pub why: Why,
}

/// A tenant is put in line.
#[derive(Clone, Copy, Debug, PartialEq, Eq, Drop)]
pub struct Receipt {
    /// What its note tells.
    pub entry: Entry,
    /// The number of notes before it.
    pub position: u64,
}

/// Why a tenant can't be put in line.
#[derive(Clone, Copy, Debug, PartialEq)]
pub enum DeskError {
    /// It takes more than the fabric has: what it takes, and what the fabric has.
    TooLarge(Cost, Cost),
    /// A tenant of its number is here.
    Doubled(u32),
    /// There is no memory.
    Memory,
}

/// A tenant that couldn't be put in line, and why.
#[derive(Drop)]
pub struct Refused {
    /// Why.
    pub why: DeskError,
    /// The tenant.
    pub transit: Transit,
}

/// What a turn did.
#[derive(Drop)]
pub struct Turn {
    /// What its notes tell, in order.
    pub entries: Vec<Entry>,
    /// The tenants that came out, in order.
    pub leaving: Vec<Leaving>,
    /// There was no tenant when it began.
    pub idle: bool,
    /// Memory ended it.
    pub short: bool,
}

/// What became of a tenant that was to be taken out.
#[derive(Drop)]
pub enum Found {
    /// Here it is.
    Here(Transit),
    /// There was none of its number.
    Absent,
    /// Memory ended the call: the tenant is where it was.
    Short,
}

/// What taking a tenant out did.
#[derive(Drop)]
pub struct Taken {
    /// What its notes tell, in order.
    pub entries: Vec<Entry>,
    /// What became of the tenant.
    pub found: Found,
}
