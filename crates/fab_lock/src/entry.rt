//! What every note of a history has.

/// What a note tells of its tenant.
#[derive(Debug, Clone, Copy, PartialEq, Eq, Drop)]
pub enum Kind {
    /// It was put in line at tick `from`.
    Line,
    /// It became resident at tick `from`.
    Came,
    /// It ran the ticks after `from` up to `to`.
    Ran,
    /// It was saved at tick `from`.
    Saved,
    /// It left at tick `from`.
    Left,
}

/// A note of a history. `to` is `from` but for `Ran`.
#[derive(Debug, Clone, Copy, PartialEq, Eq, Drop)]
pub struct Entry {
    /// The number of the seat whose call wrote it.
    pub seat: u32,
    pub kind: Kind,
    /// The number of the tenant.
    pub tenant: u32,
    /// The tick at which it begins.
    pub from: u64,
    /// The tick to which it goes.
    pub to: u64,
}
