//! Why a source is refused.

use vl_accept::Nums;
use vl_elab::Place;

/// The kind of a refusal.
#[derive(Drop)]
pub enum Kind {
    /// A lexical fault, by its cause.
    Lex(u8),
    /// A syntax fault.
    Parse,
    /// A construct that isn't of the subset, or isn't used so, by its number.
    Construct(u8),
    /// A limit that is passed, by its number.
    Limit(u8),
    /// A combinational loop, of the lowest process that lies on one: the numbers of its processes, that one first. Each drives a bit that the next reads,
    /// and the last one a bit that the first reads.
    Loop(Nums),
}

/// Why nothing is built.
#[derive(Drop)]
pub enum BuildError {
    /// The source is refused at a place, for a reason of a kind.
    Refused(Place, Kind),
    /// Want of memory.
    Memory,
}
