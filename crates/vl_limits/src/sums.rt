//! Sums that stop at a cap, so that what runs away takes no time.

ghost use Rattle.std.specs.Prelude.{◌≡◌, ◌+◌, ◌*◌, min, slice_index};

/// What counts, and where counting stops.
#[derive(Clone, Copy)]
pub(crate) struct Tally<'a> {
    /// The number at which counting stops.
    pub(crate) cap: u32,
    /// What a statement counts.
    pub(crate) statement: u32,
    /// What a loop of more turns than are allowed counts.
    pub(crate) endless: u32,
    /// What a node of an expression counts.
    pub(crate) node: u32,
    /// What the body of each function counts.
    pub(crate) bodies: &'a [u32],
}

/// A sum, the cap at most.
pub(crate) fn plus(cap: u32, sum: u32, n: u32) -> u32
    ensures { result ≡ min cap (sum + n) }
{
    sum.saturating_add(n).min(cap)
}

/// A product, the cap at most.
pub(crate) fn times(cap: u32, n: u32, sum: u32) -> u32
    ensures { result ≡ min cap (n * sum) }
{
    n.saturating_mul(sum).min(cap)
}

/// An entry of a table; 0 where it has none.
pub(crate) fn entry(table: &[u32], index: usize) -> u32
    ensures { result ≡ slice_index table.now index }
{
    if index < table.len() { table[index] } else { 0 }
}

/// What the body of a function counts.
pub(crate) fn body_at(tally: &Tally<'_>, function: u32) -> u32
    ensures { result ≡ slice_index tally.now.bodies.now function }
{
    entry(tally.bodies, function as usize)
}
