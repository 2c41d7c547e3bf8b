//! Places in a source text, and which of two faults comes first.

ghost use Rattle.std.specs.Prelude.{◌≡◌};
ghost use Rattle.vl_base.specs.Places as spec;

/// A place in a source text: line and column from 1, the column in bytes.
#[derive(Clone, Copy, Debug, PartialEq, Eq)]
pub struct Place {
    /// The line, from 1.
    pub line: u32,
    /// The column in bytes, from 1.
    pub column: u32,
}

/// Whether the fault of number m at the place p comes before that of number n at q: the least place comes first, then the
/// least number.
pub fn comes_before(p: Place, m: u8, q: Place, n: u8) -> bool
    ensures { result ≡ spec.comes_before p m q n }
{
    if p.line != q.line {
        return p.line < q.line;
    }
    if p.column != q.column {
        return p.column < q.column;
    }
    m < n
}
