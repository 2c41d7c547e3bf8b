//! Sums and products that stop at the greatest number of 64 bits.

ghost use Rattle.std.specs.Prelude.{◌≡◌, ◌+◌, ◌*◌, slice_index};
ghost use Rattle.vl_design.specs.Costs.{saturated};

/// A sum.
pub(crate) fn plus(a: u64, b: u64) -> u64
    ensures { result ≡ saturated (a + b) }
{
    a.saturating_add(b)
}

/// A product.
pub(crate) fn times(a: u64, b: u64) -> u64
    ensures { result ≡ saturated (a * b) }
{
    a.saturating_mul(b)
}

/// What the body of a function counts; 0 where there is none.
pub(crate) fn body_at(bodies: &[u64], function: u32) -> u64
    ensures { result ≡ slice_index bodies.now function }
{
    let index = function as usize;
    if index < bodies.len() {
        bodies[index]
    } else {
        0
    }
}
