//! Fields: each reader takes the bytes that are left, and gives a value and the bytes behind it.

ghost use Rattle.std.specs.Prelude.{◌≡◌, ◌<◌, ◌≤◌, ◌*◌, ◌^◌, length, IfOk};
ghost use Rattle.std.specs.Int.Digits.{number_from_digits};
ghost use Rattle.snap_form.specs.Reading as r;

use crate::fault::{ReadError, bad};

/// The number of at most 16 bytes, the highest first.
fn number_of(bytes: &[u8]) -> u128
    requires { length bytes.now ≤ 16 }
    ensures value { result ≡ number_from_digits 256 bytes.now }
    ensures below { result < 2 ^ (8 * length bytes.now) }
{
    let mut value = 0;
    for b in bytes {
        value = value * 256 + u128::from(*b);
    }
    value
}

/// A field of n bytes.
pub(crate) fn field(n: usize, left: &[u8]) -> Result<(&[u8], &[u8]), ReadError>
    ensures gives { r.Gives (λ x. (x.0.now, x.1.now)) result (r.field n left.now) }
    ensures length { IfOk result (λ x. length x.0.now ≡ n) }
{
    if left.len() < n {
        return Err(bad(3, &[]));
    }
    Ok(left.split_at(n))
}

/// A number in n bytes, at most 16.
#[tactic(auto, unfolding(crate::specs::Reading::number))]
pub(crate) fn number(n: usize, left: &[u8]) -> Result<(u128, &[u8]), ReadError>
    requires { n ≤ 16 }
    ensures gives { r.Gives (λ x. (x.0, x.1.now)) result (r.number n left.now) }
    ensures below { IfOk result (λ x. x.0 < 2 ^ (8 * n)) }
{
    let (bytes, rest) = field(n, left)?;
    Ok((number_of(bytes), rest))
}

/// A field that has to be this number in n bytes, at most 16; another is a fault of the kind.
#[tactic(auto, unfolding(crate::specs::Reading::number_if, crate::specs::Reading::same_number))]
pub(crate) fn same_number(value: u128, kind: u8, n: usize, left: &[u8]) -> Result<&[u8], ReadError>
    requires { n ≤ 16 }
    ensures { r.Gives (λ x. x.now) result (r.same_number value kind n left.now) }
{
    let (number, rest) = number(n, left)?;
    if number != value {
        return Err(bad(kind, left));
    }
    Ok(rest)
}

/// A field that has to be these bytes; others are a fault of the kind.
#[tactic(auto, unfolding(crate::specs::Reading::same_bytes))]
pub(crate) fn same_bytes<'a>(value: &[u8], kind: u8, left: &'a [u8]) -> Result<&'a [u8], ReadError>
    ensures { r.Gives (λ x. x.now) result (r.same_bytes value.now kind left.now) }
{
    let (bytes, rest) = field(value.len(), left)?;
    if bytes != value {
        return Err(bad(kind, left));
    }
    Ok(rest)
}
