//! Strings as operands (IEEE 1364-2005, clause 5.2.3).

ghost use Rattle.std.specs.Prelude.{◌≡◌, ◌≤◌, ◌<◌, ◌*◌, ◌^◌, length};
ghost use Rattle.std.specs.Int.Digits.{number_from_digits};
ghost use Rattle.vl_design.specs.Formats as f;
ghost use Rattle.vl_design.specs.Sound.{IsWidth};

use vl_design::Bits;

/// The number of at most 16 bytes, the first at the top.
#[tactic(auto, using(crate::proofs::Bytes::bytes))]
pub fn number(text: &[u8]) -> u128
    requires { length text.now ≤ 16 }
    ensures value { result ≡ number_from_digits 256 text.now }
    ensures below { result < 2 ^ (8 * length text.now) }
{
    let mut value = 0;
    for b in text {
        value = value * 256 + u128::from(*b);
    }
    value
}

/// A string of at most 16 bytes as an operand: 8 bits for each byte, the first at the top; the empty one is one zero byte.
#[tactic(auto, using(crate::proofs::Bytes::bytes))]
pub fn text_bits(text: &[u8]) -> Bits
    requires { IsWidth (f.text_width text.now) }
    ensures value { result.value ≡ f.text_number text.now }
    ensures width { result.width ≡ f.text_width text.now }
{
    if text.is_empty() {
        return Bits { value: 0, width: 8 };
    }
    Bits {
        value: number(text),
        width: 8 * text.len() as u8,
    }
}
