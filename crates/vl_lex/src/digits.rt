//! Digits and what they are worth.

ghost use Rattle.std.specs.Prelude.{◌≡◌, ◌≤◌, ◌<◌, ◌%◌, ◌^◌, min, IfSome};
ghost use Rattle.std.specs.List.{list_any};
ghost use Rattle.vl_tree.specs.Bytes.{is_between as is_between_lem};
ghost use Rattle.vl_tree.specs.Numbers.{is_hex as is_hex_lem, is_x as is_x_lem, is_z as is_z_lem, digit_value as digit_value_lem, is_digit as is_digit_lem, is_first_digit as is_first_digit_lem, is_further_digit as is_further_digit_lem, value_of as value_of_lem, z_bits as z_bits_lem, leading_z as leading_z_lem, radix_of as radix_of_lem, is_sign as is_sign_lem};

fn is_between(low: u8, high: u8, byte: u8) -> bool
    ensures { result ≡ is_between_lem low high byte }
{
    low <= byte && byte <= high
}

#[tactic(auto, unfolding(vl_tree::specs::Numbers::is_hex))]
fn is_hex(byte: u8) -> bool
    ensures { result ≡ is_hex_lem byte }
{
    is_between(48, 57, byte) || is_between(97, 102, byte) || is_between(65, 70, byte)
}

#[tactic(auto, unfolding(vl_tree::specs::Numbers::is_x))]
fn is_x(byte: u8) -> bool
    ensures { result ≡ is_x_lem byte }
{
    byte == 120 || byte == 88
}

#[tactic(auto, unfolding(vl_tree::specs::Numbers::is_z))]
fn is_z(byte: u8) -> bool
    ensures { result ≡ is_z_lem byte }
{
    byte == 122 || byte == 90 || byte == 63
}

/// What a digit is worth; 0 for x and z.
#[tactic(auto, unfolding(vl_tree::specs::Numbers::digit_value))]
fn digit_value(byte: u8) -> u8
    ensures value { result ≡ digit_value_lem byte }
    ensures small { result < 16 }
{
    if is_between(48, 57, byte) {
        byte - 48
    } else if is_between(97, 102, byte) {
        byte - 87
    } else if is_between(65, 70, byte) {
        byte - 55
    } else {
        0
    }
}

#[tactic(auto, unfolding(vl_tree::specs::Numbers::is_digit))]
fn is_digit(radix: u8, byte: u8) -> bool
    ensures { result ≡ is_digit_lem radix byte }
{
    is_hex(byte) && digit_value(byte) < radix
}

/// A byte may be the first digit.
#[tactic(auto, unfolding(vl_tree::specs::Numbers::is_first_digit))]
pub fn is_first_digit(radix: u8, byte: u8) -> bool
    ensures { result ≡ is_first_digit_lem radix byte }
{
    is_digit(radix, byte) || is_x(byte) || is_z(byte)
}

/// A byte may stand behind the first digit.
#[tactic(auto, unfolding(vl_tree::specs::Numbers::is_further_digit))]
pub fn is_further_digit(radix: u8, first: u8, byte: u8) -> bool
    ensures { result ≡ is_further_digit_lem radix first byte }
{
    if radix == 10 {
        is_digit(10, first) && (is_digit(10, byte) || byte == 95)
    } else {
        is_digit(radix, byte) || byte == 95 || is_x(byte) || is_z(byte)
    }
}

/// Some digit is x.
pub fn has_x(digits: &[u8]) -> bool
    ensures { result ≡ list_any is_x_lem digits.now }
{
    digits.iter().any(|byte| is_x(*byte))
}

/// Some digit is z.
pub fn has_z(digits: &[u8]) -> bool
    ensures { result ≡ list_any is_z_lem digits.now }
{
    digits.iter().any(|byte| is_z(*byte))
}

/// The number that digits spell, or 2^32 where it is greater.
#[tactic(auto, using(crate::proofs::Values::capped_more, crate::proofs::Values::value_same, crate::proofs::Values::value_all, crate::proofs::Values::value_none, crate::proofs::Values::small_product))]
pub fn capped_value(radix: u8, digits: &[u8]) -> u64
    requires { 1 ≤ radix }
    ensures { result ≡ min (value_of_lem radix digits.now) (2 ^ 32) }
{
    let mut value: u64 = 0;
    for byte in digits {
        if *byte != 95 {
            value = (value * u64::from(radix) + u64::from(digit_value(*byte))).min(1 << 32);
        }
    }
    value
}

/// The low 128 bits of the number that digits spell.
#[tactic(auto, using(crate::proofs::Values::wrapped_more, crate::proofs::Values::value_same, crate::proofs::Values::value_all, crate::proofs::Values::value_none))]
pub fn wrapped_value(radix: u8, digits: &[u8]) -> u128
    ensures { result ≡ value_of_lem radix digits.now % 2 ^ 128 }
{
    let mut value: u128 = 0;
    for byte in digits {
        if *byte != 95 {
            value = value
                .wrapping_mul(u128::from(radix))
                .wrapping_add(u128::from(digit_value(*byte)));
        }
    }
    value
}

/// The low 128 bits of the bits that z digits give.
#[tactic(auto, using(crate::proofs::Values::z_wrapped, crate::proofs::Values::no_z_wrapped, crate::proofs::Values::z_same, crate::proofs::Values::z_all))]
pub fn wrapped_z(radix: u8, digits: &[u8]) -> u128
    requires { 1 ≤ radix }
    ensures { result ≡ z_bits_lem radix digits.now % 2 ^ 128 }
{
    let mut bits: u128 = leading_z(digits);
    for byte in digits {
        if *byte != 95 {
            let more = if is_z(*byte) {
                u128::from(radix - 1)
            } else {
                0
            };
            bits = bits.wrapping_mul(u128::from(radix)).wrapping_add(more);
        }
    }
    bits
}

fn leading_z(digits: &[u8]) -> u128
    ensures { result ≡ leading_z_lem digits.now }
{
    match digits.split_first() {
        None => 0,
        Some((first, _)) => { if is_z(*first) { u128::MAX } else { 0 } }
    }
}

/// The base that a letter names.
#[tactic(auto, unfolding(vl_tree::specs::Numbers::radix_of))]
pub fn radix_of(byte: u8) -> Option<u8>
    ensures value { result ≡ radix_of_lem byte }
    ensures positive { IfSome result (λ radix. 1 ≤ radix) }
{
    if byte == 98 || byte == 66 {
        Some(2)
    } else if byte == 111 || byte == 79 {
        Some(8)
    } else if byte == 100 || byte == 68 {
        Some(10)
    } else if byte == 104 || byte == 72 {
        Some(16)
    } else {
        None
    }
}

#[tactic(auto, unfolding(vl_tree::specs::Numbers::is_sign))]
pub fn is_sign(byte: u8) -> bool
    ensures { result ≡ is_sign_lem byte }
{
    byte == 115 || byte == 83
}
