//! What holds of the operators' values, in the words of arithmetic. No function here does anything:
//! each `ensures` is a law.

ghost use Rattle.std.specs.Prelude.{◌≡◌, ◌≢◌, ℕ, ◌+◌, ◌-◌, ◌*◌, ◌/◌, ◌%◌, ◌^◌, ◌<◌, ◌≤◌, ◌↔◌, pos, ◌+ℤ◌, ◌-ℤ◌, ◌*ℤ◌, ◌<ℤ◌, ◌≤ℤ◌, int_rem, unsigned_abs, count_ones, min, max, IsTrue, true, false};
ghost use Rattle.std.specs.Int.{int_div_euclid};
ghost use Rattle.std.specs.Int.Digits.{number_from_digits};
ghost use Rattle.vl_base.specs.Display.{digits_by};
ghost use Rattle.vl_base.specs.declared.bits.UnOp.TheVariants.{Not, RedAnd, RedOr, RedXor, RedNand, RedNor, RedXnor};
ghost use Rattle.vl_base.specs.declared.bits.BinOp.TheVariants.{Add, Sub, Mul, Div, Rem, And, Or, Xor, Xnor, Shl, Shr, Sshr};
ghost use Rattle.vl_base.specs.Value.{reading, wrapped, resized, unary_value, unary_width, binary_value, binary_width, needs_one_width};
ghost use Rattle.vl_base.specs.Selects.{bit_of, picked, placed, appended};
ghost use Rattle.vl_base.specs.Places.{comes_before};

use crate::bits::{BinOp, Bits, UnOp};
use crate::place::Place;

/// Sums, differences and products are those of the whole numbers that the values stand for, modulo
/// 2^width, whether the values are signed or not.
pub fn sums_stand_for_sums(signed: bool, a: Bits, b: Bits)
    requires { a.width ≡ b.width }
    ensures sum { binary_value Add signed a.width a.value b.value
        ≡ wrapped a.width (reading signed a.width a.value +ℤ reading signed a.width b.value) }
    ensures difference { binary_value Sub signed a.width a.value b.value
        ≡ wrapped a.width (reading signed a.width a.value -ℤ reading signed a.width b.value) }
    ensures product { binary_value Mul signed a.width a.value b.value
        ≡ wrapped a.width (reading signed a.width a.value *ℤ reading signed a.width b.value) }
{}

/// A quotient times its divisor and the remainder are the first value. The remainder is nearer to 0
/// than the divisor, and has the first value's sign.
pub fn quotient_and_remainder(signed: bool, a: Bits, b: Bits)
    requires same { a.width ≡ b.width }
    requires nonzero { b.value ≢ 0 }
    ensures whole { binary_value Add signed a.width
        (binary_value Mul signed a.width (binary_value Div signed a.width a.value b.value) b.value)
        (binary_value Rem signed a.width a.value b.value) ≡ a.value }
    ensures less { unsigned_abs (reading signed a.width (binary_value Rem signed a.width a.value b.value))
        < unsigned_abs (reading signed a.width b.value) }
    ensures not_below { (pos 0 ≤ℤ reading signed a.width a.value)
        → (pos 0 ≤ℤ reading signed a.width (binary_value Rem signed a.width a.value b.value)) }
    ensures not_above { (reading signed a.width a.value ≤ℤ pos 0)
        → (reading signed a.width (binary_value Rem signed a.width a.value b.value) ≤ℤ pos 0) }
{}

/// A shift to the left multiplies by a power of 2, modulo 2^width; one to the right divides, rounding
/// down, and so does a signed one by sign.
pub fn shifts_multiply_and_divide(a: Bits, amount: u128)
    ensures left { binary_value Shl false a.width a.value amount ≡ a.value * 2 ^ amount % 2 ^ a.width }
    ensures right { binary_value Shr false a.width a.value amount ≡ a.value / 2 ^ amount }
    ensures by_sign { reading true a.width (binary_value Sshr true a.width a.value amount)
        ≡ int_div_euclid (reading true a.width a.value) (pos (2 ^ amount)) }
{}

/// A value in a wider width stands for the same number, and back in its own width it is the same value.
pub fn resize_there_and_back(signed: bool, back: bool, a: Bits, width: u8)
    requires { a.width ≤ width }
    ensures reading { reading signed width (resized signed a.width width a.value) ≡ reading signed a.width a.value }
    ensures value { resized back width a.width (resized signed a.width width a.value) ≡ a.value }
{}

/// Bit i of a select is the bit of number low + i, or 0 where there is none.
pub fn picked_bits(a: Bits, low: i64, width: u8, i: u8)
    requires { i < width }
    ensures { bit_of (picked a.width a.value low width) (pos i) ≡ bit_of a.value (low +ℤ pos i) }
{}

/// A bit of a value with a part written to it is the part's within the part, and else the value's.
pub fn placed_bits(a: Bits, low: i64, part: Bits, i: u8)
    requires { i < a.width }
    ensures below { (pos i <ℤ low)
        → bit_of (placed a.width a.value low part.width part.value) (pos i) ≡ bit_of a.value (pos i) }
    ensures inside { (low ≤ℤ pos i) → (pos i <ℤ (low +ℤ pos part.width))
        → bit_of (placed a.width a.value low part.width part.value) (pos i) ≡ bit_of part.value (pos i -ℤ low) }
    ensures above { ((low +ℤ pos part.width) ≤ℤ pos i)
        → bit_of (placed a.width a.value low part.width part.value) (pos i) ≡ bit_of a.value (pos i) }
{}

/// A part that was written inside a value is there.
pub fn placed_part_is_picked(a: Bits, low: i64, part: Bits)
    requires low { pos 0 ≤ℤ low }
    requires high { (low +ℤ pos part.width) ≤ℤ pos a.width }
    ensures { picked a.width (placed a.width a.value low part.width part.value) low part.width ≡ part.value }
{}

/// Two values side by side are there as parts.
pub fn appended_parts(high: Bits, low: Bits)
    ensures low { picked (high.width + low.width) (appended high.value low.width low.value) (pos 0) low.width ≡ low.value }
    ensures high { picked (high.width + low.width) (appended high.value low.width low.value) (pos low.width) high.width
        ≡ high.value }
{}

/// The reductions: & is 1 exactly where all bits are set, | where some bit is, and ^ is the parity of
/// the number of bits that are; the others are 1 where these are 0.
pub fn reductions(a: Bits)
    ensures all { (unary_value RedAnd a.width a.value ≡ 1) ↔ ((i : ℕ) → i < a.width → bit_of a.value (pos i) ≡ 1) }
    ensures some { (unary_value RedOr a.width a.value ≡ 1) ↔ ((i : ℕ) × (i < a.width) × (bit_of a.value (pos i) ≡ 1)) }
    ensures odd { unary_value RedXor a.width a.value ≡ count_ones a.value % 2 }
    ensures not_all { unary_value RedNand a.width a.value ≡ 1 - unary_value RedAnd a.width a.value }
    ensures none { unary_value RedNor a.width a.value ≡ 1 - unary_value RedOr a.width a.value }
    ensures even { unary_value RedXnor a.width a.value ≡ 1 - unary_value RedXor a.width a.value }
{}

/// A unary operator's value is below 2 to its width.
pub fn unary_values_fit(op: UnOp, a: Bits)
    ensures { unary_value op a.width a.value < 2 ^ unary_width op a.width }
{}

/// A binary operator's value is below 2 to its width.
pub fn binary_values_fit(op: BinOp, signed: bool, a: Bits, b: Bits)
    requires { IsTrue (needs_one_width op) → a.width ≡ b.width }
    ensures { binary_value op signed a.width a.value b.value < 2 ^ binary_width op a.width }
{}

/// Each bit of `&`, `|`, `^`, `~` and `~^` is that of the bits at its place.
pub fn bits_of_bits(a: Bits, b: Bits, i: u8)
    requires same { a.width ≡ b.width }
    requires within { i < a.width }
    ensures and { bit_of (binary_value And false a.width a.value b.value) (pos i)
        ≡ min (bit_of a.value (pos i)) (bit_of b.value (pos i)) }
    ensures or { bit_of (binary_value Or false a.width a.value b.value) (pos i)
        ≡ max (bit_of a.value (pos i)) (bit_of b.value (pos i)) }
    ensures exclusive_or { bit_of (binary_value Xor false a.width a.value b.value) (pos i)
        ≡ (bit_of a.value (pos i) + bit_of b.value (pos i)) % 2 }
    ensures not { bit_of (unary_value Not a.width a.value) (pos i) ≡ 1 - bit_of a.value (pos i) }
    ensures exclusive_nor { binary_value Xnor false a.width a.value b.value
        ≡ unary_value Not a.width (binary_value Xor false a.width a.value b.value) }
{}

/// The digits that are shown of a value, of 1, 3 and 4 bits each, are those of the value, and so are
/// its bytes.
pub fn digits_are_of_the_value(a: Bits)
    ensures binary { number_from_digits 2 (digits_by 1 a.width a.value) ≡ a.value }
    ensures octal { number_from_digits 8 (digits_by 3 a.width a.value) ≡ a.value }
    ensures hexadecimal { number_from_digits 16 (digits_by 4 a.width a.value) ≡ a.value }
    ensures bytes { number_from_digits 256 (digits_by 8 a.width a.value) ≡ a.value }
{}

/// Numbered faults at places come in one order: none comes before itself, of two at most one comes
/// before the other, two of which neither does are one fault, and what comes no earlier than one that
/// comes no earlier than a third comes no earlier than that.
pub fn faults_come_in_one_order(p: Place, m: u8, q: Place, n: u8, r: Place, k: u8)
    ensures not_itself { comes_before p m p m ≡ false }
    ensures one_way { comes_before p m q n ≡ true → comes_before q n p m ≡ false }
    ensures same_place { comes_before p m q n ≡ false → comes_before q n p m ≡ false → p ≡ q }
    ensures same_number { comes_before p m q n ≡ false → comes_before q n p m ≡ false → m ≡ n }
    ensures chain { comes_before p m q n ≡ false → comes_before q n r k ≡ false → comes_before p m r k ≡ false }
{}
