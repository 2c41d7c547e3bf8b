//! The whole numbers of constants (IEEE 1364-2005, clause 4.1.3).

ghost use Rattle.std.specs.Prelude.{◌≡◌, ◌≤◌, ◌-◌, ◌^◌, pos, int_le, unsigned_abs};
ghost use Rattle.vl_base.specs.Value as v;
ghost use Rattle.elab_plain.specs.vl_flat.specs.Constants.{is_within, lowest, highest, nearest};
ghost use Rattle.elab_plain.specs.vl_flat.specs.Scopes.{plainly};
ghost use Rattle.elab_plain.specs.vl_flat.specs.Expressions as flat;
ghost use Rattle.elab_plain.specs.vl_flat.specs.Constants as constants;
ghost use Rattle.elab_plain.specs.Seen.{seen};
ghost use Rattle.elab_constant.specs.Seen.{seen_scope};
ghost use Rattle.elab_constant.specs.Wholes.{whole_of};

use crate::constant::{constant_form, evaluate, is_constant};
use crate::scope::Scope;
use elab_plain::surface::Ex;
use vl_base::bits::{Bits, resize};
use vl_eval::form_form::assigned;

/// A whole number by its size and its sign.
#[derive(Clone, Copy)]
pub struct Whole {
    /// It is below 0, or 0.
    pub negative: bool,
    /// Its size.
    pub size: u128,
}

/// The whole number that a value stands for: in two's complement where it is signed.
#[tactic(auto, using(crate::proofs::Wholes::halves))]
fn whole_number(bits: Bits, signed: bool) -> Whole
    ensures { whole_of result ≡ v.reading signed bits.width bits.value }
{
    let half = 1 << (bits.width - 1);
    if signed && bits.value >= half {
        Whole {
            negative: true,
            size: half - (bits.value - half),
        }
    } else {
        Whole {
            negative: false,
            size: bits.value,
        }
    }
}

/// The whole number of a constant read for itself; what is none counts as 0.
#[tactic(auto, using(crate::proofs::Wholes::readings))]
fn reading(scope: &Scope<'_, '_>, e: &Ex) -> Whole
    ensures same { whole_of result ≡ constants.constant_reading (flat.constant (seen_scope scope.now) (seen e.now)) }
    ensures plain { whole_of result ≡ constants.constant_reading (flat.constant (plainly (seen_scope scope.now).names) (seen e.now)) }
{
    if is_constant(scope, e) {
        let form = constant_form(scope, e);
        whole_number(evaluate(scope, e, form), form.signed)
    } else {
        Whole {
            negative: false,
            size: 0,
        }
    }
}

/// A whole number is one from -2^31 to 2^31 - 1.
#[tactic(auto, using(crate::proofs::Wholes::wholes))]
fn fits_bound(w: Whole) -> bool
    ensures { result ≡ is_within lowest highest (whole_of w) }
{
    if w.negative {
        w.size <= 2147483648
    } else {
        w.size < 2147483648
    }
}

/// A whole number is one from 1 to 128.
#[tactic(auto, using(crate::proofs::Wholes::wholes))]
fn fits_count(w: Whole) -> bool
    ensures { result ≡ is_within (pos 1) (pos 128) (whole_of w) }
{
    !w.negative && 1 <= w.size && w.size <= 128
}

/// A whole number is at least 1.
#[tactic(auto, using(crate::proofs::Wholes::wholes))]
fn fits_width(w: Whole) -> bool
    ensures { result ≡ int_le (pos 1) (whole_of w) }
{
    !w.negative && 1 <= w.size
}

/// A whole number kept within 32 bits.
#[tactic(auto, using(crate::proofs::Wholes::wholes))]
fn clamped(w: Whole) -> i32
    ensures { result ≡ constants.clamped (whole_of w) }
{
    if w.negative {
        if w.size < 2147483648 {
            0 - w.size as i32
        } else {
            -2147483648
        }
    } else if w.size < 2147483648 {
        w.size as i32
    } else {
        2147483647
    }
}

/// A whole number, or the nearest one from 1 to 129.
#[tactic(auto, using(crate::proofs::Wholes::wholes))]
fn counted(w: Whole) -> u8
    ensures same { result ≡ unsigned_abs (nearest (pos 1) (pos 129) (whole_of w)) }
    ensures wide { 1 ≤ result }
    ensures narrow { result ≤ 129 }
{
    if w.negative || w.size < 1 {
        1
    } else if w.size < 129 {
        w.size as u8
    } else {
        129
    }
}

/// How often `repeat` does its body.
#[tactic(auto, using(crate::proofs::Wholes::wholes))]
fn turned(w: Whole) -> u32
    ensures { result ≡ unsigned_abs (nearest (pos 0) (pos (2 ^ 32 - 1)) (whole_of w)) }
{
    if w.negative {
        0
    } else if w.size < 4294967296 {
        w.size as u32
    } else {
        4294967295
    }
}

/// The expression is a constant from -2^31 to 2^31 - 1.
pub fn is_bound(scope: &Scope<'_, '_>, e: &Ex) -> bool
    ensures { result ≡ constants.is_bound (flat.constant (seen_scope scope.now) (seen e.now)) }
{
    fits_bound(reading(scope, e))
}

/// The expression is a constant from 1 to 128.
pub fn is_count(scope: &Scope<'_, '_>, e: &Ex) -> bool
    ensures { result ≡ constants.is_count (flat.constant (seen_scope scope.now) (seen e.now)) }
{
    fits_count(reading(scope, e))
}

/// The expression is a constant of at least 1.
pub fn is_width(scope: &Scope<'_, '_>, e: &Ex) -> bool
    ensures { result ≡ constants.is_width (flat.constant (seen_scope scope.now) (seen e.now)) }
{
    fits_width(reading(scope, e))
}

/// The bound of a range, kept within 32 bits; what is no constant counts as 0.
pub fn bound(scope: &Scope<'_, '_>, e: &Ex) -> i32
    ensures same { result ≡ constants.bound_of (flat.constant (seen_scope scope.now) (seen e.now)) }
    ensures plain { result ≡ constants.bound_of (flat.constant (plainly (seen_scope scope.now).names) (seen e.now)) }
{
    clamped(reading(scope, e))
}

/// The count of a replication, or the width behind `+:` or `-:`: the nearest number from 1 to 129.
pub fn count(scope: &Scope<'_, '_>, e: &Ex) -> u8
    ensures same { result ≡ constants.count_of (flat.constant (seen_scope scope.now) (seen e.now)) }
    ensures wide { 1 ≤ result }
    ensures narrow { result ≤ 129 }
{
    counted(reading(scope, e))
}

/// How often `repeat` with this count does its body.
pub fn repeats(scope: &Scope<'_, '_>, e: &Ex) -> u32
    ensures { result ≡ constants.turns_of (flat.constant (seen_scope scope.now) (seen e.now)) }
{
    turned(reading(scope, e))
}

/// A value and its sign.
#[derive(Clone, Copy)]
pub struct Own {
    /// The value and its width.
    pub bits: Bits,
    /// It is signed.
    pub signed: bool,
}

/// A constant read for itself; what is none counts as one zero bit.
#[tactic(auto, using(crate::proofs::Wholes::readings))]
pub fn own_value(scope: &Scope<'_, '_>, e: &Ex) -> Own
    ensures value { result.bits.value ≡ constants.constant_value (flat.constant (plainly (seen_scope scope.now).names) (seen e.now)) }
    ensures width { result.bits.width ≡ (constants.constant_form (flat.constant (plainly (seen_scope scope.now).names) (seen e.now))).width }
    ensures signed { result.signed ≡ (constants.constant_form (flat.constant (plainly (seen_scope scope.now).names) (seen e.now))).signed }
{
    if is_constant(scope, e) {
        let form = constant_form(scope, e);
        Own {
            bits: evaluate(scope, e, form),
            signed: form.signed,
        }
    } else {
        Own {
            bits: Bits { value: 0, width: 1 },
            signed: false,
        }
    }
}

/// A constant as assigned to so many bits.
#[tactic(auto, using(crate::proofs::Wholes::readings))]
pub fn assigned_value(scope: &Scope<'_, '_>, e: &Ex, width: u8) -> Bits
    requires wide { 1 ≤ width }
    requires narrow { width ≤ 128 }
    ensures value { result.value ≡ constants.assigned_value (flat.constant (plainly (seen_scope scope.now).names) (seen e.now)) width }
    ensures width { result.width ≡ width }
{
    if !is_constant(scope, e) {
        return Bits { value: 0, width };
    }
    let form = constant_form(scope, e);
    let context = assigned(u32::from(width), form);
    resize(evaluate(scope, e, context), false, width)
}
