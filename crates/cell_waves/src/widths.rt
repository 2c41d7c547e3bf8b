//! Widths of signals.

ghost use Rattle.std.specs.Prelude.{◌≡◌, false, true, IfSome, None, Some};
ghost use Rattle.ten_form.specs.vl_design.specs.Rows as rows;
ghost use Rattle.ten_form.specs.vl_design.specs.Sound.{IsWidth, HasValue};
ghost use Rattle.ten_form.specs.vl_design.specs.Trees.{row_of};
ghost use Rattle.ten_form.specs.vl_runs.specs.Computed as c;
ghost use Rattle.cell_emit.specs.vl_sites.specs.Others.{is_other};

use crate::begin_begin::is_computed;
use ten_form::design::{SigKind, Signal};

/// The width of a signal's words in bits, where it is from 1 to 128.
fn width_of(signal: &Signal) -> Option<u8>
    ensures there { IsWidth (row_of signal.now).width → result ≡ Some (row_of signal.now).width }
    ensures within { IfSome result (λ w. (w ≡ (row_of signal.now).width) × IsWidth w) }
{
    match u8::try_from(signal.left.abs_diff(signal.right)) {
        Ok(distance) if distance < 128 => Some(distance + 1),
        _ => None,
    }
}

/// Whether a signal's words have a width from 1 to 128 bits.
pub fn has_width(signal: &Signal) -> bool
    ensures { result ≡ rows.has_width (row_of signal.now).width }
{
    width_of(signal).is_some()
}

/// The width of a signal's value in bits: none of a memory, and none where it isn't from 1 to 128.
fn value_width(signal: &Signal) -> Option<u8>
    ensures there { HasValue (row_of signal.now).kind → IsWidth (row_of signal.now).width → result ≡ Some (row_of signal.now).width }
    ensures within { IfSome result (λ w. (w ≡ (row_of signal.now).width) × IsWidth w × HasValue (row_of signal.now).kind) }
{
    match signal.kind {
        SigKind::Mem => None,
        _ => width_of(signal),
    }
}

/// The width of a value that is read in bits: none of a memory, a loop variable or a clock, and none where it isn't from 1 to 128.
pub(crate) fn read_width(signal: &Signal) -> Option<u8>
    ensures there { HasValue (row_of signal.now).kind → is_other (row_of signal.now).kind ≡ false → IsWidth (row_of signal.now).width → result ≡ Some (row_of signal.now).width }
    ensures others { is_other (row_of signal.now).kind ≡ true → result ≡ None }
    ensures within { IfSome result (λ w. (w ≡ (row_of signal.now).width) × IsWidth w × HasValue (row_of signal.now).kind) }
{
    match signal.kind {
        SigKind::Mem | SigKind::Loop | SigKind::Clock => None,
        _ => width_of(signal),
    }
}

/// The width of a variable's value in bits: none of a signal that is computed.
pub fn variable_width(signal: &Signal) -> Option<u8>
    ensures there { HasValue (row_of signal.now).kind → c.is_computed (row_of signal.now).kind ≡ false → IsWidth (row_of signal.now).width →
        result ≡ Some (row_of signal.now).width }
    ensures within { IfSome result (λ w. (w ≡ (row_of signal.now).width) × IsWidth w × HasValue (row_of signal.now).kind) }
{
    if is_computed(signal.kind) {
        None
    } else {
        value_width(signal)
    }
}
