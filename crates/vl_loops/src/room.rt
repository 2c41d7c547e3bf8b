//! What the numbers in a header name, and the numbers of loop variables.

ghost use Rattle.std.specs.Prelude.{◌≡◌, true, Some, map, IfOk};
ghost use Rattle.vl_design.specs.Value.{value_of};
ghost use Rattle.vl_design.specs.Rows.{row_of};
ghost use Rattle.vl_design.specs.Sound.{IsNamed, IsWidth};
ghost use Rattle.vl_design.specs.Width as w;
ghost use Rattle.vl_loops.specs.Unroll.{is_loop as spec_is_loop, is_loop_kind};
ghost use Rattle.vl_loops.specs.Rooms.{names_of, rows_of, values_of, zeros_of, AreNumbers};

use std::alloc::{AllocError, Global};
use vl_base::bits::Bits;
use vl_design::design::{Form, SigKind, Signal};

/// What numbers name: a design's signals, and behind them the locals of a function.
#[derive(Clone, Copy)]
pub struct Room<'a> {
    /// The design's signals.
    pub signals: &'a [Signal],
    /// The locals of the function whose body is read; none elsewhere.
    pub locals: &'a [Signal],
}

/// Whether a signal is a loop variable.
fn is_of_loops(signal: &Signal) -> bool
    ensures { result ≡ is_loop_kind signal.now.kind }
{
    matches!(signal.kind, SigKind::Loop)
}

/// Whether a number names a loop variable.
#[tactic(auto, using(crate::proofs::Names::kinds))]
pub fn is_loop(room: &Room<'_>, number: u32) -> bool
    ensures { result ≡ spec_is_loop (rows_of room.now) number }
{
    let number = number as usize;
    let inner = room.signals.len();
    if number < inner {
        return is_of_loops(&room.signals[number]);
    }
    if number - inner < room.locals.len() {
        return is_of_loops(&room.locals[number - inner]);
    }
    false
}

/// The width and the sign of a signal's words.
fn form_of_signal(signal: &Signal) -> Form
    requires { IsWidth (row_of signal.now).width }
    ensures { result ≡ w.row_form (Some (row_of signal.now)) }
{
    Form {
        width: signal.left.abs_diff(signal.right) + 1,
        signed: signal.signed,
    }
}

/// The width and the sign of what a number names.
#[tactic(auto, using(crate::proofs::Names::lookups))]
pub fn signal_form(room: &Room<'_>, number: u32) -> Form
    requires { IsNamed (names_of room.now) number }
    ensures value { result ≡ w.signal_form (rows_of room.now) number }
    ensures width { IsWidth result.width }
{
    let number = number as usize;
    let inner = room.signals.len();
    if number < inner {
        form_of_signal(&room.signals[number])
    } else {
        form_of_signal(&room.locals[number - inner])
    }
}

/// The number that a loop variable has.
#[tactic(auto, using(crate::proofs::Names::numbers))]
pub fn number_of(room: &Room<'_>, numbers: &[u128], number: u32) -> Bits
    requires named { IsNamed (names_of room.now) number }
    requires loops { spec_is_loop (rows_of room.now) number ≡ true }
    requires numbers { AreNumbers (rows_of room.now) numbers.now }
    ensures value { result.value ≡ value_of (values_of numbers.now) number }
    ensures width { result.width ≡ (w.signal_form (rows_of room.now) number).width }
{
    let form = signal_form(room, number);
    Bits {
        value: numbers[number as usize],
        width: form.width as u8,
    }
}

/// A 0 for each signal.
fn zeros_for(alloc: Global, signals: &[Signal]) -> Result<Vec<u128>, AllocError>
    ensures { IfOk result (λ v. v.items ≡ map (λ x. 0) signals.now) }
{
    signals.iter().map(|_signal| 0_u128).collect(alloc)
}

/// A 0 for each signal and each local: their numbers where no loop runs.
pub fn zeros(alloc: Global, room: &Room<'_>) -> Result<Vec<u128>, AllocError>
    ensures { IfOk result (λ v. v.items ≡ zeros_of room.now) }
{
    let mut all = zeros_for(alloc, room.signals)?;
    let locals = zeros_for(alloc, room.locals)?;
    all.extend_from_slice(&locals)?;
    Ok(all)
}
