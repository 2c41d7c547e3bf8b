//! What the numbers of an expression name.

ghost use Rattle.std.specs.Prelude.{◌≡◌, ◌<◌, ◌++◌, map, length, slice_index};
ghost use Rattle.vl_design.specs.Trees.{row_of, flat_of, fun_of};
ghost use Rattle.vl_design.specs.Width as w;
ghost use Rattle.vl_design.specs.Sound.{IsSound, IsWidth};
ghost use Rattle.vl_width.specs.Room.{names_of, HaveInputs};

use vl_design::design::{Design, Form, Func, Signal};
use vl_eval::form_form::unsigned;

/// What the numbers of an expression name: signals of a design, behind them the locals of the function in whose body the
/// expression stands, and functions.
#[derive(Clone, Copy)]
pub struct Room<'a> {
    /// The design's signals.
    pub signals: &'a [Signal],
    /// The function's locals; none outside of functions.
    pub locals: &'a [Signal],
    /// The design's functions.
    pub functions: &'a [Func],
}

impl<'a> Room<'a> {
    /// The room of a process of a sound design.
    pub fn of_design(design: &'a Design) -> Room<'a>
        requires { IsSound (flat_of design.now) }
        ensures names { names_of result ≡ w.names_of (flat_of design.now) }
        ensures inputs { HaveInputs (names_of result) }
    {
        Room {
            signals: design.signals.as_slice(),
            locals: &[],
            functions: design.funcs.as_slice(),
        }
    }

    /// The room of the body of a function of a sound design.
    pub fn of_function(design: &'a Design, function: &'a Func) -> Room<'a>
        requires { IsSound (flat_of design.now) }
        ensures names { names_of result ≡ w.names_in (w.names_of (flat_of design.now)) (fun_of function.now) }
        ensures inputs { HaveInputs (names_of result) }
    {
        Room {
            signals: design.signals.as_slice(),
            locals: function.locals.as_slice(),
            functions: design.funcs.as_slice(),
        }
    }
}

/// The width and sign of a signal as declared.
fn declared_form(signal: &Signal) -> Form
    requires { IsWidth (row_of signal.now).width }
    ensures { result ≡ w.row_form (Some (row_of signal.now)) }
{
    Form {
        width: signal.left.abs_diff(signal.right) + 1,
        signed: signal.signed,
    }
}

/// The width and sign of a signal, or of a local behind the signals; one unsigned bit where there is none.
pub(crate) fn signal_form(signals: &[Signal], locals: &[Signal], number: u32) -> Form
    requires { IsWidth (w.signal_form (map row_of signals.now ++ map row_of locals.now) number).width }
    ensures { result ≡ w.signal_form (map row_of signals.now ++ map row_of locals.now) number }
{
    let number = number as usize;
    if number < signals.len() {
        return declared_form(&signals[number]);
    }
    let local = number - signals.len();
    if local < locals.len() {
        return declared_form(&locals[local]);
    }
    unsigned(1)
}

/// The width and sign of a function's result.
pub(crate) fn result_form(room: &Room<'_>, function: u32) -> Form
    requires there { function < length room.now.functions.now }
    requires width { IsWidth (w.result_form (names_of room.now) function).width }
    ensures { result ≡ w.result_form (names_of room.now) function }
{
    let f = &room.functions[function as usize];
    signal_form(room.signals, f.locals.as_slice(), f.result)
}

/// The width of an input of a function.
pub(crate) fn input_width(room: &Room<'_>, function: u32, i: usize) -> u32
    requires inputs { HaveInputs (names_of room.now) }
    requires within { i < length (w.input_widths (names_of room.now) function) }
    ensures value { result ≡ slice_index (w.input_widths (names_of room.now) function) i }
    ensures small { result < 256 }
{
    let f = &room.functions[function as usize];
    let input = f.inputs.as_slice()[i];
    signal_form(room.signals, f.locals.as_slice(), input).width
}
