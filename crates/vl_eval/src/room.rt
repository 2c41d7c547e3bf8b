//! What expressions are read over: names and values.

use vl_design::design::{Func, Signal};
use vl_design::words::Kept;

/// What numbers stand for: a design's signals, with a function's locals behind them, and the design's functions.
#[derive(Clone, Copy)]
pub struct Room<'a> {
    /// The design's signals.
    pub signals: &'a [Signal],
    /// The locals of the function whose body is read; none elsewhere.
    pub locals: &'a [Signal],
    /// The design's functions.
    pub funcs: &'a [Func],
}

/// What expressions read: the words of each signal, the ticks begun, and the answer of the system function called last.
#[derive(Clone, Copy)]
pub struct Sample<'a> {
    /// The words of each signal.
    pub values: &'a [Kept],
    /// The number of ticks begun.
    pub time: u64,
    /// The answer of the system function called last.
    pub answer: u32,
}
