//! What numbers stand for in a design, or in a function's body.

use vl_design::design::{Func, Signal};

/// What numbers stand for: the design's signals first, in a function's body with its locals behind them; and the
/// functions (IEEE 1364-2005, clause 10.4).
#[derive(Clone, Copy)]
pub struct Meanings<'a> {
    /// The design's signals.
    pub signals: &'a [Signal],
    /// The function's locals; none in a process.
    pub locals: &'a [Signal],
    /// The design's functions.
    pub funcs: &'a [Func],
}
