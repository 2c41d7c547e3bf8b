//! A gate that a worker passes before each turn.

/// What a worker passes before each turn, and the operator before each try of an order. It promises
/// nothing: a test holds a worker there.
pub trait Gate {
    /// Passes with a fabric's number and a turn's, from 1 on.
    fn pass(&self, fabric: u32, turn: u64);
}

/// A gate that does nothing.
#[derive(Clone, Copy, Debug)]
pub struct NoGate;

impl Gate for NoGate {
    fn pass(&self, _fabric: u32, _turn: u64) {}
}
