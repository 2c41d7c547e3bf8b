//! What names stand for in an instance.

use vl_design::design::{Form, SigKind};

/// A parameter's value, its sign, and the numbers of its highest and lowest bit (IEEE 1364-2005, clause 4.10).
#[derive(Clone, Copy)]
pub struct Constant {
    /// The value, below 2^width.
    pub value: u128,
    /// The width in bits, from 1 to 128.
    pub width: u8,
    /// The value is signed.
    pub signed: bool,
    /// The number of its highest bit.
    pub left: i32,
    /// The number of its lowest bit.
    pub right: i32,
}

/// A signal's kind, sign and range, and the addresses of a memory.
#[derive(Clone, Copy)]
pub struct Shape {
    /// Its kind.
    pub kind: SigKind,
    /// Its values are signed.
    pub signed: bool,
    /// Its first declaration says which bits it has: by a range, or as an `integer`.
    pub ranged: bool,
    /// The number of its highest bit.
    pub left: i32,
    /// The number of its lowest bit.
    pub right: i32,
    /// A memory's first address as declared; 0 for other kinds.
    pub first: i32,
    /// A memory's last address as declared; 0 for other kinds.
    pub last: i32,
}

/// What a name stands for.
#[derive(Clone, Copy)]
pub enum Binding {
    /// A parameter.
    Constant(Constant),
    /// A signal, by its number in the design, or a function's local.
    Signal(u32, Shape),
    /// A function, by its number in the design, and the form of its result.
    Function(u32, Form),
}
