//! What a name means.

/// What a declaration says that a name is.
#[derive(Clone, Copy, Debug, PartialEq, Eq)]
pub enum Class {
    /// A port of which only the direction is told: a net, unless it is declared otherwise (IEEE 1364-2005, clause 12.3.3).
    Port,
    /// A net (clause 4.2).
    Net,
    /// A `reg` or an `integer` (clause 4.2.2).
    Variable,
    /// A memory: an array of such (clause 4.9).
    Memory,
    /// A parameter (clause 4.10): its number in its module, from 0, in the order of the text.
    Parameter(usize),
    /// A function (clause 10.4): how many inputs it has.
    Function(usize),
    /// An instance of a module (clause 12.1.2).
    Instance,
}

/// What a name means.
#[derive(Clone, Copy, Debug, PartialEq, Eq)]
pub struct Kind {
    /// What it is.
    pub class: Class,
    /// Whether it, or a memory's word, has bits to select: it has a range, or is an integer or a parameter.
    pub vector: bool,
}
