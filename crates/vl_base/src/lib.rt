//! Bit vectors of 1 to 128 bits with every operator of the language, lists, places in a source, and sets of files: what nearly all other
//! crates stand on.
//!
//! Proved: which of two faults of a source comes first, by place and number (`comes_before`; its laws); every operator at every width from
//! 1 to 128, signed and unsigned, `resize`, `pick`, `place_in` and `append` give the values of their definitions (`value`, `width`); laws
//! tie these to the arithmetic of whole numbers (`laws.rt`); `FileSet` adds exactly where the name is new and there is room.
//!
//! Tested: 2,097 rows of operands against Python's whole numbers (`value_rows`, section `operators`); their speed: 1 to 6 ns at 32 bits,
//! division about 20.
#![tactic(auto)]

pub(crate) mod arith;
pub mod bits;
pub(crate) mod compare;
pub mod files;
pub mod items;
pub mod laws;
pub(crate) mod logic;
pub mod number;
pub mod place;
pub mod select;
pub(crate) mod shift;
#[cfg(test)]
mod tests;
pub mod text;
