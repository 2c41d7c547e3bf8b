//! Expressions: the widths and signs of their operators, their values in contexts (IEEE 1364-2005, clauses 5.4 and 5.5), and updates of
//! signals.
//!
//! Proved: widths and signs of sound expressions are those of the definitions (`form_of`), and so are their values, told what their calls
//! of functions give, where that fits the functions' results (`value`).
//!
//! Proved: the width and sign of an operator's value, and those in which its operands are read, are those of the definitions (`joined`,
//! `assigned`, `unary_form`, `binary_form`, `operand_form`, `left_form`, `right_form`).
//!
//! Proved: updates of signals: what they write to words, which bits and words are left out, and the updates that write a number to the
//! parts of a left side, are those of the definitions (`write`, `write_all`, `push_updates`).
#![tactic(auto)]

pub mod eval;
pub mod form;
pub mod form_form;
pub mod room;
pub mod selects;
pub mod spot;
pub mod update;
pub mod value;

pub use vl_base::files;
pub use vl_base::items::{Bytes, Text};
pub use vl_design::capacity::Cost;
pub use vl_design::{design, words};
