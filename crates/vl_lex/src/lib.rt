//! The lexer: from the bytes of a source to its tokens, or its first fault.
//!
//! Proved: `lex` gives the tokens of the definition (`read`, `only_tokens`) or exactly the first fault or limit (`refused`, `only_fault`,
//! `only_limit`); laws: one list for a text, each spelling is the slice at its place, places rise, what a text cut behind a token is read
//! as.
//!
//! Tested: its speed: about 25 ms for 1,000,000 bytes.
#![tactic(auto)]

mod bytes;
mod digits;
mod gaps;
pub mod laws;
pub mod lex;
mod marks;
mod names;
mod numbers;
mod runs;
mod step;
mod strings;

pub use vl_tree::{Place, source_tree, token};
