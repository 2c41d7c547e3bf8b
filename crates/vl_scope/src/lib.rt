//! The declarations of a source: what each name means in a module and in a function, and which declarations are refused.
//!
//! Proved: the tables of what a module's and a function's names mean are exactly those of the declarations (`kind`, `of`);
//! `first_declaration_fault` gives the earliest fault of declarations, and the list of these has just the faults of the relation
//! (`laws.rt`).
#![tactic(auto)]

pub mod declaration;
pub mod fault;
pub mod faults;
mod inputs;
mod items;
pub mod kind;
pub mod laws;
mod locals;
mod marks;
mod ports;
pub mod scope;

pub use vl_base::items::Items;
pub use vl_base::place::Place;
pub use vl_tree::{parts, source_tree, tree};
