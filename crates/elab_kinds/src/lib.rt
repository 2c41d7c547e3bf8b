//! What the names of modules are, and how many signals and functions an instance has (IEEE 1364-2005, clauses 4.2, 9.6 and 12).
//!
//! Proved: which names of a module are inputs, variables, memories and loop variables, and how many signals and functions an instance has,
//! exactly as defined (`make_roles`, `kind_of`, `local_kind`, `sizes_of`, `size_at`, `module_size`).
#![tactic(auto)]

mod controls;
pub mod counts;
mod declared;
pub mod index;
mod items;
mod lefts;
pub mod locals;
pub mod names;
mod own;
pub mod roles;
pub mod sizes;
mod strays;
mod uses;
mod writes;
