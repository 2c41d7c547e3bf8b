//! Which bits statements read first, drive and assign on every path, as masks; and nets that are driven twice (construct 14).
//!
//! Proved: the lowest bit that a constant index names is the definition's (`known_low`).
//!
//! Proved: sets of bits as masks: the bits that expressions and indices read, and that targets assign, are those of the definitions
//! (`look`, `look_target`, `put`).
//!
//! Proved: of the body of a process whose loops are unrolled: the bits that it reads first, those that it assigns on every path, and those
//! that it may assign, exactly as defined (`process`, by `read`, `assigned`, `driven`).
//!
//! Proved: construct 14 of nets: the first process that drives a bit of a net which another before it drives, or its own left side twice,
//! exactly (`driven_twice`).
//!
//! Tested: the speed of `process` and `driven_twice`.
#![tactic(auto)]

pub mod drivers;
pub mod index;
mod leaves;
pub mod looks;
pub mod meanings;
mod meets;
pub mod parts;
pub mod process;
pub mod puts;
pub mod sets;
mod values;
pub mod walk;
mod wholes;
pub mod widths;

pub use vl_design::design;
