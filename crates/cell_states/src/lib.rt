//! The compiler of a design's table of nodes to a table of states, each with its list of cells.
//!
//! Proved: `states` gives a table of states, each of which does its node, with a trap and an empty state for each call (`states`), and says
//! how many slots and stores these have, at most how many cells each (`few`), and that none sets a register from a slot that is wider than
//! the register (`narrow`), where combinational processes write computed signals alone; time zero's nodes have no states.
//!
//! Tested: the list of the states that a state without a trap leads to, which nothing but the section `splits` of `machine_rows` reads.
#![tactic(auto)]

pub mod base;
mod delays;
mod ends;
pub mod made;
pub mod run;
pub mod state;
pub mod stretch;
pub mod table;
pub mod update;
