//! Flat designs, and what they do: the event queue of IEEE 1364-2005 and the run of one design alone, as definitions. Faults of a design,
//! and which comes first; costs.
//!
//! Defined: flat designs; execution of statements; the event queue, the run alone and the run act by act; what a design costs.
//!
//! Proved: a run settles in one state, has one state at each boundary and ends once; of a design without loops, whose nets hold no system
//! call, the run act by act agrees with the queue, both ways (`laws.rt`); worked rows computed from the definitions (`rows.rt`).
//!
//! Proved: the first of some faults, by place and number (`construct_if`, `limit_if`), and what that says of a list of them
//! (`proofs/FirstsOfStops.antt`).
//!
//! Proved: the first of two firsts is the first of both (`first_of`, `specs/Firsts.antt`, `proofs/Both.antt`).
//!
//! Proved: whether costs fit a capacity (`fits`).
#![tactic(auto)]

pub mod capacity;
pub mod design;
pub mod firsts;
pub mod formats;
pub mod laws;
pub mod rows;
pub mod sized;
pub mod stop;
pub mod stops;
pub mod words;

pub use vl_base::bits::{BinOp, Bits, UnOp};
pub use vl_base::items::{Bytes, Items, Nums, Text, Words};
pub use vl_base::place::Place;
pub use vl_base::{files, number};
