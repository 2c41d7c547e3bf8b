//! From the text of a source to the image that a tenant runs, or why the text is refused.
//!
//! Proved: `build` gives an image of a design that runs as the one that the text stands for, over all files, with all plans and from all
//! starts, has its rows, and keeps within the design's cost; or exactly the refusal of the text (`build`); the same of an accepted design
//! (`make`), whose cost is told without making an image (`cost_of`); law: the run of such a design, from nothing or from a snapshot, goes
//! on from each boundary, until it has finished, as the run that is resumed from its snapshot there (`laws.rt`).
//!
//! Proved: with its loops unrolled each accepted design of a source is one for `ten_make` (`fit_laws.rt`).
//!
//! Proved: each function of an accepted design, with its loops unrolled, only tests and assigns at once to signals of its own, so that it
//! can be compiled to cells (`functions_laws.rt`).
//!
//! Tested: how long large sources take: each state makes all nets.
#![tactic(auto)]

pub mod build;
pub mod fit_laws;
pub mod functions_laws;
pub mod laws;

pub use ten_make::Image;
pub use vl_front::fault;
