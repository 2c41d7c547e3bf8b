//! Laws of runs of tables of nodes: their nets, how they end, and that a resumed run goes on as the one from which its snapshot is.
//!
//! Proved: the table made of a checked design with its combinational processes runs as the design runs alone; its nets are those of one
//! pass; in every run of such a table nets are 0 in time zero's wave, and from its end on hold over the committed values (`laws.rt`).
//!
//! Proved: where the run of a table has finished, or is at a boundary with its budget spent, the run alone ends there, in the same state; a
//! run at no call has counted as many acts as it has done; each tick ends, with at most four acts for each node (`ends_laws.rt`).
//!
//! Proved: a run, from nothing or from a snapshot, goes on from each boundary, until it has finished, as the run that is resumed from its
//! snapshot there: that one prints, counts and saves what comes behind it. This is of starts that fit the design, and of designs without
//! loops that meet the rules of settling and have an order, whose computed signals have one word each and are written by combinational
//! processes alone, and whose processes read no answers but those of calls right before and write no loop variables or clocks
//! (`again_laws.rt`); `elab_laws` and `ten_build` show it of accepted sources.
#![tactic(auto)]

pub mod again_laws;
pub mod ends_laws;
pub mod laws;
