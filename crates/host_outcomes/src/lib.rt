//! From what the runs of tenants come to, to what a report says of them; and the free orders, with the replies to them.
//!
//! Proved: laws of what `fab_rounds` gives, over the histories of its bays: what all tenants of a script come to, refused ones too, is what
//! a report says of them, with the replies to the free orders that were done meanwhile; and what the histories show of these orders, of
//! which a report may have the replies that are given (`laws.rt`); `orders_of` gives the free orders for the tenants that run: none to a
//! refused one, and no move to a fabric that is too small; `replies` gives the lines of all, with what came of each.
#![tactic(auto)]

pub mod laws;
pub mod replies;
mod tenants;
mod words;
