//! Sources as plain trees and modules, as elaboration reads them: operators bound, header items first.
//!
//! Defined: the types of plain trees (`surface.rt`) and of plain modules (`items.rt`), and what they are seen as by the definitions of the
//! flat design (`Seen`, `SeenStatements`, `SeenItems`).
#![tactic(auto)]

pub mod items;
pub mod places;
pub mod surface;

pub use vl_flat::{binding, design};
pub use vl_tree::{Items, Place, Text, source_tree, tree};
