//! The image of a design, made: its states of cells within its cost.
//!
//! Proved: of a sound design without loops that meets the rules of settling, whose computed signals combinational processes write, and
//! these no others, and whose clocked blocks write memories by nonblocking assignments alone, the nodes behind time zero are ones that
//! `states` takes, and the runs are tame, with clock names and loop variables 0; nonblocking assignments write neither these nor computed
//! signals; to a call leads just the segment before it (`design_laws.rt`).
//!
//! Proved: `image` gives such a design's image: states that do its nodes behind time zero, its order, how many slots and stores they need,
//! and the design's cost; its memories have the bits that the cost has, its registers at most those, each set from slots that are no wider,
//! and each of its states at most the cost's cells, with a stated slack (`image`, by `IsWithinCost`).
//!
//! Proved: no state of a design has more cells than the design costs, and a slack that is none where no left side is a concatenation, no
//! nonblocking assignment writes a word of a memory, and `$time` isn't used; the registers that states set have no more bits than it costs,
//! and a slack that is none where no nonblocking assignment writes such a word (`laws.rt`).
#![tactic(auto)]

pub mod design_laws;
pub mod image;
pub mod laws;

pub use ten_core::design;
pub use ten_core::image::Image;
