//! The stores of a table's nodes.

ghost use Rattle.std.specs.Prelude.{◌≡◌, ◌<◌, ◌^◌, map, All, IfOk};
ghost use Rattle.sub_split.specs.Views.{node_view};
ghost use Rattle.ten_form.specs.Holding.{mask_register};
ghost use Rattle.ten_form.specs.Stores.{stores_from, stores_of};

use crate::memories::memories_of;
use crate::store::Store;
use std::alloc::{AllocError, Global};
use sub_split::table::Node;

/// A store for each of these memories, from register `first` on. An `Err` is want of memory, also where register numbers reach 2^32.
fn placed(alloc: Global, first: u32, memories: &[u32]) -> Result<Vec<Store>, AllocError>
    ensures stores { IfOk result (λ xs. xs.items ≡ stores_from first memories.now) }
    ensures few { IfOk result (λ xs. All (λ x. mask_register x < 2 ^ 32) xs.items) }
{
    let mut made = Vec::new(alloc);
    let mut next = first;
    for memory in memories {
        let after = next.checked_add(4).ok_or(AllocError)?;
        made.push(Store {
            memory: *memory,
            first: next,
        })?;
        next = after;
    }
    Ok(made)
}

/// The stores of a table's nodes, from register `first` on: for each nonblocking assignment to a word of a memory one (IEEE 1364-2005,
/// clause 9.2.2), those of the last node first, and of a node in the order of its text, but those of a case's default behind those of
/// its items. An `Err` is want of memory, also where register numbers reach 2^32.
pub fn stores(alloc: Global, first: u32, nodes: &[Node<'_>]) -> Result<Vec<Store>, AllocError>
    ensures stores { IfOk result (λ xs. xs.items ≡ stores_of first (map node_view nodes.now)) }
    ensures few { IfOk result (λ xs. All (λ x. mask_register x < 2 ^ 32) xs.items) }
{
    let memories = memories_of(alloc, nodes)?;
    placed(alloc, first, memories.as_slice())
}
