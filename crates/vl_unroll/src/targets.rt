//! Numbers of loop variables put into what assignments write.

ghost use Rattle.std.specs.Prelude.{◌≡◌, map, IfOk};
ghost use Rattle.vl_design.specs.Seen.{target_of};
ghost use Rattle.vl_loops.specs.Placed.{target_put};
ghost use Rattle.vl_loops.specs.Rooms.{rows_of, values_of};
ghost use Rattle.vl_unroll.specs.Heads.{AreReady};
ghost use Rattle.vl_unroll.specs.Listed.{target_put_of};

use crate::put::put;
use std::alloc::{AllocError, Global};
use vl_design::design::{Target, TargetNode};
use vl_loops::room::Room;

/// Parts of a concatenation one by one.
#[cycle(target)]
fn put_targets(
    alloc: Global,
    room: &Room<'_>,
    numbers: &[u128],
    parts: &[Target],
) -> Result<Vec<Target>, AllocError>
    requires { AreReady (rows_of room.now) numbers.now }
    ensures { IfOk result (λ v. map target_of v.items ≡ map (target_put_of (rows_of room.now) (values_of numbers.now)) parts.now) }
{
    let mut all = Vec::new(alloc);
    for part in parts {
        all.push(put_target(alloc, room, numbers, part)?)?;
    }
    Ok(all)
}

/// What an assignment writes, with the numbers of the loop variables put into its indices, its places kept.
#[cycle(target)]
pub(crate) fn put_target(
    alloc: Global,
    room: &Room<'_>,
    numbers: &[u128],
    t: &Target,
) -> Result<Target, AllocError>
    requires { AreReady (rows_of room.now) numbers.now }
    ensures { IfOk result (λ x. target_of x ≡ target_put (rows_of room.now) (values_of numbers.now) (target_of t.now)) }
{
    let place = t.place;
    match &t.node {
        TargetNode::Sig(number) => Ok(Target {
            place,
            node: TargetNode::Sig(*number),
        }),
        TargetNode::Word(memory, address) => {
            let address = Box::new(alloc, put(alloc, room, numbers, address)?)?;
            Ok(Target {
                place,
                node: TargetNode::Word(*memory, address),
            })
        }
        TargetNode::Pick(base, index, from, width) => {
            let base = Box::new(alloc, put_target(alloc, room, numbers, base)?)?;
            let index = Box::new(alloc, put(alloc, room, numbers, index)?)?;
            Ok(Target {
                place,
                node: TargetNode::Pick(base, index, *from, *width),
            })
        }
        TargetNode::Slice(base, low, width) => {
            let base = Box::new(alloc, put_target(alloc, room, numbers, base)?)?;
            Ok(Target {
                place,
                node: TargetNode::Slice(base, *low, *width),
            })
        }
        TargetNode::List(parts) => {
            let parts = put_targets(alloc, room, numbers, parts.as_slice())?;
            Ok(Target {
                place,
                node: TargetNode::List(parts),
            })
        }
    }
}
