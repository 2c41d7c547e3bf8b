//! The lowest net on a cycle.

ghost use Rattle.std.specs.Prelude.{◌≡◌, ◌≢◌, ◌<◌, ◌^◌, ◌||◌, ◌==◌, ℕ, None, true, false, length, All, IfOk, OnOk, IfSome};
ghost use Rattle.cell_level.specs.Cycles.{IsOnCycle, IsCycle, IsLowestCycle};
ghost use Rattle.cell_level.specs.Nets as spec;
ghost use Rattle.cell_level.specs.Tables.{IsTable};
ghost use Rattle.cell_level.specs.Walks.{on};

use crate::flags::{flags, is_on, mark};
use crate::nets::Net;
use crate::tables::{User, unmarked_reader};
use std::alloc::{AllocError, Global};

/// The way from a net back to it, through nets that weren't come to before: those lead to none that wasn't. With no way back,
/// all that it leads to are come to.
fn search(
    alloc: Global,
    nets: &[Net],
    readers: &[Vec<User>],
    seen: &mut Vec<bool>,
    start: u32,
) -> Result<Option<Vec<u32>>, AllocError>
    requires within { spec.AreNets (length readers.now) nets.now }
    requires table { IsTable readers.now (spec.reads nets.now) }
    requires flags { length seen.old.items ≡ length nets.now }
    requires start { start < length nets.now }
    requires closed { (x y : ℕ) → spec.Edge nets.now x y → on seen.old.items x ≡ true → x ≢ start → on seen.old.items y ≡ true }
    ensures long { OnOk result (length seen.new.items ≡ length nets.now) }
    ensures found { IfOk result (λ way. IfSome way (λ v. IsCycle (spec.Edge nets.now) start v.items)) }
    ensures unseen { IfOk result (λ way. IfSome way (λ v. on seen.old.items start ≡ false)) }
    ensures closed { IfOk result (λ way. way ≡ None → (x y : ℕ) → spec.Edge nets.now x y → (on seen.new.items x || x == start) ≡ true → on seen.new.items y ≡ true) }
    ensures kept { IfOk result (λ way. way ≡ None → on seen.new.items start ≡ on seen.old.items start) }
{
    let mut stack = Vec::new(alloc);
    stack.push(start)?;
    'search: while let Some(net) = stack.pop() {
        if let Some(next) = unmarked_reader(nets, readers, seen, net) {
            stack.push(net)?;
            if next == start {
                return Ok(Some(stack));
            }
            stack.push(next)?;
            mark(seen, next);
        }
    }
    Ok(None)
}

/// The lowest net on a cycle, and a way from it back to it. Nets with the flag are on no cycle.
fn lowest(
    alloc: Global,
    nets: &[Net],
    readers: &[Vec<User>],
    off: &Vec<bool>,
) -> Result<Vec<u32>, AllocError>
    requires within { spec.AreNets (length readers.now) nets.now }
    requires table { IsTable readers.now (spec.reads nets.now) }
    requires few { length nets.now < 2 ^ 32 }
    requires flags { length off.now.items ≡ length nets.now }
    requires off { (x : ℕ) → on off.now.items x ≡ true → IsOnCycle (spec.Edge nets.now) x → ⊥ }
    requires cyclic { (c : ℕ) × IsOnCycle (spec.Edge nets.now) c }
    ensures { IfOk result (λ v. IsLowestCycle (spec.Edge nets.now) v.items) }
{
    for net in 0..nets.len() {
        if !is_on(off, net as u32) {
            let mut seen = flags(alloc, nets.len())?;
            if let Some(way) = search(alloc, nets, readers, &mut seen, net as u32)? {
                return Ok(way);
            }
        }
    }
    unreachable!()
}

/// Notes whether a net is on no cycle, where that shows at once: all that read what it drives were come to, and it wasn't.
/// Else comes to all that it leads to.
fn note(
    alloc: Global,
    nets: &[Net],
    readers: &[Vec<User>],
    seen: &mut Vec<bool>,
    off: &mut Vec<bool>,
    net: u32,
) -> Result<(), AllocError>
    requires within { spec.AreNets (length readers.now) nets.now }
    requires table { IsTable readers.now (spec.reads nets.now) }
    requires seen { length seen.old.items ≡ length nets.now }
    requires flags { length off.old.items ≡ length nets.now }
    requires net { net < length nets.now }
    requires closed { (x y : ℕ) → spec.Edge nets.now x y → on seen.old.items x ≡ true → on seen.old.items y ≡ true }
    requires off { (x : ℕ) → on off.old.items x ≡ true → IsOnCycle (spec.Edge nets.now) x → ⊥ }
    ensures seen { OnOk result (length seen.new.items ≡ length nets.now) }
    ensures flags { OnOk result (length off.new.items ≡ length nets.now) }
    ensures closed { OnOk result ((x y : ℕ) → spec.Edge nets.now x y → on seen.new.items x ≡ true → on seen.new.items y ≡ true) }
    ensures off { OnOk result ((x : ℕ) → on off.new.items x ≡ true → IsOnCycle (spec.Edge nets.now) x → ⊥) }
{
    if is_on(seen, net) {
        return Ok(());
    }
    if unmarked_reader(nets, readers, seen, net).is_none() {
        mark(off, net);
        mark(seen, net);
        return Ok(());
    }
    mark(seen, net);
    let _way = search(alloc, nets, readers, seen, net)?;
    Ok(())
}

/// Nets that are on no cycle: all of them, if the nets come in an order in which a walk back left them.
fn cleared(
    alloc: Global,
    nets: &[Net],
    readers: &[Vec<User>],
    mut order: Vec<u32>,
) -> Result<Vec<bool>, AllocError>
    requires within { spec.AreNets (length readers.now) nets.now }
    requires table { IsTable readers.now (spec.reads nets.now) }
    requires order { All (λ x. x < length nets.now) order.items }
    ensures flags { IfOk result (λ off. length off.items ≡ length nets.now) }
    ensures off { IfOk result (λ off. (x : ℕ) → on off.items x ≡ true → IsOnCycle (spec.Edge nets.now) x → ⊥) }
{
    let mut seen = flags(alloc, nets.len())?;
    let mut off = flags(alloc, nets.len())?;
    'back: while let Some(net) = order.pop() {
        note(alloc, nets, readers, &mut seen, &mut off, net)?;
    }
    Ok(off)
}

/// The lowest net on a cycle, and a way from it back to it. The order is a hint alone.
pub fn lowest_cycle(
    alloc: Global,
    nets: &[Net],
    readers: &[Vec<User>],
    order: Vec<u32>,
) -> Result<Vec<u32>, AllocError>
    requires within { spec.AreNets (length readers.now) nets.now }
    requires table { IsTable readers.now (spec.reads nets.now) }
    requires few { length nets.now < 2 ^ 32 }
    requires order { All (λ x. x < length nets.now) order.items }
    requires cyclic { (c : ℕ) × IsOnCycle (spec.Edge nets.now) c }
    ensures { IfOk result (λ v. IsLowestCycle (spec.Edge nets.now) v.items) }
{
    let off = cleared(alloc, nets, readers, order)?;
    lowest(alloc, nets, readers, &off)
}
