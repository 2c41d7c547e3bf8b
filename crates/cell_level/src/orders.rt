//! A walk from nets to those that drive what they read: who is left stands behind all of them, unless there is a cycle.

ghost use Rattle.std.specs.Prelude.{◌≡◌, ◌<◌, ◌^◌, ◌++◌, ◌∷◌, ℕ, List, [], All, true, false, length, IfOk, OnOk};
ghost use Rattle.cell_level.specs.Cycles.{IsOnCycle};
ghost use Rattle.cell_level.specs.Nets as spec;
ghost use Rattle.cell_level.specs.Tables.{IsTable};
ghost use Rattle.cell_level.specs.Walks.{on, IsWay, Back, Walking};

use crate::flags::{flags, is_on, mark};
use crate::nets::Net;
use crate::tables::{User, unmarked_driver};
use std::alloc::{AllocError, Global};

/// How far a walk is.
#[derive(Drop)]
pub struct Walk {
    /// Who was come to.
    pub seen: Vec<bool>,
    /// Who was left.
    pub done: Vec<bool>,
    /// Those who were left, in this order.
    pub order: Vec<u32>,
    /// Whether a cycle was seen.
    pub cyclic: bool,
}

/// Whether some net that drives what this one reads was not left.
fn waits(nets: &[Net], drivers: &[Vec<User>], done: &Vec<bool>, net: u32) -> bool
    requires within { spec.AreNets (length drivers.now) nets.now }
    requires table { IsTable drivers.now (spec.drives nets.now) }
    requires flags { length done.now.items ≡ length nets.now }
    requires net { net < length nets.now }
    ensures yes { result ≡ true → (p : ℕ) × (on done.now.items p ≡ false) × spec.Edge nets.now p net }
    ensures no { result ≡ false → (p : ℕ) → spec.Edge nets.now p net → on done.now.items p ≡ true }
{
    unmarked_driver(nets, drivers, done, net).is_some()
}

/// The net at the end of the way is left: all that drive what it reads were come to.
fn leave(nets: &[Net], drivers: &[Vec<User>], walk: &mut Walk, net: u32) -> Result<(), AllocError>
    requires within { spec.AreNets (length drivers.now) nets.now }
    requires table { IsTable drivers.now (spec.drives nets.now) }
    requires flags { length walk.old.done.items ≡ length nets.now }
    requires net { net < length nets.now }
    requires seen { (p : ℕ) → spec.Edge nets.now p net → on walk.old.seen.items p ≡ true }
    ensures seen { OnOk result (walk.new.seen.items ≡ walk.old.seen.items) }
    ensures walks { OnOk result ((rest : List ℕ) →
        Walking (spec.Edge nets.now) (length nets.now) walk.old.seen.items walk.old.done.items walk.old.order.items (rest ++ net ∷ []) walk.old.cyclic →
        IsWay (Back (spec.Edge nets.now)) (rest ++ net ∷ []) →
        Walking (spec.Edge nets.now) (length nets.now) walk.new.seen.items walk.new.done.items walk.new.order.items rest walk.new.cyclic) }
{
    if waits(nets, drivers, &walk.done, net) {
        walk.cyclic = true;
    }
    mark(&mut walk.done, net);
    walk.order.push(net)?;
    Ok(())
}

/// A net that wasn't come to is come to, and those that it leads to: when they are left, so is it.
fn visit(
    alloc: Global,
    nets: &[Net],
    drivers: &[Vec<User>],
    walk: &mut Walk,
    root: u32,
) -> Result<(), AllocError>
    requires within { spec.AreNets (length drivers.now) nets.now }
    requires table { IsTable drivers.now (spec.drives nets.now) }
    requires net { root < length nets.now }
    requires new { on walk.old.seen.items root ≡ false }
    requires walks { Walking (spec.Edge nets.now) (length nets.now) walk.old.seen.items walk.old.done.items walk.old.order.items [] walk.old.cyclic }
    ensures kept { OnOk result ((x : ℕ) → on walk.old.seen.items x ≡ true → on walk.new.seen.items x ≡ true) }
    ensures root { OnOk result (on walk.new.seen.items root ≡ true) }
    ensures walks { OnOk result (Walking (spec.Edge nets.now) (length nets.now) walk.new.seen.items walk.new.done.items walk.new.order.items [] walk.new.cyclic) }
{
    mark(&mut walk.seen, root);
    let mut stack = Vec::new(alloc);
    stack.push(root)?;
    'visit: while let Some(net) = stack.pop() {
        match unmarked_driver(nets, drivers, &walk.seen, net) {
            Some(next) => {
                mark(&mut walk.seen, next);
                stack.push(net)?;
                stack.push(next)?;
            }
            None => leave(nets, drivers, walk, net)?,
        }
    }
    Ok(())
}

/// A walk through all nets.
pub fn walk_all(alloc: Global, nets: &[Net], drivers: &[Vec<User>]) -> Result<Walk, AllocError>
    requires within { spec.AreNets (length drivers.now) nets.now }
    requires table { IsTable drivers.now (spec.drives nets.now) }
    requires few { length nets.now < 2 ^ 32 }
    ensures ordered { IfOk result (λ w. w.cyclic ≡ false → spec.IsOrder nets.now w.order.items) }
    ensures acyclic { IfOk result (λ w. w.cyclic ≡ false → (c : ℕ) → IsOnCycle (spec.Edge nets.now) c → ⊥) }
    ensures cyclic { IfOk result (λ w. w.cyclic ≡ true → (c : ℕ) × IsOnCycle (spec.Edge nets.now) c) }
    ensures within { IfOk result (λ w. All (λ x. x < length nets.now) w.order.items) }
{
    let mut walk = Walk {
        seen: flags(alloc, nets.len())?,
        done: flags(alloc, nets.len())?,
        order: Vec::new(alloc),
        cyclic: false,
    };
    for root in 0..nets.len() {
        if !is_on(&walk.seen, root as u32) {
            visit(alloc, nets, drivers, &mut walk, root as u32)?;
        }
    }
    Ok(walk)
}
