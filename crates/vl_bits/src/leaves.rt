//! The parts of left sides (IEEE 1364-2005, clause 6.1).

ghost use Rattle.std.specs.Prelude.{◌≡◌, ◌++◌, ◌∷◌, [], map, OnOk, IfOk};
ghost use Rattle.vl_design.specs.Seen.{stm_of, process_of};
ghost use Rattle.vl_design.specs.Trees.{target_of};
ghost use Rattle.vl_bits.specs.Drivers as x;
ghost use Rattle.vl_bits.specs.SeenOfDrivers.{leaf_of};

use std::alloc::{AllocError, Global};
use vl_design::design::{ProcKind, Process, Stmt, StmtNode, Target, TargetNode};

/// A part of a left side.
#[derive(Clone, Copy, Drop)]
pub(crate) struct Leaf<'a> {
    /// What it writes.
    pub(crate) target: &'a Target,
}

/// Adds a part.
fn add<'a>(all: &mut Vec<Leaf<'a>>, target: &'a Target) -> Result<(), AllocError>
    ensures { OnOk result (map leaf_of all.new.items ≡ map leaf_of all.old.items ++ (target_of target.now ∷ [])) }
{
    all.push(Leaf { target })?;
    Ok(())
}

/// Adds the parts of a left side, in order.
fn leaves<'a>(all: &mut Vec<Leaf<'a>>, t: &'a Target) -> Result<(), AllocError>
    ensures { OnOk result (map leaf_of all.new.items ≡ map leaf_of all.old.items ++ x.leaves (target_of t.now)) }
{
    match &t.node {
        TargetNode::Sig(_)
        | TargetNode::Word(_, _)
        | TargetNode::Pick(_, _, _, _)
        | TargetNode::Slice(_, _, _) => add(all, t),
        TargetNode::List(parts) => {
            for part in parts {
                leaves(all, part)?;
            }
            Ok(())
        }
    }
}

/// Adds the parts of what a statement assigns, if it is an assignment.
fn add_assigned<'a>(all: &mut Vec<Leaf<'a>>, a: &'a Stmt) -> Result<(), AllocError>
    ensures { OnOk result (map leaf_of all.new.items ≡ map leaf_of all.old.items ++ x.assigned_parts (stm_of a.now)) }
{
    match &a.node {
        StmtNode::Set(target, _) => leaves(all, target),
        _ => Ok(()),
    }
}

/// A process of this kind is a continuous assignment.
fn is_assign(kind: ProcKind) -> bool
    ensures { result ≡ x.is_assign kind }
{
    matches!(kind, ProcKind::Assign)
}

/// The parts that a process drives: those of the left side of a continuous assignment.
pub(crate) fn driven<'a>(alloc: Global, a: &'a Process) -> Result<Vec<Leaf<'a>>, AllocError>
    ensures { IfOk result (λ v. map leaf_of v.items ≡ x.driven_parts (process_of a.now)) }
{
    let mut all = Vec::new(alloc);
    if is_assign(a.kind) {
        add_assigned(&mut all, &a.body)?;
    }
    Ok(all)
}
