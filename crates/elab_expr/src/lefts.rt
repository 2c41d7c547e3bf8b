//! Names with their selects as left sides in the design (IEEE 1364-2005, clauses 5.2 and 6.1).

ghost use Rattle.std.specs.Prelude.{◌≡◌, option_map, IfOk, true};
ghost use Rattle.elab_plain.specs.vl_flat.specs.Surface as x;
ghost use Rattle.vl_design.specs.Placed as p;
ghost use Rattle.elab_plain.specs.vl_flat.specs.Scopes as scopes;
ghost use Rattle.elab_plain.specs.vl_flat.specs.Expressions as flat;
ghost use Rattle.elab_plain.specs.vl_flat.specs.Targets as lefts;
ghost use Rattle.vl_design.specs.Seen.{exp_of, target_of};
ghost use Rattle.elab_plain.specs.Seen.{seen, select, selects_before};
ghost use Rattle.elab_constant.specs.Seen.{seen_scope, binding_of};
ghost use Rattle.elab_constant.specs.Types.{numbers};
ghost use Rattle.elab_expr.specs.Walked as n;

use crate::expressions::boxed;
use elab_constant::form::{is_memory, taken};
use elab_constant::ranges::Range;
use elab_constant::scope::{Known, Scope};
use elab_constant::selects::{bits_of, from_highest, from_lowest, number_of, part_low, range_of};
use elab_constant::whole::bound;
use elab_plain::surface::{Ex, Select};
use std::alloc::{AllocError, Global};
use vl_base::place::Place;
use vl_design::design::{Expr, LowestBit, Target, TargetNode};
use vl_tree::tree::SelectMark;

/// A whole net, variable or local.
fn entire(at: Place, known: Option<Known>) -> Target
    ensures { target_of result ≡ p.Whole at (scopes.number_of (option_map binding_of known)) }
{
    Target {
        place: at,
        node: TargetNode::Sig(number_of(known)),
    }
}

/// The word of a memory.
fn word(at: Place, memory: u32, address: Box<Expr>) -> Target
    ensures { target_of result ≡ p.WordAt at memory (exp_of address.value) }
{
    Target {
        place: at,
        node: TargetNode::Word(memory, address),
    }
}

/// So many bits from the one on that an index names.
fn picked(at: Place, base: Box<Target>, index: Box<Expr>, from: LowestBit, width: u8) -> Target
    ensures { target_of result ≡ p.PickAt at (target_of base.value) (exp_of index.value) from width }
{
    Target {
        place: at,
        node: TargetNode::Pick(base, index, from, width),
    }
}

/// So many bits from a constant one on.
fn sliced(at: Place, base: Box<Target>, low: i32, width: u8) -> Target
    ensures { target_of result ≡ p.SliceAt at (target_of base.value) low width }
{
    Target {
        place: at,
        node: TargetNode::Slice(base, low, width),
    }
}

/// A left side whose bits are numbered.
#[derive(Drop)]
struct Based {
    /// The left side.
    base: Target,
    /// The numbers of its bits.
    range: Range,
}

/// So many bits of a left side by a select with a mark.
fn parted(
    alloc: Global,
    scope: &Scope<'_, '_>,
    at: Place,
    from: Based,
    mark: SelectMark,
    left: &Ex,
    right: &Ex,
    width: u8,
) -> Result<Target, AllocError>
    ensures { IfOk result (λ t. target_of t ≡ lefts.stepped at (target_of from.base) (flat.part (numbers from.range) mark (flat.exp (seen_scope scope.now) (seen left.now)) (flat.constant (seen_scope scope.now) (seen left.now)) (flat.constant (seen_scope scope.now) (seen right.now)) width)) }
{
    let Based { base, range } = from;
    let base = Box::new(alloc, base)?;
    match mark {
        SelectMark::Range => {
            let low = part_low(range, bound(scope, right));
            Ok(sliced(at, base, low, width))
        }
        SelectMark::Up => {
            let index = boxed(alloc, scope, left)?;
            Ok(picked(at, base, index, from_lowest(range, width), width))
        }
        SelectMark::Down => {
            let index = boxed(alloc, scope, left)?;
            Ok(picked(at, base, index, from_highest(range, width), width))
        }
    }
}

/// One select on a left side.
fn one_selected(
    alloc: Global,
    scope: &Scope<'_, '_>,
    at: Place,
    from: Based,
    one: &Select,
) -> Result<Based, AllocError>
    ensures { IfOk result (λ b. (others : x.Selects) → n.selected (seen_scope scope.now) at (numbers b.range) (target_of b.base) others ≡ n.selected (seen_scope scope.now) at (numbers from.range) (target_of from.base) (select one.now others)) }
{
    match one {
        Select::Index(_, i) => {
            let Based { base, range } = from;
            let base = Box::new(alloc, base)?;
            let index = boxed(alloc, scope, i)?;
            let base = picked(at, base, index, from_lowest(range, 1), 1);
            let range = bits_of(1);
            Ok(Based { base, range })
        }
        Select::Range(_, mark, left, right) => {
            let width = taken(scope, *mark, left, right) as u8;
            let base = parted(alloc, scope, at, from, *mark, left, right, width)?;
            let range = bits_of(width);
            Ok(Based { base, range })
        }
    }
}

/// Selects on a left side.
fn selected(
    alloc: Global,
    scope: &Scope<'_, '_>,
    at: Place,
    from: Based,
    selects: &[Select],
) -> Result<Target, AllocError>
    ensures { IfOk result (λ t. target_of t ≡ n.selected (seen_scope scope.now) at (numbers from.range) (target_of from.base) (selects_before selects.now x.NoSelects)) }
{
    let mut all = from;
    for one in selects {
        all = one_selected(alloc, scope, at, all, one)?;
    }
    Ok(all.base)
}

/// A word of a memory with the selects behind it.
fn worded(
    alloc: Global,
    scope: &Scope<'_, '_>,
    at: Place,
    known: Option<Known>,
    selects: &[Select],
) -> Result<Target, AllocError>
    requires { flat.is_memory (option_map binding_of known) ≡ true }
    ensures { IfOk result (λ t. target_of t ≡ lefts.named (seen_scope scope.now) at (option_map binding_of known) (selects_before selects.now x.NoSelects)) }
{
    let range = range_of(known);
    match selects {
        [] => Ok(entire(at, known)),
        [first, rest @ ..] => match first {
            Select::Index(_, i) => {
                let address = boxed(alloc, scope, i)?;
                let base = word(at, number_of(known), address);
                selected(alloc, scope, at, Based { base, range }, rest)
            }
            Select::Range(_, _, _, _) => {
                let base = entire(at, known);
                selected(alloc, scope, at, Based { base, range }, selects)
            }
        },
    }
}

/// A name with its selects.
pub fn written(
    alloc: Global,
    scope: &Scope<'_, '_>,
    at: Place,
    known: Option<Known>,
    selects: &[Select],
) -> Result<Target, AllocError>
    ensures { IfOk result (λ t. target_of t ≡ lefts.named (seen_scope scope.now) at (option_map binding_of known) (selects_before selects.now x.NoSelects)) }
{
    if is_memory(known) {
        return worded(alloc, scope, at, known, selects);
    }
    let base = entire(at, known);
    let range = range_of(known);
    selected(alloc, scope, at, Based { base, range }, selects)
}
