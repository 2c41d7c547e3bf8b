//! The directions of selects: refused construct 11 (IEEE 1364-2005, clause 5.2.1).

ghost use Rattle.std.specs.Prelude.{◌≡◌, ℕ, flat_map, option_map};
ghost use Rattle.elab_plain.specs.vl_flat.specs.Expressions as flat;
ghost use Rattle.elab_plain.specs.vl_flat.specs.ExpressionFaults as f;
ghost use Rattle.vl_design.specs.Stops as s;
ghost use Rattle.elab_plain.specs.vl_flat.specs.Surface as x;
ghost use Rattle.elab_plain.specs.Seen.{seen, select, selects_before};
ghost use Rattle.elab_constant.specs.Seen.{seen_scope, binding_of};
ghost use Rattle.elab_constant.specs.Types.{numbers};

use elab_constant::form::taken;
use elab_constant::ranges::{Range, falls};
use elab_constant::scope::{Known, Scope};
use elab_constant::selects::{bits_of, memory_of, range_of};
use elab_constant::whole::bound;
use elab_plain::surface::{Ex, Select};
use vl_base::place::Place;
use vl_design::stop::Stop;
use vl_design::stops::construct_if;
use vl_tree::tree::SelectMark;

/// Two bounds stand in another order than those of the declaration.
fn turns_round(range: Range, left: i32, right: i32) -> bool
    ensures { result ≡ f.turns_round (numbers range) left right }
{
    if falls(range) {
        left < right
    } else {
        right < left
    }
}

/// Bounds around a mark against the declared direction, in the selects behind a name at a place.
fn direction(
    best: Option<Stop>,
    scope: &Scope<'_, '_>,
    at: Place,
    range: Range,
    mark: SelectMark,
    left: &Ex,
    right: &Ex,
) -> Option<Stop>
    ensures { (w : ℕ) → result ≡ s.earliest best (f.direction (seen_scope scope.now) at (flat.part (numbers range) mark (flat.exp (seen_scope scope.now) (seen left.now)) (flat.constant (seen_scope scope.now) (seen left.now)) (flat.constant (seen_scope scope.now) (seen right.now)) w)) }
{
    match mark {
        SelectMark::Range => {
            let turns = turns_round(range, bound(scope, left), bound(scope, right));
            construct_if(best, turns, at, 11)
        }
        SelectMark::Up | SelectMark::Down => best,
    }
}

/// The first fault so far, and what is selected from.
#[derive(Clone, Copy)]
struct Turned {
    /// The first fault so far.
    best: Option<Stop>,
    /// The number of a memory, of which an index chooses a word.
    memory: Option<u32>,
    /// The numbers of the bits.
    range: Range,
}

/// The direction of one select, and what is selected from behind it.
fn one_direction(from: Turned, scope: &Scope<'_, '_>, at: Place, one: &Select) -> Turned
    ensures { (others : x.Selects) → s.earliest result.best (flat_map (f.direction (seen_scope scope.now) at) (flat.steps (seen_scope scope.now) result.memory (numbers result.range) others)) ≡ s.earliest from.best (flat_map (f.direction (seen_scope scope.now) at) (flat.steps (seen_scope scope.now) from.memory (numbers from.range) (select one.now others))) }
{
    match one {
        Select::Index(_, _) => match from.memory {
            Some(_) => Turned {
                best: from.best,
                memory: None,
                range: from.range,
            },
            None => Turned {
                best: from.best,
                memory: None,
                range: bits_of(1),
            },
        },
        Select::Range(_, mark, left, right) => Turned {
            best: direction(from.best, scope, at, from.range, *mark, left, right),
            memory: None,
            range: bits_of(taken(scope, *mark, left, right) as u8),
        },
    }
}

/// The directions of the selects behind a name at a place.
pub fn directions(
    best: Option<Stop>,
    scope: &Scope<'_, '_>,
    at: Place,
    known: Option<Known>,
    selects: &[Select],
) -> Option<Stop>
    ensures { result ≡ s.earliest best (f.directions (seen_scope scope.now) at (option_map binding_of known) (selects_before selects.now x.NoSelects)) }
{
    let mut all = Turned {
        best,
        memory: memory_of(known),
        range: range_of(known),
    };
    for one in selects {
        all = one_direction(all, scope, at, one);
    }
    all.best
}
