//! Walks through whole processes and bodies of functions.

ghost use Rattle.std.specs.Prelude.{◌≡◌, length, IfOk, OnOk};
ghost use Rattle.vl_design.specs.Sound.{IsSoundStm};
ghost use Rattle.vl_design.specs.Trees.{stm_of};
ghost use Rattle.vl_paths.specs.Bits.{Bit};
ghost use Rattle.vl_paths.specs.Paths.{always, early};
ghost use Rattle.vl_paths.specs.Touched.{touched};
ghost use Rattle.vl_bits.specs.Seen.{names_seen};
ghost use Rattle.vl_bits.specs.Masks.{in_parts, AreOf};
ghost use Rattle.vl_bits.specs.Walks.{IsClear};

use crate::meanings::Meanings;
use crate::parts::{Part, hide};
use crate::sets::Sets;
use crate::walk::walk;
use std::alloc::{AllocError, Global};
use std::mem::replace;
use vl_design::design::Stmt;

/// What a process or a function's body does with bits of signals.
#[derive(Drop)]
pub struct Walked {
    /// Those that it reads on some path before it assigns them.
    pub read: Vec<Part>,
    /// Those that it assigns on every path.
    pub assigned: Vec<Part>,
    /// Those that it may assign.
    pub driven: Vec<Part>,
}

/// Walks through the body of a process, or of a function. `known` has a mask for each signal that is named in it, without
/// bits; so it has behind the walk, which takes no longer for signals that the body doesn't name. After an `Err` it isn't to be
/// used.
pub fn process(
    alloc: Global,
    m: &Meanings<'_>,
    path: &[u8],
    known: &mut Vec<u128>,
    body: &Stmt,
) -> Result<Walked, AllocError>
    requires sound { IsSoundStm (names_seen m.now) (stm_of path.now body.now) }
    requires long { length known.old.items ≡ length (names_seen m.now).rows }
    requires clear { IsClear known.old.items }
    ensures read { IfOk result (λ w. (b : Bit) → in_parts w.read.items b ≡ early (names_seen m.now) b (stm_of path.now body.now)) }
    ensures assigned { IfOk result (λ w. (b : Bit) → in_parts w.assigned.items b ≡ always (names_seen m.now) b (stm_of path.now body.now)) }
    ensures driven { IfOk result (λ w. (b : Bit) → in_parts w.driven.items b ≡ touched (names_seen m.now) b (stm_of path.now body.now)) }
    ensures within { IfOk result (λ w. AreOf (length (names_seen m.now).rows) w.read.items × AreOf (length (names_seen m.now).rows) w.assigned.items × AreOf (length (names_seen m.now).rows) w.driven.items) }
    ensures long { OnOk result (length known.new.items ≡ length known.old.items) }
    ensures clear { OnOk result (IsClear known.new.items) }
{
    let mut sets = Sets {
        known: replace(known, Vec::new(alloc)),
        read: Vec::new(alloc),
        driven: Vec::new(alloc),
    };
    let assigned = walk(alloc, m, path, &mut sets, body)?;
    hide(&mut sets.known, assigned.as_slice());
    let Sets {
        known: clear,
        read,
        driven,
    } = sets;
    *known = clear;
    Ok(Walked {
        read,
        assigned,
        driven,
    })
}
