//! The first net bit that is driven twice (IEEE 1364-2005, clause 6.1).

ghost use Rattle.std.specs.Prelude.{◌≡◌, ◌↔◌, ◌||◌, All, Bool, true, false, length, map, [], IfOk, OnOk};
ghost use Rattle.vl_design.specs.Seen.{placed, process_of};
ghost use Rattle.vl_design.specs.Sound.{IsSound, IsSoundProc, IsSoundTarget};
ghost use Rattle.vl_design.specs.Trees.{flat_of, proc_of, target_of};
ghost use Rattle.vl_design.specs.Width.{names_of};
ghost use Rattle.vl_paths.specs.Bits.{Bit, bit_set};
ghost use Rattle.vl_bits.specs.Seen.{names_seen};
ghost use Rattle.vl_bits.specs.Masks.{in_masks};
ghost use Rattle.vl_design.specs.First.{IsFirst};
ghost use Rattle.vl_design.specs.Firsts.{Somewhere};
ghost use Rattle.vl_bits.specs.Drivers as x;
ghost use Rattle.vl_bits.specs.SeenOfDrivers.{leaf_of, IsAgainIn, IsMet};

use crate::leaves::{Leaf, driven};
use crate::meanings::Meanings;
use crate::meets::meets;
use crate::parts::show;
use crate::puts::put;
use std::alloc::{AllocError, Global};
use vl_design::design::{Design, Process, Target};
use vl_design::stop::Stop;
use vl_design::stops::construct_if;

/// One of two holds.
fn one_of(a: bool, b: bool) -> bool
    ensures { result ≡ (a || b) }
{
    a || b
}

/// What a part may write is put into the masks. Gives whether a bit of it, of a net, was there.
fn leaf_again(
    alloc: Global,
    m: &Meanings<'_>,
    known: &mut Vec<u128>,
    t: &Target,
) -> Result<bool, AllocError>
    requires sound { IsSoundTarget (names_seen m.now) (target_of t.now) }
    requires long { length known.old.items ≡ length (names_seen m.now).rows }
    ensures again { IfOk result (λ r. (r ≡ true) ↔ IsMet m.now.signals.now (names_seen m.now) (in_masks known.old.items) (target_of t.now)) }
    ensures long { OnOk result (length known.new.items ≡ length known.old.items) }
    ensures known { OnOk result ((b : Bit) → in_masks known.new.items b ≡ (in_masks known.old.items b || bit_set (names_seen m.now) true b (target_of t.now))) }
{
    let mut parts = Vec::new(alloc);
    put(m, true, &mut parts, t)?;
    let again = meets(m.signals, known, parts.as_slice());
    show(known, parts.as_slice());
    Ok(again)
}

/// What the parts may write is put into the masks. Gives whether a bit of one of them, of a net, was there or is one of a part
/// before it.
fn leaves_again(
    alloc: Global,
    m: &Meanings<'_>,
    known: &mut Vec<u128>,
    ts: &[Leaf<'_>],
) -> Result<bool, AllocError>
    requires sound { All (IsSoundTarget (names_seen m.now)) (map leaf_of ts.now) }
    requires long { length known.old.items ≡ length (names_seen m.now).rows }
    ensures again { IfOk result (λ r. (r ≡ true) ↔ Somewhere (IsAgainIn m.now.signals.now (names_seen m.now) (in_masks known.old.items)) (map leaf_of ts.now)) }
    ensures long { OnOk result (length known.new.items ≡ length known.old.items) }
    ensures known { OnOk result ((b : Bit) → in_masks known.new.items b ≡ (in_masks known.old.items b || x.some_drives (names_seen m.now) (map leaf_of ts.now) b)) }
{
    let mut again = false;
    for leaf in ts {
        let here = leaf_again(alloc, m, known, leaf.target)?;
        again = one_of(again, here);
    }
    Ok(again)
}

/// What a process drives is put into the masks. Gives whether a bit of it, of a net, was there or is one of a part before it.
fn process_again(
    alloc: Global,
    m: &Meanings<'_>,
    known: &mut Vec<u128>,
    a: &Process,
) -> Result<bool, AllocError>
    requires sound { IsSoundProc (names_seen m.now) (proc_of a.now) }
    requires long { length known.old.items ≡ length (names_seen m.now).rows }
    ensures again { IfOk result (λ r. (r ≡ true) ↔ Somewhere (IsAgainIn m.now.signals.now (names_seen m.now) (in_masks known.old.items)) (x.driven_parts (process_of a.now))) }
    ensures long { OnOk result (length known.new.items ≡ length known.old.items) }
    ensures known { OnOk result ((b : Bit) → in_masks known.new.items b ≡ (in_masks known.old.items b || x.some_drives (names_seen m.now) (x.driven_parts (process_of a.now)) b)) }
{
    let all = driven(alloc, a)?;
    leaves_again(alloc, m, known, all.as_slice())
}

/// What numbers stand for in the processes of the design.
fn meanings_of(design: &Design) -> Meanings<'_>
    ensures names { names_seen result ≡ names_of (flat_of design.now) }
    ensures signals { result.signals.now ≡ design.now.signals }
{
    Meanings {
        signals: design.signals.as_slice(),
        locals: &[],
        funcs: design.funcs.as_slice(),
    }
}

/// The first process that drives a bit of a net that is driven before.
fn processes_fault(
    alloc: Global,
    design: &Design,
    m: &Meanings<'_>,
    known: &mut Vec<u128>,
) -> Result<Option<Stop>, AllocError>
    requires sound { IsSound (flat_of design.now) }
    requires names { names_seen m.now ≡ names_of (flat_of design.now) }
    requires signals { m.now.signals.now ≡ design.now.signals }
    requires long { length known.old.items ≡ length (names_seen m.now).rows }
    requires clear { (b : Bit) → in_masks known.old.items b ≡ false }
    ensures { IfOk result (IsFirst (x.IsDrivenTwice (placed design.now))) }
{
    let mut best = None;
    for a in design.processes.as_slice() {
        let again = process_again(alloc, m, known, a)?;
        best = construct_if(best, again, a.place, 14);
    }
    Ok(best)
}

/// The first construct 14 of nets in a design: a process that drives a bit of a net that a process before it drives, or that a
/// part before it in its own left side drives. None where there is none.
pub fn driven_twice(alloc: Global, design: &Design) -> Result<Option<Stop>, AllocError>
    requires { IsSound (flat_of design.now) }
    ensures { IfOk result (IsFirst (x.IsDrivenTwice (placed design.now))) }
{
    let mut known = vec![in alloc; 0; design.signals.as_slice().len()]?;
    let m = meanings_of(design);
    processes_fault(alloc, design, &m, &mut known)
}
