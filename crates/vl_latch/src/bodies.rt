//! Construct 19 of one process, and of one function.

ghost use Rattle.std.specs.Prelude.{◌≡◌, ◌↔◌, ◌==◌, ◌||◌, true, length, [], IfOk, OnOk};
ghost use Rattle.std.specs.List.{list_any};
ghost use Rattle.vl_design.specs.Sound.{IsSignal, IsSoundStm};
ghost use Rattle.vl_design.specs.Trees.{fun_of, stm_of};
ghost use Rattle.vl_bits.specs.vl_paths.specs.Bits.{Bit};
ghost use Rattle.vl_bits.specs.Seen.{names_seen};
ghost use Rattle.vl_bits.specs.Masks.{in_part};
ghost use Rattle.vl_bits.specs.Walks.{IsClear};
ghost use Rattle.vl_latch.specs.Partly.{HasBit, IsPartly, IsPartlyFun, is_own};

use crate::bits::{has_bit, lacks, shares, wholes};
use std::alloc::{AllocError, Global};
use vl_bits::meanings::Meanings;
use vl_bits::parts::Part;
use vl_bits::process::process;
use vl_bits::widths::whole;
use vl_design::design::{Func, Stmt};

/// One of two holds.
fn one_of(a: bool, b: bool) -> bool
    ensures { result ≡ (a || b) }
{
    a || b
}

/// A combinational process of this body leaves a bit of a variable that it writes unassigned on some path, or reads one before
/// it assigns it. `known` has a mask for each signal, without bits, before and behind.
pub fn process_is_partly(
    alloc: Global,
    m: &Meanings<'_>,
    path: &[u8],
    known: &mut Vec<u128>,
    body: &Stmt,
) -> Result<bool, AllocError>
    requires sound { IsSoundStm (names_seen m.now) (stm_of path.now body.now) }
    requires long { length known.old.items ≡ length (names_seen m.now).rows }
    requires clear { IsClear known.old.items }
    ensures partly { IfOk result (λ r. (r ≡ true) ↔ IsPartly (names_seen m.now) (stm_of path.now body.now)) }
    ensures long { OnOk result (length known.new.items ≡ length known.old.items) }
    ensures clear { OnOk result (IsClear known.new.items) }
{
    let walked = process(alloc, m, path, known, body)?;
    let written = wholes(alloc, m, walked.driven.as_slice())?;
    let left = lacks(known, written.as_slice(), walked.assigned.as_slice());
    let early = shares(known, walked.read.as_slice(), written.as_slice());
    Ok(one_of(left, early))
}

/// A number is one of the list's.
fn is_listed(numbers: &[u32], number: u32) -> bool
    ensures { result ≡ list_any (λ n. n == number) numbers.now }
{
    numbers.iter().any(|n| *n == number)
}

/// The signal is the function's result, or a local that is no input.
fn is_own(m: &Meanings<'_>, f: &Func, signal: u32) -> bool
    ensures { result ≡ is_own (names_seen m.now) (fun_of f.now) signal }
{
    signal == f.result
        || (m.signals.len() <= signal as usize && !is_listed(f.inputs.as_slice(), signal))
}

/// The part has a bit, of the function's result or of a local that is no input.
fn has_own_bit(m: &Meanings<'_>, f: &Func, part: Part) -> bool
    ensures { (result ≡ true) ↔ ((b : Bit) × (in_part part b ≡ true) × (is_own (names_seen m.now) (fun_of f.now) b.signal ≡ true)) }
{
    if is_own(m, f, part.signal) {
        has_bit(part)
    } else {
        false
    }
}

/// One of the parts has a bit of the function's result, or of a local that is no input.
fn has_own(m: &Meanings<'_>, f: &Func, parts: &[Part]) -> bool
    ensures { (result ≡ true) ↔ HasBit parts.now (λ b. is_own (names_seen m.now) (fun_of f.now) b.signal ≡ true) }
{
    for part in parts {
        if has_own_bit(m, f, *part) {
            return true;
        }
    }
    false
}

/// A function leaves a bit of its result unassigned on some path, or reads one, or one of a local that is no input, before it
/// assigns it. `m` has its locals; `known` has a mask for each signal and each local, without bits, before and behind.
pub fn function_is_partly(
    alloc: Global,
    m: &Meanings<'_>,
    known: &mut Vec<u128>,
    f: &Func,
) -> Result<bool, AllocError>
    requires result { IsSignal (names_seen m.now) f.now.result }
    requires sound { IsSoundStm (names_seen m.now) (stm_of [] f.now.body) }
    requires long { length known.old.items ≡ length (names_seen m.now).rows }
    requires clear { IsClear known.old.items }
    ensures partly { IfOk result (λ r. (r ≡ true) ↔ IsPartlyFun (names_seen m.now) (fun_of f.now)) }
    ensures long { OnOk result (length known.new.items ≡ length known.old.items) }
    ensures clear { OnOk result (IsClear known.new.items) }
{
    let walked = process(alloc, m, &[], known, &f.body)?;
    let own = [whole(m, f.result)];
    let left = lacks(known, &own, walked.assigned.as_slice());
    let early = has_own(m, f, walked.read.as_slice());
    Ok(one_of(left, early))
}
