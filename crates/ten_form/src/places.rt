//! Registers of signals by their numbers.

ghost use Rattle.std.specs.Prelude.{◌≡◌, ◌+◌, ◌*◌, ◌≤◌, ◌<◌, map, length, IfOk};
ghost use Rattle.vl_design.specs.Trees.{row_of};
ghost use Rattle.ten_form.specs.Registers as s;

use std::alloc::{AllocError, Global};
use vl_design::design::{SigKind, Signal};

/// The register of the number of the state that is next.
pub const STATE: u32 = 0;
/// The register of the answer of the system function called last, of 32 bits.
pub const ANSWER: u32 = 1;
/// The register of the ticks begun, of 32 bits.
pub const TICKS: u32 = 2;
/// Of the registers of a signal that of the value committed last.
pub const VALUE: u32 = 3;
/// Of the registers of a signal its work copy: its value now.
pub const WORK: u32 = 4;
/// Of the registers of a signal the new value of the nonblocking updates that are pending.
pub const UPDATE: u32 = 5;
/// Of the registers of a signal the mask of the bits that are updated.
pub const MASK: u32 = 6;

/// The register of a signal, by its number and by which one it is: `VALUE`, `WORK`, `UPDATE` or `MASK`.
pub fn register(number: u32, copy: u32) -> u32
    requires few { number < 268435456 }
    requires copy { copy ≤ 6 }
    ensures { result ≡ 4 * number + copy }
{
    4 * number + copy
}

/// Where a signal of a kind is: in a register, and a memory in the memory of its number.
fn place(kind: SigKind, number: u32, copy: u32) -> u32
    requires few { number < 268435456 }
    requires copy { copy ≤ 6 }
    ensures { result ≡ s.place (λ k. 4 * k + copy) kind number }
{
    match kind {
        SigKind::Mem => number,
        _ => register(number, copy),
    }
}

/// Where each signal is: in its register `copy`, which is `VALUE` or `WORK`, and a memory in the memory of its number.
pub fn places(alloc: Global, signals: &[Signal], copy: u32) -> Result<Vec<u32>, AllocError>
    requires few { length signals.now ≤ 268435456 }
    requires copy { copy ≤ 6 }
    ensures { IfOk result (λ ps. ps.items ≡ s.places (λ k. 4 * k + copy) (map row_of signals.now)) }
{
    let mut places = Vec::new(alloc);
    for (number, signal) in signals.iter().enumerate() {
        places.push(place(signal.kind, number as u32, copy))?;
    }
    Ok(places)
}
