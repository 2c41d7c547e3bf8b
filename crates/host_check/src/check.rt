//! What is said of a source.

ghost use Rattle.std.specs.Prelude.{◌≡◌, ◌++◌, ℕ, List, codes, IfOk, OnOk};
ghost use Rattle.vl_front.specs.vl_design.specs.Costs.{saturated_cost};
ghost use Rattle.vl_front.specs.vl_design.specs.Cost.{Cost as Sums};
ghost use Rattle.vl_front.specs.Sources.{IsAcceptedOf};
ghost use Rattle.host_judge.specs.host_text.specs.Report.{number as number_word};
ghost use Rattle.host_judge.specs.Judged.{kind_words};
ghost use Rattle.host_check.specs.Checks.{cost_line, refused_line, HasChecked};

use host_judge::kinds::source_text;
use host_judge::room::is_exact;
use std::alloc::{AllocError, Global};
use ten_build::build::cost_of;
use vl_front::fault::{BuildError, Kind};
use vl_front::front::front;
use vl_front::{Accepted, Cost, Place};

/// What is said of a source.
#[derive(Drop)]
pub struct Checked {
    /// The status: 0 for a source that is accepted, 3 for one that is refused.
    pub status: u8,
    /// The line.
    pub text: Vec<u8>,
}

/// Adds a number in decimal behind a space.
fn push_number(alloc: Global, value: u64, text: &mut Vec<u8>) -> Result<(), AllocError>
    ensures { OnOk result (text.new.items ≡ text.old.items ++ number_word value) }
{
    let digits = value.to_string(alloc)?;
    text.extend_from_slice(b" ")?;
    text.extend_from_slice(digits.as_bytes())?;
    Ok(())
}

/// What is said of a design of this cost. Numbers of 2 ^ 64 - 1 and more, to which no design within the limits comes, are want of memory.
fn accepted(alloc: Global, cost: Cost) -> Result<Checked, AllocError>
    ensures status { IfOk result (λ c. c.status ≡ 0) }
    ensures text { IfOk result (λ c. (sums : Sums) → cost ≡ saturated_cost sums → c.text.items ≡ cost_line sums) }
{
    if !is_exact(cost) {
        return Err(AllocError);
    }
    let mut text = Vec::new(alloc);
    text.extend_from_slice(b"cost")?;
    push_number(alloc, cost.regs, &mut text)?;
    push_number(alloc, cost.cells, &mut text)?;
    push_number(alloc, cost.mem, &mut text)?;
    text.extend_from_slice(b"\n")?;
    Ok(Checked { status: 0, text })
}

/// What is said of a source whose design is accepted: its cost, and nothing is compiled for it.
fn of_accepted(alloc: Global, design: &Accepted) -> Result<Checked, AllocError>
    requires { (text : List ℕ) × IsAcceptedOf text design.now }
    ensures { IfOk result (λ c. (text : List ℕ) → IsAcceptedOf text design.now → HasChecked text c) }
{
    let cost = cost_of(alloc, design)?;
    accepted(alloc, cost)
}

/// What is said of a source that is refused at a place, for a fault of a kind.
fn refused(alloc: Global, place: Place, kind: Kind) -> Result<Checked, AllocError>
    ensures status { IfOk result (λ c. c.status ≡ 3) }
    ensures text { IfOk result (λ c. c.text.items ≡ refused_line place (kind_words kind)) }
{
    let words = source_text(alloc, kind)?;
    let mut text = Vec::new(alloc);
    text.extend_from_slice(b"refused")?;
    push_number(alloc, u64::from(place.line), &mut text)?;
    push_number(alloc, u64::from(place.column), &mut text)?;
    text.extend_from_slice(b" ")?;
    text.extend_from_slice(words.as_slice())?;
    text.extend_from_slice(b"\n")?;
    Ok(Checked { status: 3, text })
}

/// Checks the bytes of a source: `cost R C M`, where it is accepted, with the register bits, the cells and the memory bits of its design, or else
/// `refused LINE COLUMN KIND` of its first fault. An `Err` is want of memory alone.
pub fn check(alloc: Global, bytes: &[u8]) -> Result<Checked, AllocError>
    ensures { IfOk result (HasChecked bytes.now) }
{
    match front(alloc, bytes) {
        Ok(design) => of_accepted(alloc, &design),
        Err(BuildError::Refused(place, kind)) => refused(alloc, place, kind),
        Err(BuildError::Memory) => Err(AllocError),
    }
}
