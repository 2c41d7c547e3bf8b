//! The assignments and the test of a header (IEEE 1364-2005, clause 9.6).

ghost use Rattle.std.specs.Prelude.{◌≡◌, ◌<◌, ◌%◌, ◌^◌, ℕ, true, slice_set, [], map, All, IfOk};
ghost use Rattle.vl_design.specs.Exec.{exec, goes_on, most_turns};
ghost use Rattle.vl_design.specs.Plainly.{stm};
ghost use Rattle.vl_design.specs.Seen.{stm_of};
ghost use Rattle.vl_design.specs.Trees.{exp_of};
ghost use Rattle.vl_design.specs.Sound.{IsSoundExp, IsNamed};
ghost use Rattle.vl_design.specs.Value as d;
ghost use Rattle.vl_design.specs.Width as w;
ghost use Rattle.vl_loops.specs.Unroll.{is_loop};
ghost use Rattle.vl_loops.specs.Fits.{IsHeader};
ghost use Rattle.vl_loops.specs.Heads.{IsHead, AreTurns};
ghost use Rattle.vl_loops.specs.Rooms.{names_of, rows_of, scope_of, state_of, sample_of, AreNumbers};

use crate::forms::form_of;
use crate::room::{Room, signal_form};
use crate::values::value;
use std::alloc::{AllocError, Global};
use vl_base::bits::resize;
use vl_design::design::{Expr, Stmt, StmtNode};
use vl_eval::form_form::assigned;

/// Whether a test holds.
#[tactic(auto, using(crate::proofs::Widen::contexts))]
fn holds(room: &Room<'_>, numbers: &[u128], test: &Expr) -> bool
    requires sound { IsSoundExp (names_of room.now) (exp_of test.now) }
    requires constant { IsHeader (rows_of room.now) (exp_of test.now) }
    requires numbers { AreNumbers (rows_of room.now) numbers.now }
    ensures { result ≡ goes_on (scope_of room.now) (exp_of test.now) (state_of numbers.now) }
{
    value(room, numbers, test, form_of(room, test)).value != 0
}

/// The number that is assigned to a loop variable.
#[tactic(auto, using(crate::proofs::Names::numbers))]
fn number_assigned(room: &Room<'_>, numbers: &[u128], variable: u32, source: &Expr) -> u128
    requires named { IsNamed (names_of room.now) variable }
    requires loops { is_loop (rows_of room.now) variable ≡ true }
    requires sound { IsSoundExp (names_of room.now) (exp_of source.now) }
    requires constant { IsHeader (rows_of room.now) (exp_of source.now) }
    requires numbers { AreNumbers (rows_of room.now) numbers.now }
    ensures value { result ≡ d.value (scope_of room.now) (sample_of numbers.now) (exp_of source.now) (w.assigned (w.signal_form (rows_of room.now) variable).width (w.form (names_of room.now) (exp_of source.now))) % 2 ^ (w.signal_form (rows_of room.now) variable).width }
    ensures fits { result < 2 ^ (w.signal_form (rows_of room.now) variable).width }
{
    let width = signal_form(room, variable).width;
    let context = assigned(width, form_of(room, source));
    resize(value(room, numbers, source, context), false, width as u8).value
}

/// The number of a loop variable after an assignment of a header.
fn number_after(room: &Room<'_>, numbers: &[u128], variable: u32, s: &Stmt) -> u128
    requires named { IsNamed (names_of room.now) variable }
    requires loops { is_loop (rows_of room.now) variable ≡ true }
    requires head { IsHead (names_of room.now) variable (stm_of s.now) }
    requires numbers { AreNumbers (rows_of room.now) numbers.now }
    ensures state { exec (scope_of room.now) (stm [] (stm_of s.now)) (state_of numbers.now) ≡ state_of (slice_set numbers.now variable result) }
    ensures numbers { AreNumbers (rows_of room.now) (slice_set numbers.now variable result) }
{
    match &s.node {
        StmtNode::Set(_, source) => number_assigned(room, numbers, variable, source),
        _ => 0,
    }
}

/// Assigns to a loop variable.
#[tactic(auto, using(crate::proofs::SteppingOfHeader::steps))]
fn assign(room: &Room<'_>, numbers: &mut [u128], variable: u32, s: &Stmt)
    requires named { IsNamed (names_of room.now) variable }
    requires loops { is_loop (rows_of room.now) variable ≡ true }
    requires head { IsHead (names_of room.now) variable (stm_of s.now) }
    requires numbers { AreNumbers (rows_of room.now) numbers.old }
    ensures state { exec (scope_of room.now) (stm [] (stm_of s.now)) (state_of numbers.old) ≡ state_of numbers.new }
    ensures numbers { AreNumbers (rows_of room.now) numbers.new }
    ensures others { (v : ℕ) → slice_set numbers.old variable v ≡ slice_set numbers.new variable v }
{
    let number = number_after(room, numbers, variable, s);
    numbers[variable as usize] = number;
}

/// The turns of a loop.
#[derive(Drop)]
pub struct Turns {
    /// The number of the loop variable in each, at most 4,096.
    pub numbers: Vec<u128>,
    /// There are more.
    pub endless: bool,
}

/// The turns of a loop, from its first assignment on; the number of its variable is changed.
#[tactic(auto, using(crate::proofs::SteppingOfHeader::steps))]
fn all_turns(
    alloc: Global,
    room: &Room<'_>,
    numbers: &mut [u128],
    variable: u32,
    test: &Expr,
    step: &Stmt,
) -> Result<Turns, AllocError>
    requires named { IsNamed (names_of room.now) variable }
    requires loops { is_loop (rows_of room.now) variable ≡ true }
    requires sound { IsSoundExp (names_of room.now) (exp_of test.now) }
    requires constant { IsHeader (rows_of room.now) (exp_of test.now) }
    requires head { IsHead (names_of room.now) variable (stm_of step.now) }
    requires numbers { AreNumbers (rows_of room.now) numbers.old }
    ensures turns { IfOk result (λ t. AreTurns (scope_of room.now) (exp_of test.now) (stm [] (stm_of step.now)) most_turns (state_of numbers.old) (map (λ v. state_of (slice_set numbers.old variable v)) t.numbers.items) t.endless) }
    ensures fits { IfOk result (λ t. All (λ v. AreNumbers (rows_of room.now) (slice_set numbers.old variable v)) t.numbers.items) }
    ensures others { IfOk result (λ t. (v : ℕ) → slice_set numbers.old variable v ≡ slice_set numbers.new variable v) }
{
    let mut all = Vec::new(alloc);
    for turn in 0..4096_u32 {
        if !holds(room, numbers, test) {
            return Ok(Turns {
                numbers: all,
                endless: false,
            });
        }
        all.push(numbers[variable as usize])?;
        assign(room, numbers, variable, step);
    }
    Ok(Turns {
        numbers: all,
        endless: holds(room, numbers, test),
    })
}

/// The turns of a loop: the number of its variable in each, and whether there are more than 4,096.
#[tactic(auto, using(crate::proofs::SteppingOfHeader::steps))]
pub fn turns_of(
    alloc: Global,
    room: &Room<'_>,
    numbers: &mut [u128],
    variable: u32,
    start: &Stmt,
    test: &Expr,
    step: &Stmt,
) -> Result<Turns, AllocError>
    requires named { IsNamed (names_of room.now) variable }
    requires loops { is_loop (rows_of room.now) variable ≡ true }
    requires start { IsHead (names_of room.now) variable (stm_of start.now) }
    requires sound { IsSoundExp (names_of room.now) (exp_of test.now) }
    requires constant { IsHeader (rows_of room.now) (exp_of test.now) }
    requires step { IsHead (names_of room.now) variable (stm_of step.now) }
    requires numbers { AreNumbers (rows_of room.now) numbers.old }
    ensures turns { IfOk result (λ t. AreTurns (scope_of room.now) (exp_of test.now) (stm [] (stm_of step.now)) most_turns (exec (scope_of room.now) (stm [] (stm_of start.now)) (state_of numbers.old)) (map (λ v. state_of (slice_set numbers.old variable v)) t.numbers.items) t.endless) }
    ensures fits { IfOk result (λ t. All (λ v. AreNumbers (rows_of room.now) (slice_set numbers.old variable v)) t.numbers.items) }
    ensures kept { IfOk result (λ t. numbers.new ≡ numbers.old) }
{
    let before = numbers[variable as usize];
    assign(room, numbers, variable, start);
    let all = all_turns(alloc, room, numbers, variable, test, step)?;
    numbers[variable as usize] = before;
    Ok(all)
}
