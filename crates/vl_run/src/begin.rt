//! What the body of a function begins with (IEEE 1364-2005, clause 10.4).

ghost use Rattle.std.specs.Prelude.{◌≡◌, ◌++◌, ◌∷◌, [], IfOk, OnOk, map};
ghost use Rattle.vl_design.specs.Functions.{fresh, zeros, with_inputs};
ghost use Rattle.vl_design.specs.Trees.{row_of};
ghost use Rattle.vl_design.specs.Value as v;
ghost use Rattle.vl_eval.specs.Rooms.{names_of};
ghost use Rattle.vl_run.specs.Machines.{state_of};

use crate::machine::{Machine, put};
use std::alloc::{AllocError, Global};
use vl_design::design::{Func, Signal};
use vl_design::words::Kept;
use vl_eval::room::Room;
use vl_eval::selects::word_count;

/// Adds the words of signals, all 0.
#[tactic(auto, using(crate::proofs::Calling::calling))]
fn push_zeros(alloc: Global, signals: &[Signal], values: &mut Vec<Kept>) -> Result<(), AllocError>
    ensures { OnOk result (values.new.items ≡ values.old.items ++ zeros (map row_of signals.now)) }
{
    for signal in signals {
        values.push(Kept::zeros(alloc, word_count(signal) as usize)?)?;
    }
    Ok(())
}

/// The words of the signals of a room, all 0.
#[tactic(auto, using(crate::proofs::Calling::calling))]
pub fn zero_values(alloc: Global, room: &Room<'_>) -> Result<Vec<Kept>, AllocError>
    ensures { IfOk result (λ v. v.items ≡ zeros (names_of room.now).rows) }
{
    let mut values = Vec::new(alloc);
    push_zeros(alloc, room.signals, &mut values)?;
    push_zeros(alloc, room.locals, &mut values)?;
    Ok(values)
}

/// One word.
fn one_word(alloc: Global, value: u128) -> Result<Kept, AllocError>
    ensures { IfOk result (λ k. k ≡ value ∷ []) }
{
    let mut kept = Kept::zeros(alloc, 1)?;
    kept.set(0, value);
    Ok(kept)
}

/// Assigns the values of arguments to inputs.
#[tactic(auto, using(crate::proofs::Calling::calling))]
fn put_inputs(
    alloc: Global,
    inputs: &[u32],
    args: &[u128],
    values: &mut Vec<Kept>,
) -> Result<(), AllocError>
    ensures { OnOk result (values.new.items ≡ with_inputs inputs.now args.now values.old.items) }
{
    let mut left = args;
    for input in inputs {
        match left {
            [] => return Ok(()),
            [first, others @ ..] => {
                put(values, *input, one_word(alloc, *first)?);
                left = others;
            }
        }
    }
    Ok(())
}

/// The machine that has these values, in which nothing else has happened.
pub fn fresh_machine(alloc: Global, values: Vec<Kept>) -> Machine
    ensures state { state_of result 0 ≡ fresh values.items }
    ensures later { result.later.items ≡ [] }
{
    Machine {
        values,
        later: Vec::new(alloc),
        printed: Vec::new(alloc),
        table: Vec::new(alloc),
        saves: Vec::new(alloc),
        answer: 0,
        ticks: 0,
        finished: false,
    }
}

/// The machine in which the body of a function begins, for these values of its inputs.
pub fn begin(
    alloc: Global,
    room: &Room<'_>,
    func: &Func,
    args: &[u128],
) -> Result<Machine, AllocError>
    ensures state { IfOk result (λ m. state_of m 0 ≡ fresh (with_inputs func.now.inputs args.now (zeros (names_of room.now).rows))) }
    ensures later { IfOk result (λ m. m.later.items ≡ []) }
{
    let mut values = zero_values(alloc, room)?;
    put_inputs(alloc, func.inputs.as_slice(), args, &mut values)?;
    Ok(fresh_machine(alloc, values))
}

/// The value of a net or a variable; 0 where there is no such signal.
pub fn value_of(values: &[Kept], number: u32) -> u128
    ensures { result ≡ v.value_of values.now number }
{
    match values.get(number as usize) {
        None => 0,
        Some(kept) => kept.word(0),
    }
}
