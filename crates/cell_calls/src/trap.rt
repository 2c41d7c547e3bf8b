//! Traps that are given nothing, or one descriptor.

ghost use Rattle.std.specs.Prelude.{◌≡◌, ◌∷◌, [], IfOk, false, Option};
ghost use Rattle.cell_emit.specs.cell_form.specs.declared.table.TrapCall.TheVariants as k;
ghost use Rattle.ten_form.specs.Registers.{answer_register};

use cell_emit::table::{Trap, TrapCall};
use std::alloc::{AllocError, Global};
use ten_form::places::ANSWER;
use vl_base::items::{Items, Nums};

/// The trap of a call that is given nothing.
pub(crate) fn given_nothing(alloc: Global, call: TrapCall, target: Option<u32>) -> Trap
    ensures { result ≡ record { call = call; args = []; answer = answer_register; target = target } }
{
    Trap {
        call,
        args: Nums::new(alloc),
        answer: ANSWER,
        target,
    }
}

/// The trap of a call on the open file whose descriptor a slot holds.
pub(crate) fn given_file(
    alloc: Global,
    call: TrapCall,
    slot: u32,
    target: Option<u32>,
) -> Result<Trap, AllocError>
    ensures { IfOk result (λ t. t ≡ record { call = call; args = slot ∷ []; answer = answer_register; target = target }) }
{
    let args = Nums::from_vec(vec![in alloc; slot]?);
    Ok(Trap {
        call,
        args,
        answer: ANSWER,
        target,
    })
}

/// The trap of a call that prints nothing, as one of an unknown name does.
pub(crate) fn silent(alloc: Global) -> Trap
    ensures { result ≡ record { call = k.Print [] false; args = []; answer = answer_register; target = Option.None } }
{
    given_nothing(alloc, TrapCall::Print(Items::new(alloc), false), None)
}
