//! Names and words as cells (IEEE 1364-2005, clause 5.2).

ghost use Rattle.std.specs.Prelude.{◌≡◌, ◌+◌, ◌≤◌, ◌%◌, ◌^◌, ◌-ℤ◌, IfOk};
ghost use Rattle.vl_base.specs.Value.{resized, reading};
ghost use Rattle.vl_design.specs.Sound.{IsMemory, IsSignal, IsWidth};
ghost use Rattle.vl_design.specs.Trees.{lower_of};
ghost use Rattle.vl_design.specs.Width as w;
ghost use Rattle.vl_eval.specs.Rooms as rooms;
ghost use Rattle.cell_emit.specs.cell_form.specs.Views.{list_of};
ghost use Rattle.cell_emit.specs.Slots.{held, width_at, IsIn, Grows, Gives, Nothing};
ghost use Rattle.cell_emit.specs.Envs.{env_of, entry, held_or, Fits, IsThere};
ghost use Rattle.cell_emit.specs.Counts.{resizes};
ghost use Rattle.cell_expr.specs.Words.{word_read, lowest_in};

use crate::context::entry_of;
use cell_emit::at::At;
use cell_emit::cell::CellList;
use cell_emit::reads::{nothing, read, word};
use std::alloc::{AllocError, Global};
use vl_design::design::Form;
use vl_eval::eval::signal_at;
use vl_eval::form::signal_form;
use vl_eval::room::Room;

/// The value of a net, a variable or a local in a context.
#[tactic(auto, using(crate::proofs::Leaves::leaves))]
pub fn read_signal(
    alloc: Global,
    cells: &mut CellList,
    room: &Room<'_>,
    at: &At,
    signal: u32,
    c: Form,
) -> Result<u32, AllocError>
    requires signal { IsSignal (rooms.names_of room.now) signal }
    requires width { IsWidth c.width }
    requires fits { Fits (rooms.names_of room.now) (list_of cells.old) (env_of at.now) }
    ensures grows { Grows (list_of cells.old) (list_of cells.new) }
    ensures gives { IfOk result (λ r. Gives Nothing 1 (list_of cells.old) (list_of cells.new) r c.width
        (λ b. resized c.signed (w.signal_form (rooms.names_of room.now).rows signal).width c.width (held_or b (list_of cells.old) (entry (env_of at.now) signal)))) }
{
    match entry_of(at, signal) {
        None => nothing(alloc, cells, c.width as u8),
        Some(slot) => read(alloc, cells, slot, c.signed, c.width as u8),
    }
}

/// The lower of two numbers.
pub fn lower(a: i32, b: i32) -> i64
    ensures { result ≡ lower_of a b }
{
    if a <= b { i64::from(a) } else { i64::from(b) }
}

/// A word of a memory in a context, by the slot of its address.
#[tactic(auto, using(crate::proofs::Leaves::leaves))]
pub fn read_word(
    alloc: Global,
    cells: &mut CellList,
    room: &Room<'_>,
    at: &At,
    memory: u32,
    address: u32,
    signed: bool,
    c: Form,
) -> Result<u32, AllocError>
    requires memory { IsMemory (rooms.names_of room.now) memory }
    requires address { IsIn (list_of cells.old) address }
    requires width { IsWidth c.width }
    ensures grows { Grows (list_of cells.old) (list_of cells.new) }
    ensures gives { IfOk result (λ r. Gives (λ s. IsThere s (entry (env_of at.now) memory)) (1 + resizes (w.signal_form (rooms.names_of room.now).rows memory).width c.width) (list_of cells.old) (list_of cells.new) r c.width
        (λ b. resized c.signed (w.signal_form (rooms.names_of room.now).rows memory).width c.width
        (word_read b (entry (env_of at.now) memory) (reading signed (width_at (list_of cells.old) address) (held b (list_of cells.old) address) -ℤ lowest_in (rooms.names_of room.now).rows memory) % 2 ^ (w.signal_form (rooms.names_of room.now).rows memory).width))) }
{
    let own = signal_form(room, memory).width as u8;
    let row = signal_at(room, memory);
    let lowest = lower(row.first, row.last);
    match entry_of(at, memory) {
        None => nothing(alloc, cells, c.width as u8),
        Some(number) => word(
            alloc,
            cells,
            number,
            address,
            signed,
            lowest,
            own,
            c.signed,
            c.width as u8,
        ),
    }
}
