//! Cells, writes and banks in words, for whoever wants to look inside: `tools/show.py` asks for them.

use cell_emit::cell::{Cell, CellList};
use cell_emit::table::State;
use fab_model::parcel::Parcel;
use std::alloc::{AllocError, Global};
use ten_core::image::Image;

/// Adds a cell: its slot, what it does, the slots of its operands, its width in bits, and its constant.
fn push_cell(alloc: Global, text: &mut String, slot: u128, cell: &Cell) -> Result<(), AllocError> {
    let (op, args) = (cell.op, cell.args.as_slice());
    let words = format!(in alloc; "  {slot} {op:?} {args:?} {} {}\n", cell.width, cell.low)?;
    text.push_str(words.as_str())
}

/// Adds the cells of a list, and the writes behind them.
fn push_list(alloc: Global, text: &mut String, list: &CellList) -> Result<(), AllocError> {
    for (number, cell) in list.cells.as_slice().iter().enumerate() {
        push_cell(alloc, text, u128::from(list.first) + number as u128, cell)?;
    }
    for write in list.sets.as_slice() {
        let write = *write;
        let words = format!(in alloc; "  {write:?}\n")?;
        text.push_str(words.as_str())?;
    }
    Ok(())
}

/// Adds a state: its number, the states that it leads to, the slots that its trap is given, if it has one, its cells and its writes.
fn push_state(
    alloc: Global,
    text: &mut String,
    number: usize,
    state: &State,
) -> Result<(), AllocError> {
    let nexts = state.nexts.as_slice();
    let words = format!(in alloc; "{number} to {nexts:?}\n")?;
    text.push_str(words.as_str())?;
    if let Some(trap) = &state.trap {
        let args = trap.args.as_slice();
        let words = format!(in alloc; "  trap {args:?} answer {}\n", trap.answer)?;
        text.push_str(words.as_str())?;
    }
    push_list(alloc, text, &state.cells)
}

/// The states of an image, each with its cells and writes.
pub fn cells_text(alloc: Global, image: &Image) -> Result<String, AllocError> {
    let mut text = format!(in alloc; "cells rise {}\n", image.rise)?;
    for (number, state) in image.table.states.as_slice().iter().enumerate() {
        push_state(alloc, &mut text, number, state)?;
    }
    Ok(text)
}

/// What the bank of a run of so many ticks holds at its end: the registers, and a line for each memory.
pub fn bank_text(alloc: Global, ticks: u64, parcel: &Parcel) -> Result<String, AllocError> {
    let mut text = format!(in alloc; "bank {ticks}\n")?;
    let Parcel::Rests(tenant) = parcel else {
        text.push_str("over\n")?;
        return Ok(text);
    };
    let regs = tenant.bank.regs.as_slice();
    let words = format!(in alloc; "{regs:?}\n")?;
    text.push_str(words.as_str())?;
    for memory in &tenant.bank.mems {
        let values = memory.as_slice();
        let words = format!(in alloc; "{values:?}\n")?;
        text.push_str(words.as_str())?;
    }
    Ok(text)
}
