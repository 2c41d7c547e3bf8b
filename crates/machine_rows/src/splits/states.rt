//! Tables of states in words: a line for each, with the registers that it sets, or its trap, and the states that it leads to.

use crate::splits::writes::push_name;
use cell_emit::cell::Write;
use cell_emit::table::State;
use std::alloc::{AllocError, Global};
use ten_core::image::Image;
use vl_design::design::Signal;

/// The registers that writes set, in ascending order.
fn registers(alloc: Global, sets: &[Write]) -> Result<Vec<u32>, AllocError> {
    let mut all = Vec::new(alloc);
    for write in sets {
        match write {
            Write::Reg(register, _) => all.push(*register)?,
            Write::Mem(_, _, _, _, _) => (),
        }
    }
    all.sort()?;
    Ok(all)
}

/// Which of a signal's registers it is.
fn copy_word(register: u32) -> &'static str {
    match register % 4 {
        3 => ".value",
        0 => ".work",
        1 => ".update",
        _ => ".mask",
    }
}

/// Which of the registers of a pending write to a word it is.
fn store_word(register: u32) -> &'static str {
    match register % 4 {
        3 => " enable",
        0 => " word",
        1 => " new",
        _ => " bits",
    }
}

/// Adds the name of a signal of this number.
fn push_signal(text: &mut String, signals: &[Signal], number: u32) -> Result<(), AllocError> {
    match signals.get(number as usize) {
        Some(signal) => push_name(text, signal.name.as_slice()),
        None => text.push('?'),
    }
}

/// Adds a register by its name. Those behind the signals' are of pending writes to words of memories.
fn push_register(text: &mut String, signals: &[Signal], register: u32) -> Result<(), AllocError> {
    if register < 3 {
        return text.push_str(match register {
            0 => " state",
            1 => " answer",
            _ => " ticks",
        });
    }
    let number = (register - 3) / 4;
    if number as usize >= signals.len() {
        return text.push_str(store_word(register));
    }
    text.push(' ')?;
    push_signal(text, signals, number)?;
    text.push_str(copy_word(register))
}

/// Adds the memories of which words are written.
fn push_memories(text: &mut String, signals: &[Signal], sets: &[Write]) -> Result<(), AllocError> {
    for write in sets {
        if let Write::Mem(memory, _, _, _, _) = write {
            text.push(' ')?;
            push_signal(text, signals, *memory)?;
            text.push_str("[]")?;
        }
    }
    Ok(())
}

/// Adds what a state sets, or how many values its trap is given.
fn push_work(
    alloc: Global,
    text: &mut String,
    signals: &[Signal],
    state: &State,
) -> Result<(), AllocError> {
    match &state.trap {
        Some(trap) => {
            let words = format!(in alloc; " trap {}", trap.args.as_slice().len())?;
            text.push_str(words.as_str())
        }
        None => {
            text.push_str(" sets")?;
            for register in &registers(alloc, state.cells.sets.as_slice())? {
                push_register(text, signals, *register)?;
            }
            push_memories(text, signals, state.cells.sets.as_slice())
        }
    }
}

/// The states of an image in words.
pub fn states_text(alloc: Global, image: &Image) -> Result<String, AllocError> {
    let signals = image.design.signals.as_slice();
    let mut text = format!(in alloc; "states rise {}\n", image.rise)?;
    for (number, state) in image.table.states.as_slice().iter().enumerate() {
        let words = format!(in alloc; "{number}")?;
        text.push_str(words.as_str())?;
        push_work(alloc, &mut text, signals, state)?;
        text.push_str(" to")?;
        for next in state.nexts.as_slice() {
            let words = format!(in alloc; " {next}")?;
            text.push_str(words.as_str())?;
        }
        text.push('\n')?;
    }
    Ok(text)
}
