//! Tables and ports under the numbers of a place.

ghost use Rattle.std.specs.Prelude.{◌≡◌, ◌+◌, map, IfOk};
ghost use Rattle.std.specs.Option.{option_map};
ghost use Rattle.trap_runtime.specs.cell_form.specs.Views.{cell_of, list_of, state_of, table_of};
ghost use Rattle.fab_join.specs.Laid.{shape_of_span};
ghost use Rattle.fab_join.specs.Numbers.{behind, numbered_op, numbered_cell, numbered_write, numbered_list, numbered_target, numbered_trap, numbered_state, numbered_table, numbered_port};

use crate::span::Span;
use cell_eval::{Items, Nums, Text};
use smallvec::SmallVec;
use std::alloc::{AllocError, Global};
use trap_runtime::cell::{Cell, CellList, CellOp, Write};
use trap_runtime::table::{FormatPart, State, StateTable, Trap, TrapCall};
use trap_runtime::{Port, PortMap};

/// A number behind so many others; one of more than 32 bits wants memory that there isn't.
fn raised(base: u32, number: u32) -> Result<u32, AllocError>
    ensures { IfOk result (λ n. n ≡ base + number) }
{
    base.checked_add(number).ok_or(AllocError)
}

/// The slots of a cell's operands.
fn operands_at(alloc: Global, base: u32, slots: &[u32]) -> Result<SmallVec<u32, 4>, AllocError>
    ensures { IfOk result (λ v. v.items ≡ map (λ s. base + s) slots.now) }
{
    let mut all = SmallVec::new(alloc);
    for slot in slots {
        all.push(raised(base, *slot)?)?;
    }
    Ok(all)
}

/// What a cell does.
fn op_at(place: Span, op: CellOp) -> Result<CellOp, AllocError>
    ensures { IfOk result (λ x. x ≡ numbered_op (behind (shape_of_span place)) op) }
{
    match op {
        CellOp::Reg(register) => Ok(CellOp::Reg(raised(place.regs, register)?)),
        CellOp::MemRead(memory, signed) => {
            Ok(CellOp::MemRead(raised(place.mems, memory)?, signed))
        }
        _ => Ok(op),
    }
}

/// A cell.
fn cell_at(alloc: Global, place: Span, cell: &Cell) -> Result<Cell, AllocError>
    ensures { IfOk result (λ c. cell_of c ≡ numbered_cell (behind (shape_of_span place)) (cell_of cell.now)) }
{
    let op = op_at(place, cell.op)?;
    let args = operands_at(alloc, place.slots, cell.args.as_slice())?;
    Ok(Cell {
        op,
        args,
        width: cell.width,
        low: cell.low,
    })
}

/// Cells.
fn cells_at(alloc: Global, place: Span, cells: &[Cell]) -> Result<Vec<Cell>, AllocError>
    ensures { IfOk result (λ v. map cell_of v.items ≡ map (numbered_cell (behind (shape_of_span place))) (map cell_of cells.now)) }
{
    let mut all = Vec::new(alloc);
    for cell in cells {
        all.push(cell_at(alloc, place, cell)?)?;
    }
    Ok(all)
}

/// A write.
fn write_at(place: Span, write: Write) -> Result<Write, AllocError>
    ensures { IfOk result (λ x. x ≡ numbered_write (behind (shape_of_span place)) write) }
{
    match write {
        Write::Reg(register, slot) => Ok(Write::Reg(
            raised(place.regs, register)?,
            raised(place.slots, slot)?,
        )),
        Write::Mem(memory, enable, word, new, mask) => Ok(Write::Mem(
            raised(place.mems, memory)?,
            raised(place.slots, enable)?,
            raised(place.slots, word)?,
            raised(place.slots, new)?,
            raised(place.slots, mask)?,
        )),
    }
}

/// Writes.
fn writes_at(alloc: Global, place: Span, writes: &[Write]) -> Result<Vec<Write>, AllocError>
    ensures { IfOk result (λ v. v.items ≡ map (numbered_write (behind (shape_of_span place))) writes.now) }
{
    let mut all = Vec::new(alloc);
    for write in writes {
        all.push(write_at(place, *write)?)?;
    }
    Ok(all)
}

/// A list of cells.
fn list_at(alloc: Global, place: Span, list: &CellList) -> Result<CellList, AllocError>
    ensures { IfOk result (λ l. list_of l ≡ numbered_list (behind (shape_of_span place)) (list_of list.now)) }
{
    let first = raised(place.slots, list.first)?;
    let cells = cells_at(alloc, place, list.cells.as_slice())?;
    let sets = writes_at(alloc, place, list.sets.as_slice())?;
    Ok(CellList {
        first,
        cells: Items::from_vec(cells),
        sets: Items::from_vec(sets),
    })
}

/// Numbers behind so many others.
fn numbers_at(alloc: Global, base: u32, numbers: &[u32]) -> Result<Nums, AllocError>
    ensures { IfOk result (λ v. v ≡ map (λ s. base + s) numbers.now) }
{
    let mut all = Vec::new(alloc);
    for number in numbers {
        all.push(raised(base, *number)?)?;
    }
    Ok(Nums::from_vec(all))
}

/// The same text.
fn copied(alloc: Global, text: &Text) -> Result<Text, AllocError>
    ensures { IfOk result (λ t. t ≡ text.now) }
{
    Ok(Text::from_vec(Vec::from_slice(alloc, text.as_slice())?))
}

/// The same part of a text.
fn copied_part(alloc: Global, part: &FormatPart) -> Result<FormatPart, AllocError>
    ensures { IfOk result (λ p. p ≡ part.now) }
{
    match part {
        FormatPart::Lit(text) => Ok(FormatPart::Lit(copied(alloc, text)?)),
        FormatPart::Item(letter, least, width, signed) => {
            Ok(FormatPart::Item(*letter, *least, *width, *signed))
        }
    }
}

/// The same parts of a text.
fn copied_parts(alloc: Global, parts: &[FormatPart]) -> Result<Items<FormatPart>, AllocError>
    ensures { IfOk result (λ v. v ≡ parts.now) }
{
    let mut all = Vec::new(alloc);
    for part in parts {
        all.push(copied_part(alloc, part)?)?;
    }
    Ok(Items::from_vec(all))
}

/// The same call.
fn copied_call(alloc: Global, call: &TrapCall) -> Result<TrapCall, AllocError>
    ensures { IfOk result (λ c. c ≡ call.now) }
{
    match call {
        TrapCall::Print(parts, newline) => {
            Ok(TrapCall::Print(copied_parts(alloc, parts.as_slice())?, *newline))
        }
        TrapCall::Finish => Ok(TrapCall::Finish),
        TrapCall::Save(name) => Ok(TrapCall::Save(copied(alloc, name)?)),
        TrapCall::Fopen(name) => Ok(TrapCall::Fopen(copied(alloc, name)?)),
        TrapCall::Fread(width) => Ok(TrapCall::Fread(*width)),
        TrapCall::Fgetc => Ok(TrapCall::Fgetc),
        TrapCall::Feof => Ok(TrapCall::Feof),
        TrapCall::Fclose => Ok(TrapCall::Fclose),
        TrapCall::ReadHex(name, width, first, last) => {
            Ok(TrapCall::ReadHex(copied(alloc, name)?, *width, *first, *last))
        }
    }
}

/// The target of a call: a memory where it reads one from a file, else a register.
fn target_at(place: Span, call: &TrapCall, target: u32) -> Result<u32, AllocError>
    ensures { IfOk result (λ n. n ≡ numbered_target (behind (shape_of_span place)) call.now target) }
{
    match call {
        TrapCall::ReadHex(_, _, _, _) => raised(place.mems, target),
        _ => raised(place.regs, target),
    }
}

/// The target of a call that may have none.
fn targets_at(place: Span, call: &TrapCall, target: Option<u32>) -> Result<Option<u32>, AllocError>
    ensures { IfOk result (λ n. n ≡ option_map (numbered_target (behind (shape_of_span place)) call.now) target) }
{
    match target {
        None => Ok(None),
        Some(number) => Ok(Some(target_at(place, call, number)?)),
    }
}

/// A trap.
fn trap_at(alloc: Global, place: Span, trap: &Trap) -> Result<Trap, AllocError>
    ensures { IfOk result (λ t. t ≡ numbered_trap (behind (shape_of_span place)) trap.now) }
{
    let target = targets_at(place, &trap.call, trap.target)?;
    let answer = raised(place.regs, trap.answer)?;
    let args = numbers_at(alloc, place.slots, trap.args.as_slice())?;
    let call = copied_call(alloc, &trap.call)?;
    Ok(Trap {
        call,
        args,
        answer,
        target,
    })
}

/// A trap that may not be there.
fn traps_at(alloc: Global, place: Span, trap: &Option<Trap>) -> Result<Option<Trap>, AllocError>
    ensures { IfOk result (λ t. t ≡ option_map (numbered_trap (behind (shape_of_span place))) trap.now) }
{
    match trap {
        None => Ok(None),
        Some(one) => Ok(Some(trap_at(alloc, place, one)?)),
    }
}

/// A state. The states that it leads to are its table's, and keep their numbers.
fn state_at(alloc: Global, place: Span, state: &State) -> Result<State, AllocError>
    ensures { IfOk result (λ s. state_of s ≡ numbered_state (behind (shape_of_span place)) (state_of state.now)) }
{
    let nexts = Nums::from_vec(Vec::from_slice(alloc, state.nexts.as_slice())?);
    let cells = list_at(alloc, place, &state.cells)?;
    let trap = traps_at(alloc, place, &state.trap)?;
    Ok(State { cells, trap, nexts })
}

/// States.
fn states_at(alloc: Global, place: Span, states: &[State]) -> Result<Vec<State>, AllocError>
    ensures { IfOk result (λ v. map state_of v.items ≡ map (numbered_state (behind (shape_of_span place))) (map state_of states.now)) }
{
    let mut all = Vec::new(alloc);
    for state in states {
        all.push(state_at(alloc, place, state)?)?;
    }
    Ok(all)
}

/// A table under the numbers of a place.
pub(crate) fn table_at(
    alloc: Global,
    place: Span,
    table: &StateTable,
) -> Result<StateTable, AllocError>
    ensures { IfOk result (λ t. table_of t ≡ numbered_table (behind (shape_of_span place)) (table_of table.now)) }
{
    let state = raised(place.regs, table.state)?;
    let states = states_at(alloc, place, table.states.as_slice())?;
    Ok(StateTable {
        state,
        states: Items::from_vec(states),
    })
}

/// A port.
fn port_at(place: Span, port: Port) -> Result<Port, AllocError>
    ensures { IfOk result (λ p. p ≡ numbered_port (behind (shape_of_span place)) port) }
{
    let base = if port.mem { place.mems } else { place.regs };
    let value = raised(base, port.value)?;
    let work = raised(base, port.work)?;
    Ok(Port {
        mem: port.mem,
        value,
        work,
        width: port.width,
        words: port.words,
    })
}

/// Ports under the numbers of a place.
pub(crate) fn ports_at(alloc: Global, place: Span, from: &PortMap) -> Result<PortMap, AllocError>
    ensures { IfOk result (λ m. m.ports ≡ map (numbered_port (behind (shape_of_span place))) from.now.ports) }
{
    let mut all = Vec::new(alloc);
    for port in from.ports.as_slice() {
        all.push(port_at(place, *port)?)?;
    }
    Ok(PortMap {
        ports: Items::from_vec(all),
    })
}
