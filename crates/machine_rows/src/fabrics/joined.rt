//! Two parts of a joined bank, each of which turns the bits of its register 0 in every cycle.

ghost use Rattle.std.specs.Prelude.{◌≡◌, ◌<◌, [], ◌∷◌, length, map, pos, IfOk};
ghost use Rattle.cell_emit.specs.cell_form.specs.Views.{bank_of, cell_of, list_of, table_of};
ghost use Rattle.cell_emit.specs.cell_form.specs.Sound.{shape_of, IsList};
ghost use Rattle.fab_core.specs.fab_join.specs.Parts.{part_at, IsTable};

use crate::fabrics::arrivals::{number_of, word};
use cell_emit::cell::{Cell, CellList, CellOp, Write};
use cell_emit::table::{State, StateTable};
use cell_emit::{Bank, PortMap};
use fab_core::joined::Joined;
use smallvec::SmallVec;
use std::alloc::{AllocError, Global};
use vl_design::{Items, Nums, UnOp};

/// The register 0, and its bits turned.
fn cells(alloc: Global) -> Result<Vec<Cell>, AllocError>
    ensures { IfOk result (λ v. map cell_of v.items ≡ (record { op = CellOp.Reg 0; args = []; width = 8; low = pos 0 }) ∷ (record { op = CellOp.Un UnOp.Not; args = 0 ∷ []; width = 8; low = pos 0 }) ∷ []) }
{
    let mut args = SmallVec::new(alloc);
    args.push(0)?;
    let read = Cell {
        op: CellOp::Reg(0),
        args: SmallVec::new(alloc),
        width: 8,
        low: 0,
    };
    let turned = Cell {
        op: CellOp::Un(UnOp::Not),
        args,
        width: 8,
        low: 0,
    };
    Ok(Vec::from_array(alloc, [read, turned])?)
}

/// The bits of register 0 are turned.
fn list(alloc: Global) -> Result<CellList, AllocError>
    ensures { IfOk result (λ l. IsList (record { regs = 2; mems = 0; slots = 2 }) (list_of l)) }
{
    let sets = Items::from_vec(Vec::from_array(alloc, [Write::Reg(0, 1)])?);
    let cells = Items::from_vec(cells(alloc)?);
    Ok(CellList {
        first: 0,
        cells,
        sets,
    })
}

/// One state, which does so. The state register is 1.
fn table(alloc: Global) -> Result<StateTable, AllocError>
    ensures { IfOk result (λ t. IsTable (record { regs = 2; mems = 0; slots = 2 }) (table_of t)) }
{
    let nexts = Nums::from_vec(Vec::from_array(alloc, [0])?);
    let state = State {
        cells: list(alloc)?,
        trap: None,
        nexts,
    };
    let states = Items::from_vec(Vec::from_array(alloc, [state])?);
    Ok(StateTable { state: 1, states })
}

/// A bank with this in register 0.
fn bank(alloc: Global, value: u128) -> Result<Bank, AllocError>
    ensures { IfOk result (λ b. shape_of (bank_of b) ≡ record { regs = 2; mems = 0; slots = 2 }) }
{
    Ok(Bank {
        regs: Vec::from_array(alloc, [value, 0])?,
        mems: Vec::new(alloc),
        slots: Vec::from_array(alloc, [0, 0])?,
    })
}

/// Two parts of this table, these ports and this bank.
fn twice(
    alloc: Global,
    table: &StateTable,
    ports: &PortMap,
    zero: &Bank,
) -> Result<Joined, AllocError>
    requires { IsTable (shape_of (bank_of zero.now)) (table_of table.now) }
    ensures length { IfOk result (λ j. length j ≡ 2) }
    ensures shape { IfOk result (λ j. shape_of (part_at j 1).bank ≡ shape_of (bank_of zero.now)) }
{
    let mut joined = Joined::new(alloc);
    joined.add(alloc, table, ports, zero)?;
    joined.add(alloc, table, ports, zero)?;
    Ok(joined)
}

/// Two such parts.
fn pair(alloc: Global) -> Result<Joined, AllocError>
    ensures length { IfOk result (λ j. length j ≡ 2) }
    ensures shape { IfOk result (λ j. shape_of (part_at j 1).bank ≡ record { regs = 2; mems = 0; slots = 2 }) }
{
    let zero = bank(alloc, 0)?;
    let table = table(alloc)?;
    let ports = PortMap {
        ports: Items::new(alloc),
    };
    twice(alloc, &table, &ports, &zero)
}

/// A line of the registers and the slots of a part.
fn line_of(alloc: Global, joined: &Joined, part: u32) -> Result<String, AllocError>
    requires { part < length joined.now }
{
    let bank = joined.part_of(alloc, part)?;
    let (regs, slots) = (bank.regs.as_slice(), bank.slots.as_slice());
    format!(in alloc; "part {part} {regs:?} {slots:?}\n")
}

/// A line of each of the two parts.
fn lines_of(alloc: Global, joined: &Joined) -> Result<String, AllocError>
    requires { 1 < length joined.now }
{
    let first = line_of(alloc, joined, 0)?;
    let second = line_of(alloc, joined, 1)?;
    format!(in alloc; "{first}{second}")
}

/// What becomes of the two parts: the second is given the number of the order for its register 0 and steps, and then the first steps.
pub fn answers(alloc: Global, order: &str) -> Result<String, AllocError> {
    let mut joined = pair(alloc)?;
    joined.put_part(1, bank(alloc, u128::from(number_of(word(order, 1))))?);
    let (count, state) = (joined.len(), joined.step(1));
    let second = lines_of(alloc, &joined)?;
    joined.step(0);
    let both = lines_of(alloc, &joined)?;
    format!(in alloc; "{count} parts, state {state}\n{second}{both}")
}
