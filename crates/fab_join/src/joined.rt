//! One bank of several parts.

ghost use Rattle.std.specs.Prelude.{◌≡◌, ◌+◌, ◌<◌, ◌%◌, ◌^◌, ◌++◌, ◌∷◌, [], true, length, slice_set, IfOk, IfSome, OnOk, OnErr};
ghost use Rattle.trap_runtime.specs.cell_form.specs.Views.{table_of, bank_of};
ghost use Rattle.trap_runtime.specs.cell_form.specs.Sound.{shape_of};
ghost use Rattle.trap_runtime.specs.ten_files.specs.Tables.{open_files, IsTableOf};
ghost use Rattle.trap_runtime.specs.Traps.{IsTrap};
ghost use Rattle.fab_join.specs.Traps.{trap_in, part_served, trap_takes_memory, way_of_trap};

use crate::bank::{copy_of, exchange, grow};
use crate::numbers::{ports_at, table_at};
use crate::serving::serve_present;
use crate::span::{Span, extent};
use crate::stepping::{cycle_present, state_register};
use cell_eval::files::FileSet;
use std::alloc::{AllocError, Global};
use std::marker::Model;
use trap_runtime::served::Served;
use trap_runtime::table::StateTable;
use trap_runtime::{Bank, PortMap, Table};

/// A part: its table and its ports with their numbers in the joined bank, and where it stands there.
#[derive(Drop)]
struct Part {
    table: StateTable,
    ports: PortMap,
    place: Span,
    size: Span,
}

/// Several parts in one bank. Contracts see each by its own numbers.
#[derive(Drop)]
pub struct Joined {
    bank: Bank,
    parts: Vec<Part>,
}

impl Model for Joined {
    ghost use Rattle.std.specs.Prelude.{List, map};
    ghost use Rattle.trap_runtime.specs.cell_form.specs.Views.{bank_of};
    ghost use Rattle.fab_join.specs.Parts.{PartData};

    ghost Value = { List PartData };

    ghost use Rattle.fab_join.specs.Laid.{part_data, IsLaid};

    ghost view = { λ j. map (part_data (bank_of j.bank)) j.parts.items };

    ghost invariant = { λ j. IsLaid (bank_of j.bank) j.parts.items };
}

impl Joined {
    ghost use Rattle.fab_join.specs.Parts.{PartData, part_at, stepped, state_in, with_bank, IsTable};

    /// No part.
    pub fn new(alloc: Global) -> Self
        ensures { result ≡ [] }
    {
        Joined {
            bank: Bank {
                regs: Vec::new(alloc),
                mems: Vec::new(alloc),
                slots: Vec::new(alloc),
            },
            parts: Vec::new(alloc),
        }
    }

    /// How many parts there are.
    pub fn len(&self) -> usize
        ensures { result ≡ length self.now }
    {
        self.parts.len()
    }

    /// Adds a last part: a table, its ports, and a copy of a bank. The others stay. Numbers that would need more than 32 bits want
    /// memory that there isn't.
    pub fn add(
        &mut self,
        alloc: Global,
        table: &StateTable,
        ports: &PortMap,
        zero: &Bank,
    ) -> Result<(), AllocError>
        requires { IsTable (shape_of (bank_of zero.now)) (table_of table.now) }
        ensures ok { OnOk result (self.new ≡ self.old ++ record { table = table_of table.now; ports = ports.now.ports; bank = bank_of zero.now } ∷ []) }
        ensures err { OnErr result (self.new ≡ self.old) }
    {
        let place = extent(&self.bank)?;
        let size = extent(zero)?;
        let ports = ports_at(alloc, place, ports)?;
        let table = table_at(alloc, place, table)?;
        grow(alloc, &mut self.bank, zero)?;
        self.parts.push(Part {
            table,
            ports,
            place,
            size,
        })?;
        Ok(())
    }

    /// One cycle of one part: its own cells on its own bank. The others stay. It answers the low 32 bits of what the part's state
    /// register then holds, and takes no memory.
    pub fn step(&mut self, part: u32) -> u32
        requires { part < length self.old }
        ensures stepped { self.new ≡ slice_set self.old part (stepped (part_at self.old part)) }
        ensures state { result ≡ state_in (stepped (part_at self.old part)) % 2 ^ 32 }
    {
        let table = &self.parts[part as usize].table;
        cycle_present(table, &mut self.bank);
        state_register(table, &self.bank)
    }

    /// A copy of a part's bank, by its own numbers.
    pub fn part_of(&self, alloc: Global, part: u32) -> Result<Bank, AllocError>
        requires { part < length self.now }
        ensures { IfOk result (λ b. bank_of b ≡ (part_at self.now part).bank) }
    {
        let place = self.parts[part as usize].place;
        let size = self.parts[part as usize].size;
        copy_of(alloc, &self.bank, place, size)
    }

    /// Exchanges what a part holds with a bank of its shape, by its own numbers. The others stay. Memories change places, and no word
    /// of them is copied, so a part is looked at as a bank of its own, and put back, at the cost of its registers and slots.
    pub fn swap_part(&mut self, part: u32, own: &mut Bank)
        requires there { part < length self.old }
        requires same { shape_of (bank_of own.old) ≡ shape_of (part_at self.old part).bank }
        ensures parts { self.new ≡ slice_set self.old part (with_bank (part_at self.old part) (bank_of own.old)) }
        ensures own { bank_of own.new ≡ (part_at self.old part).bank }
    {
        let place = self.parts[part as usize].place;
        exchange(&mut self.bank, place, own);
    }

    /// Sets what a part holds, by its own numbers. The others stay. Memories move there, and no word of them is copied.
    pub fn put_part(&mut self, part: u32, mut own: Bank)
        requires there { part < length self.old }
        requires same { shape_of (bank_of own) ≡ shape_of (part_at self.old part).bank }
        ensures { self.new ≡ slice_set self.old part (with_bank (part_at self.old part) (bank_of own)) }
    {
        self.swap_part(part, &mut own);
    }

    /// Serves the trap of the state that a part stands in, on the joined bank itself, so that nothing is copied: its effect on the part
    /// is that of the trap on the part's own bank, and the others stay. It says how, and does nothing where there is no trap. The
    /// state register is the caller's. Want of memory leaves all as it was, and is the answer only of a call that takes memory.
    pub fn serve(
        &mut self,
        alloc: Global,
        part: u32,
        files: &FileSet,
        table: &mut Table,
        out: &mut Vec<u8>,
    ) -> Result<Served, AllocError>
        requires there { part < length self.old }
        requires trap { IfSome (trap_in (part_at self.old part)) (λ t. IsTrap (part_at self.old part).bank t) }
        requires table { IsTableOf files.now table.old }
        ensures parts { OnOk result (self.new ≡ slice_set self.old part (with_bank (part_at self.old part) (part_served files.now (part_at self.old part) (open_files files.now table.old) out.old.items).bank)) }
        ensures opened { OnOk result (open_files files.now table.new ≡ (part_served files.now (part_at self.old part) (open_files files.now table.old) out.old.items).table) }
        ensures text { OnOk result (out.new.items ≡ (part_served files.now (part_at self.old part) (open_files files.now table.old) out.old.items).printed) }
        ensures way { IfOk result (λ way. way ≡ way_of_trap (trap_in (part_at self.old part))) }
        ensures unchanged { OnErr result (self.new ≡ self.old) }
        ensures files { OnErr result (table.new ≡ table.old) }
        ensures printed { OnErr result (out.new.items ≡ out.old.items) }
        ensures memory { OnErr result (trap_takes_memory (trap_in (part_at self.old part)) ≡ true) }
        ensures fits { IsTableOf files.now table.new }
    {
        let states = &self.parts[part as usize].table;
        let way = serve_present(alloc, states, &mut self.bank, files, table, out)?;
        Ok(way)
    }
}
