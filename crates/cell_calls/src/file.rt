//! Calls on files, and `$save` (IEEE 1364-2005, clause 17.2).

ghost use Rattle.std.specs.Prelude.{◌≡◌, ◌≤◌, ◌<◌, IfOk, map, length};
ghost use Rattle.vl_design.specs.Calls as c;
ghost use Rattle.vl_design.specs.Sound.{IsMemory, IsSignal, IsSoundExp, IsSoundTask};
ghost use Rattle.vl_design.specs.Syntax as y;
ghost use Rattle.vl_design.specs.Trees.{arg_of, exp_of, flat_of};
ghost use Rattle.vl_design.specs.Width.{names_of};
ghost use Rattle.cell_emit.specs.cell_form.specs.Views.{list_of};
ghost use Rattle.cell_emit.specs.Slots.{Grows};
ghost use Rattle.cell_emit.specs.Envs.{env_of};
ghost use Rattle.cell_calls.specs.Calls.{Traps};
ghost use Rattle.cell_calls.specs.Displays.{IsReady};
ghost use Rattle.cell_calls.specs.FileCalls.{query_task, query_call};

use crate::given::{behind, signal_first, text_first, value_first};
use crate::own::{Site, descriptor};
use crate::trap::{given_file, given_nothing, silent};
use cell_emit::cell::CellList;
use cell_emit::table::{Trap, TrapCall};
use std::alloc::{AllocError, Global};
use ten_files::name::copy_text;
use ten_form::places::{WORK, register};
use vl_base::items::Text;
use vl_design::design::{Expr, SysArg};
use vl_eval::eval::signal_at;
use vl_eval::form::signal_form;
use vl_run::outer::room_of;

/// `$save`.
pub(crate) fn save(
    alloc: Global,
    cells: &CellList,
    site: Site<'_>,
    args: &[SysArg],
) -> Result<Trap, AllocError>
    ensures { IfOk result (λ t. Traps (flat_of site.entry.design.now) (c.save_of (map arg_of args.now)) (env_of site.entry.at.now) (list_of cells.now) (list_of cells.now) t) }
{
    match text_first(args) {
        None => Ok(silent(alloc)),
        Some(name) => {
            let copy = copy_text(alloc, name)?;
            Ok(given_nothing(alloc, TrapCall::Save(copy), None))
        }
    }
}

/// `$fopen`.
pub(crate) fn open(
    alloc: Global,
    cells: &CellList,
    site: Site<'_>,
    args: &[SysArg],
) -> Result<Trap, AllocError>
    ensures { IfOk result (λ t. Traps (flat_of site.entry.design.now) (c.fopen_of (map arg_of args.now)) (env_of site.entry.at.now) (list_of cells.now) (list_of cells.now) t) }
{
    match text_first(args) {
        None => Ok(silent(alloc)),
        Some(name) => {
            let copy = copy_text(alloc, name)?;
            Ok(given_nothing(alloc, TrapCall::Fopen(copy), None))
        }
    }
}

/// Which call takes just a descriptor.
#[derive(Clone, Copy)]
pub(crate) enum Query {
    /// `$fgetc`.
    Character,
    /// `$feof`.
    Ended,
    /// `$fclose`.
    Close,
}

/// The call as that of a trap.
fn call_of(query: Query) -> TrapCall
    ensures { result ≡ query_call query }
{
    match query {
        Query::Character => TrapCall::Fgetc,
        Query::Ended => TrapCall::Feof,
        Query::Close => TrapCall::Fclose,
    }
}

/// A call that takes just a descriptor.
#[tactic(auto, using(crate::proofs::Owning::walking))]
pub(crate) fn ask(
    alloc: Global,
    cells: &mut CellList,
    site: Site<'_>,
    query: Query,
    args: &[SysArg],
) -> Result<Trap, AllocError>
    requires ready { IsReady (flat_of site.design.now) (env_of site.at.now) (list_of cells.old) }
    requires sound { IsSoundTask (names_of (flat_of site.design.now)) (c.file_of (query_task query) (map arg_of args.now)) }
    ensures grows { Grows (list_of cells.old) (list_of cells.new) }
    ensures traps { IfOk result (λ t. Traps (flat_of site.entry.design.now) (c.file_of (query_task query) (map arg_of args.now)) (env_of site.entry.at.now) (list_of cells.old) (list_of cells.new) t) }
{
    match value_first(args) {
        None => Ok(silent(alloc)),
        Some(fd) => {
            let slot = descriptor(alloc, cells, site, fd)?;
            given_file(alloc, call_of(query), slot, None)
        }
    }
}

/// `$fread` to a variable.
#[tactic(auto, using(crate::proofs::Owning::walking))]
fn read_to(
    alloc: Global,
    cells: &mut CellList,
    site: Site<'_>,
    variable: u32,
    fd: &Expr,
) -> Result<Trap, AllocError>
    requires ready { IsReady (flat_of site.design.now) (env_of site.at.now) (list_of cells.old) }
    requires few { length (flat_of site.design.now).rows ≤ 268435456 }
    requires variable { IsSignal (names_of (flat_of site.design.now)) variable }
    requires sound { IsSoundExp (names_of (flat_of site.design.now)) (exp_of fd.now) }
    ensures grows { Grows (list_of cells.old) (list_of cells.new) }
    ensures traps { IfOk result (λ t. Traps (flat_of site.entry.design.now) (y.Fread variable (exp_of fd.now)) (env_of site.entry.at.now) (list_of cells.old) (list_of cells.new) t) }
{
    let slot = descriptor(alloc, cells, site, fd)?;
    let width = signal_form(&room_of(site.design), variable).width as u8;
    given_file(
        alloc,
        TrapCall::Fread(width),
        slot,
        Some(register(variable, WORK)),
    )
}

/// `$fread`.
pub(crate) fn read(
    alloc: Global,
    cells: &mut CellList,
    site: Site<'_>,
    args: &[SysArg],
) -> Result<Trap, AllocError>
    requires ready { IsReady (flat_of site.design.now) (env_of site.at.now) (list_of cells.old) }
    requires few { length (flat_of site.design.now).rows ≤ 268435456 }
    requires sound { IsSoundTask (names_of (flat_of site.design.now)) (c.fread_of (map arg_of args.now)) }
    ensures grows { Grows (list_of cells.old) (list_of cells.new) }
    ensures traps { IfOk result (λ t. Traps (flat_of site.entry.design.now) (c.fread_of (map arg_of args.now)) (env_of site.entry.at.now) (list_of cells.old) (list_of cells.new) t) }
{
    match signal_first(args) {
        None => Ok(silent(alloc)),
        Some(variable) => match value_first(behind(args, 1)) {
            None => Ok(silent(alloc)),
            Some(fd) => read_to(alloc, cells, site, variable, fd),
        },
    }
}

/// `$readmemh` to a memory.
fn load_to(
    alloc: Global,
    cells: &CellList,
    site: Site<'_>,
    name: &Text,
    memory: u32,
) -> Result<Trap, AllocError>
    requires { IsMemory (names_of (flat_of site.design.now)) memory }
    ensures { IfOk result (λ t. Traps (flat_of site.entry.design.now) (y.ReadHex name.now memory) (env_of site.entry.at.now) (list_of cells.now) (list_of cells.now) t) }
{
    let room = room_of(site.design);
    let form = signal_form(&room, memory);
    let signal = signal_at(&room, memory);
    let copy = copy_text(alloc, name)?;
    let call = TrapCall::ReadHex(copy, form.width as u8, signal.first, signal.last);
    Ok(given_nothing(alloc, call, Some(memory)))
}

/// `$readmemh`.
pub(crate) fn load(
    alloc: Global,
    cells: &CellList,
    site: Site<'_>,
    args: &[SysArg],
) -> Result<Trap, AllocError>
    requires { IsSoundTask (names_of (flat_of site.design.now)) (c.read_hex_of (map arg_of args.now)) }
    ensures { IfOk result (λ t. Traps (flat_of site.entry.design.now) (c.read_hex_of (map arg_of args.now)) (env_of site.entry.at.now) (list_of cells.now) (list_of cells.now) t) }
{
    match text_first(args) {
        None => Ok(silent(alloc)),
        Some(name) => match signal_first(behind(args, 1)) {
            None => Ok(silent(alloc)),
            Some(memory) => load_to(alloc, cells, site, name, memory),
        },
    }
}
