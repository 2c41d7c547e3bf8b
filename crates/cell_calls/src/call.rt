//! System calls as traps (IEEE 1364-2005, clause 17).

ghost use Rattle.std.specs.Prelude.{◌≡◌, ◌≤◌, All, IfOk, codes, false, length, map};
ghost use Rattle.std.specs.Str.{bytes_eq};
ghost use Rattle.vl_design.specs.Formats.{pieces_from};
ghost use Rattle.vl_design.specs.Sound.{IsSound, IsSoundTask};
ghost use Rattle.vl_design.specs.Syntax as y;
ghost use Rattle.vl_design.specs.Trees.{arg_of, flat_of, task_of};
ghost use Rattle.vl_design.specs.Width.{names_of};
ghost use Rattle.cell_emit.specs.cell_form.specs.Views.{list_of};
ghost use Rattle.cell_emit.specs.Slots.{Grows};
ghost use Rattle.cell_emit.specs.Envs.{env_of, Fits};
ghost use Rattle.cell_expr.specs.Bodies.{IsCellFun};
ghost use Rattle.cell_calls.specs.Calls.{Traps, task_in};
ghost use Rattle.cell_calls.specs.Displays.{IsReady};
ghost use Rattle.cell_calls.specs.FileCalls.{file_task};

use crate::display::Display;
use crate::file::{Query, ask, load, open, read, save};
use crate::format::push_arguments;
use crate::own::Site;
use crate::trap::{given_nothing, silent};
use cell_emit::at::At;
use cell_emit::cell::CellList;
use cell_emit::table::{Trap, TrapCall};
use std::alloc::{AllocError, Global};
use ten_form::places::ANSWER;
use vl_base::items::{Items, Nums, Text};
use vl_base::text::is_word;
use vl_design::design::{Design, SysArg, SysCall};

/// A display, with a newline behind it or without (clause 17.1.1).
#[tactic(auto, using(crate::proofs::Owning::walking))]
fn print(
    alloc: Global,
    cells: &mut CellList,
    site: Site<'_>,
    args: &[SysArg],
    newline: bool,
) -> Result<Trap, AllocError>
    requires ready { IsReady (flat_of site.design.now) (env_of site.at.now) (list_of cells.old) }
    requires sound { IsSoundTask (names_of (flat_of site.design.now)) (y.Print (pieces_from site.path.now 0 (map arg_of args.now)) newline) }
    ensures grows { Grows (list_of cells.old) (list_of cells.new) }
    ensures traps { IfOk result (λ t. Traps (flat_of site.entry.design.now) (y.Print (pieces_from site.entry.path.now 0 (map arg_of args.now)) newline) (env_of site.entry.at.now) (list_of cells.old) (list_of cells.new) t) }
{
    let mut display = Display::new(alloc);
    push_arguments(alloc, cells, site, args, &mut display)?;
    display.end_text(alloc)?;
    Ok(Trap {
        call: TrapCall::Print(Items::from_vec(display.parts), newline),
        args: Nums::from_vec(display.slots),
        answer: ANSWER,
        target: None,
    })
}

/// A call on an open file or a memory. One of another name prints nothing.
#[tactic(auto, using(crate::proofs::Owning::walking))]
fn file_call(
    alloc: Global,
    cells: &mut CellList,
    site: Site<'_>,
    name: &[u8],
    args: &[SysArg],
) -> Result<Trap, AllocError>
    requires ready { IsReady (flat_of site.design.now) (env_of site.at.now) (list_of cells.old) }
    requires few { length (flat_of site.design.now).rows ≤ 268435456 }
    requires sound { IsSoundTask (names_of (flat_of site.design.now)) (file_task name.now (map arg_of args.now)) }
    ensures grows { Grows (list_of cells.old) (list_of cells.new) }
    ensures traps { IfOk result (λ t. Traps (flat_of site.entry.design.now) (file_task name.now (map arg_of args.now)) (env_of site.entry.at.now) (list_of cells.old) (list_of cells.new) t) }
{
    if is_word(name, b"$fread".as_slice()) {
        read(alloc, cells, site, args)
    } else if is_word(name, b"$fgetc".as_slice()) {
        ask(alloc, cells, site, Query::Character, args)
    } else if is_word(name, b"$feof".as_slice()) {
        ask(alloc, cells, site, Query::Ended, args)
    } else if is_word(name, b"$fclose".as_slice()) {
        ask(alloc, cells, site, Query::Close, args)
    } else if is_word(name, b"$readmemh".as_slice()) {
        load(alloc, cells, site, args)
    } else {
        Ok(silent(alloc))
    }
}

/// A call of this name.
#[tactic(auto, using(crate::proofs::Owning::walking))]
fn named_call(
    alloc: Global,
    cells: &mut CellList,
    site: Site<'_>,
    name: &[u8],
    args: &[SysArg],
) -> Result<Trap, AllocError>
    requires ready { IsReady (flat_of site.design.now) (env_of site.at.now) (list_of cells.old) }
    requires few { length (flat_of site.design.now).rows ≤ 268435456 }
    requires sound { IsSoundTask (names_of (flat_of site.design.now)) (task_of site.path.now name.now (map arg_of args.now)) }
    ensures grows { Grows (list_of cells.old) (list_of cells.new) }
    ensures traps { IfOk result (λ t. Traps (flat_of site.entry.design.now) (task_of site.entry.path.now name.now (map arg_of args.now)) (env_of site.entry.at.now) (list_of cells.old) (list_of cells.new) t) }
{
    if is_word(name, b"$display".as_slice()) {
        print(alloc, cells, site, args, true)
    } else if is_word(name, b"$write".as_slice()) {
        print(alloc, cells, site, args, false)
    } else if is_word(name, b"$finish".as_slice()) {
        Ok(given_nothing(alloc, TrapCall::Finish, None))
    } else if is_word(name, b"$save".as_slice()) {
        save(alloc, cells, site, args)
    } else if is_word(name, b"$fopen".as_slice()) {
        open(alloc, cells, site, args)
    } else {
        file_call(alloc, cells, site, name, args)
    }
}

/// Compiles a system call of an instance of this path: cells for what it is given, and its trap. An `Err` is want of memory; slots
/// that were there stay then too.
pub fn call_of(
    alloc: Global,
    cells: &mut CellList,
    design: &Design,
    path: &Text,
    at: &At,
    call: &SysCall,
) -> Result<Trap, AllocError>
    requires sound { IsSound (flat_of design.now) }
    requires functions { All (IsCellFun (names_of (flat_of design.now))) (flat_of design.now).funs }
    requires few { length (flat_of design.now).rows ≤ 268435456 }
    requires task { IsSoundTask (names_of (flat_of design.now)) (task_in path.now call.now) }
    requires fits { Fits (names_of (flat_of design.now)) (list_of cells.old) (env_of at.now) }
    requires first { at.now.first ≡ 0 }
    ensures grows { Grows (list_of cells.old) (list_of cells.new) }
    ensures traps { IfOk result (λ t. Traps (flat_of design.now) (task_in path.now call.now) (env_of at.now) (list_of cells.old) (list_of cells.new) t) }
{
    let site = Site {
        design,
        at,
        path: path.as_slice(),
    };
    named_call(
        alloc,
        cells,
        site,
        call.name.as_slice(),
        call.args.as_slice(),
    )
}
