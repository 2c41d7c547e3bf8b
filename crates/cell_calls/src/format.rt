//! Displays: arguments are taken from the left, and a string is a format whose items take the arguments behind it
//! (IEEE 1364-2005, clause 17.1.1).

ghost use Rattle.std.specs.Prelude.{◌≡◌, ◌≤◌, ◌∷◌, ◌++◌, [], All, IfOk, OnOk, map};
ghost use Rattle.vl_base.specs.Display.{format_of};
ghost use Rattle.vl_design.specs.Formats as f;
ghost use Rattle.vl_design.specs.Sound.{IsSoundExp};
ghost use Rattle.vl_design.specs.Trees.{arg_of, exp_of, flat_of};
ghost use Rattle.vl_design.specs.Width.{names_of};
ghost use Rattle.fmt_text.specs.Modes.{reading_of};
ghost use Rattle.cell_emit.specs.cell_form.specs.Views.{list_of};
ghost use Rattle.cell_emit.specs.Slots.{Grows};
ghost use Rattle.cell_emit.specs.Envs.{env_of};
ghost use Rattle.ten_form.specs.Asked.{shown};
ghost use Rattle.cell_calls.specs.Displays.{IsReady, IsOwn, Adds, Walked};

use crate::display::Display;
use crate::given::behind;
use crate::own::{Own, Site, constant, own_value};
use cell_emit::cell::CellList;
use fmt_text::format::{Mode, after, is_path};
use fmt_text::item::is_item;
use fmt_text::show_text::text_bits;
use std::alloc::{AllocError, Global};
use vl_base::bits::Bits;
use vl_design::design::SysArg;

/// What an item shows: the next argument.
fn operand(
    alloc: Global,
    cells: &mut CellList,
    site: Site<'_>,
    args: &[SysArg],
) -> Result<Own, AllocError>
    requires ready { IsReady (flat_of site.design.now) (env_of site.at.now) (list_of cells.old) }
    requires sound { IsSoundExp (names_of (flat_of site.design.now)) (f.operand (map arg_of args.now)) }
    ensures grows { Grows (list_of cells.old) (list_of cells.new) }
    ensures gives { IfOk result (λ r. IsOwn (flat_of site.entry.design.now) (f.operand (map arg_of args.now)) (env_of site.entry.at.now) (list_of cells.old) (list_of cells.new) r) }
{
    match args {
        [] => constant(alloc, cells, site, Bits { value: 0, width: 1 }),
        [first, ..] => match first {
            SysArg::Null => constant(alloc, cells, site, Bits { value: 0, width: 1 }),
            SysArg::Str(text) => constant(alloc, cells, site, text_bits(text.as_slice())),
            SysArg::Value(e) => own_value(alloc, cells, site, e),
        },
    }
}

/// Adds what an item of this letter shows, with a 0 before it or without, and says how many arguments it takes.
#[tactic(auto, using(crate::proofs::Owning::walking))]
fn push_letter(
    alloc: Global,
    cells: &mut CellList,
    site: Site<'_>,
    letter: u8,
    least: bool,
    args: &[SysArg],
    display: &mut Display,
) -> Result<usize, AllocError>
    requires ready { IsReady (flat_of site.design.now) (env_of site.at.now) (list_of cells.old) }
    requires sound { All (IsSoundExp (names_of (flat_of site.design.now))) (shown (f.with_item (format_of letter least) (f.operand (map arg_of args.now)) [])) }
    ensures grows { Grows (list_of cells.old) (list_of cells.new) }
    ensures adds { OnOk result (Adds (flat_of site.entry.design.now) (f.with_item (format_of letter least) (f.operand (map arg_of args.now)) [])
        (env_of site.entry.at.now) display.old display.new (list_of cells.old) (list_of cells.new)) }
    ensures takes { IfOk result (λ n. n ≡ f.taken (f.with_item (format_of letter least) (f.operand (map arg_of args.now)) [])) }
    ensures small { IfOk result (λ n. n ≤ 1) }
{
    if !is_item(letter, least) {
        return Ok(0);
    }
    let own = operand(alloc, cells, site, args)?;
    display.push_item(alloc, letter, least, own)?;
    Ok(1)
}

/// Adds what a byte behind a `%` shows, and says how many arguments it takes.
#[tactic(auto, using(crate::proofs::Owning::walking))]
fn push_behind_percent(
    alloc: Global,
    cells: &mut CellList,
    site: Site<'_>,
    byte: u8,
    args: &[SysArg],
    display: &mut Display,
) -> Result<usize, AllocError>
    requires ready { IsReady (flat_of site.design.now) (env_of site.at.now) (list_of cells.old) }
    requires sound { All (IsSoundExp (names_of (flat_of site.design.now))) (shown (f.format_pieces site.path.now f.Percent (byte ∷ []) (map arg_of args.now))) }
    ensures grows { Grows (list_of cells.old) (list_of cells.new) }
    ensures adds { OnOk result (Adds (flat_of site.entry.design.now) (f.format_pieces site.entry.path.now f.Percent (byte ∷ []) (map arg_of args.now))
        (env_of site.entry.at.now) display.old display.new (list_of cells.old) (list_of cells.new)) }
    ensures takes { IfOk result (λ n. n ≡ f.taken (f.format_pieces site.entry.path.now f.Percent (byte ∷ []) (map arg_of args.now))) }
    ensures small { IfOk result (λ n. n ≤ 1) }
{
    if byte == b'0' {
        return Ok(0);
    }
    if byte == b'%' {
        display.push_text(b"%".as_slice())?;
        return Ok(0);
    }
    if is_path(byte) {
        display.push_text(site.path)?;
        return Ok(0);
    }
    push_letter(alloc, cells, site, byte, false, args, display)
}

/// Adds what a byte of a format shows, and says how many arguments it takes.
#[tactic(auto, using(crate::proofs::Owning::walking))]
fn push_byte(
    alloc: Global,
    cells: &mut CellList,
    site: Site<'_>,
    mode: Mode,
    byte: u8,
    args: &[SysArg],
    display: &mut Display,
) -> Result<usize, AllocError>
    requires ready { IsReady (flat_of site.design.now) (env_of site.at.now) (list_of cells.old) }
    requires sound { All (IsSoundExp (names_of (flat_of site.design.now))) (shown (f.format_pieces site.path.now (reading_of mode) (byte ∷ []) (map arg_of args.now))) }
    ensures grows { Grows (list_of cells.old) (list_of cells.new) }
    ensures adds { OnOk result (Adds (flat_of site.entry.design.now) (f.format_pieces site.entry.path.now (reading_of mode) (byte ∷ []) (map arg_of args.now))
        (env_of site.entry.at.now) display.old display.new (list_of cells.old) (list_of cells.new)) }
    ensures takes { IfOk result (λ n. n ≡ f.taken (f.format_pieces site.entry.path.now (reading_of mode) (byte ∷ []) (map arg_of args.now))) }
    ensures small { IfOk result (λ n. n ≤ 1) }
{
    match mode {
        Mode::InText => {
            if byte == b'%' {
                return Ok(0);
            }
            display.push_text(&[byte])?;
            Ok(0)
        }
        Mode::Percent => push_behind_percent(alloc, cells, site, byte, args, display),
        Mode::PercentZero => push_letter(alloc, cells, site, byte, true, args, display),
    }
}

/// Adds what a format shows, and says how many of the arguments behind it its items take.
#[tactic(auto, using(crate::proofs::Owning::walking))]
fn push_format(
    alloc: Global,
    cells: &mut CellList,
    site: Site<'_>,
    text: &[u8],
    args: &[SysArg],
    display: &mut Display,
) -> Result<usize, AllocError>
    requires ready { IsReady (flat_of site.design.now) (env_of site.at.now) (list_of cells.old) }
    requires sound { All (IsSoundExp (names_of (flat_of site.design.now))) (shown (f.format_pieces site.path.now f.InText text.now (map arg_of args.now))) }
    ensures grows { Grows (list_of cells.old) (list_of cells.new) }
    ensures adds { OnOk result (Adds (flat_of site.entry.design.now) (f.format_pieces site.entry.path.now f.InText text.now (map arg_of args.now))
        (env_of site.entry.at.now) display.old display.new (list_of cells.old) (list_of cells.new)) }
    ensures takes { IfOk result (λ n. n ≡ f.taken (f.format_pieces site.entry.path.now f.InText text.now (map arg_of args.now))) }
{
    let mut mode = Mode::InText;
    let mut count = 0;
    for byte in text {
        count += push_byte(
            alloc,
            cells,
            site,
            mode,
            *byte,
            behind(args, count),
            display,
        )?;
        mode = after(mode, *byte);
    }
    Ok(count)
}

/// Adds what an argument shows that no item takes, and says how many of those behind it its items take.
#[tactic(auto, using(crate::proofs::Owning::walking))]
fn push_argument(
    alloc: Global,
    cells: &mut CellList,
    site: Site<'_>,
    first: &SysArg,
    rest: &[SysArg],
    display: &mut Display,
) -> Result<usize, AllocError>
    requires ready { IsReady (flat_of site.design.now) (env_of site.at.now) (list_of cells.old) }
    requires sound { All (IsSoundExp (names_of (flat_of site.design.now))) (shown (f.pieces_from site.path.now 0 (arg_of first.now ∷ map arg_of rest.now))) }
    ensures grows { Grows (list_of cells.old) (list_of cells.new) }
    ensures walked { IfOk result (λ n. Walked (flat_of site.entry.design.now) (f.pieces_from site.entry.path.now 0 (arg_of first.now ∷ map arg_of rest.now))
        (f.pieces_from site.entry.path.now n (map arg_of rest.now)) (env_of site.entry.at.now) display.old display.new (list_of cells.old) (list_of cells.new)) }
{
    match first {
        SysArg::Null => {
            display.push_text(b" ".as_slice())?;
            Ok(0)
        }
        SysArg::Str(text) => {
            let taken = push_format(alloc, cells, site, text.as_slice(), rest, display)?;
            Ok(taken)
        }
        SysArg::Value(e) => {
            let own = own_value(alloc, cells, site, e)?;
            display.push_item(alloc, b'd', false, own)?;
            Ok(0)
        }
    }
}

/// Adds what an argument shows where no item takes it, and says how many of those behind it items take.
#[tactic(auto, using(crate::proofs::Owning::walking))]
fn push_next(
    alloc: Global,
    cells: &mut CellList,
    site: Site<'_>,
    taken: usize,
    first: &SysArg,
    rest: &[SysArg],
    display: &mut Display,
) -> Result<usize, AllocError>
    requires ready { IsReady (flat_of site.design.now) (env_of site.at.now) (list_of cells.old) }
    requires sound { All (IsSoundExp (names_of (flat_of site.design.now))) (shown (f.pieces_from site.path.now taken (arg_of first.now ∷ map arg_of rest.now))) }
    ensures grows { Grows (list_of cells.old) (list_of cells.new) }
    ensures walked { IfOk result (λ n. Walked (flat_of site.entry.design.now) (f.pieces_from site.entry.path.now taken (arg_of first.now ∷ map arg_of rest.now))
        (f.pieces_from site.entry.path.now n (map arg_of rest.now)) (env_of site.entry.at.now) display.old display.new (list_of cells.old) (list_of cells.new)) }
{
    if taken == 0 {
        push_argument(alloc, cells, site, first, rest, display)
    } else {
        Ok(taken - 1)
    }
}

/// Adds what the arguments of a display show.
#[tactic(auto, using(crate::proofs::Owning::walking))]
pub(crate) fn push_arguments(
    alloc: Global,
    cells: &mut CellList,
    site: Site<'_>,
    args: &[SysArg],
    display: &mut Display,
) -> Result<(), AllocError>
    requires ready { IsReady (flat_of site.design.now) (env_of site.at.now) (list_of cells.old) }
    requires sound { All (IsSoundExp (names_of (flat_of site.design.now))) (shown (f.pieces_from site.path.now 0 (map arg_of args.now))) }
    ensures grows { Grows (list_of cells.old) (list_of cells.new) }
    ensures adds { OnOk result (Walked (flat_of site.entry.design.now) (f.pieces_from site.entry.path.now 0 (map arg_of args.now)) []
        (env_of site.entry.at.now) display.old display.new (list_of cells.old) (list_of cells.new)) }
{
    let mut taken = 0;
    let mut next = 0;
    for first in args {
        next += 1;
        taken = push_next(
            alloc,
            cells,
            site,
            taken,
            first,
            behind(args, next),
            display,
        )?;
    }
    Ok(())
}
