//! The snapshots that a run keeps, in words.

ghost use Rattle.vl_design.specs.Trees.{flat_of};
ghost use Rattle.ten_core.specs.snap_form.specs.Spelling.{IsSnapshot};
ghost use Rattle.ten_core.specs.Holding.{CanBeHeld};
ghost use Rattle.elab_laws.specs.ten_plan.specs.Held.{snapshot_of};
ghost use Rattle.elab_laws.specs.ten_plan.specs.Written.{written};
ghost use Rattle.machine_rows.specs.Starts.{CanBeWritten};

use elab_laws::held::Saved;
use fab_model::parcel::Remains;
use std::alloc::{AllocError, Global};
use ten_core::write::write;
use vl_design::design::Design;

/// The digit of a number below 16; `?` of another.
fn digit(number: u8) -> char {
    match number {
        0 => '0',
        1 => '1',
        2 => '2',
        3 => '3',
        4 => '4',
        5 => '5',
        6 => '6',
        7 => '7',
        8 => '8',
        9 => '9',
        10 => 'a',
        11 => 'b',
        12 => 'c',
        13 => 'd',
        14 => 'e',
        15 => 'f',
        _ => '?',
    }
}

/// Bytes in two small hexadecimal digits each, with blanks between.
pub fn digits_of(alloc: Global, bytes: &[u8]) -> Result<String, AllocError> {
    let mut text = String::new(alloc);
    for (number, byte) in bytes.iter().enumerate() {
        if number > 0 {
            text.push(' ')?;
        }
        text.push(digit(*byte / 16))?;
        text.push(digit(*byte % 16))?;
    }
    Ok(text)
}

/// The bytes of a name as a text.
fn name_text(alloc: Global, name: &[u8]) -> Result<String, AllocError> {
    let mut text = String::new(alloc);
    for byte in name {
        text.push(char::from(*byte))?;
    }
    Ok(text)
}

/// A line of a snapshot: its name, and its bytes.
fn saved_text(alloc: Global, design: &Design, saved: Saved) -> Result<String, AllocError>
    requires design { CanBeHeld (flat_of design.now) }
    requires snapshot { IsSnapshot (written (snapshot_of (flat_of design.now).rows saved.held)) }
{
    let name = name_text(alloc, saved.name.as_slice())?;
    let bytes = write(alloc, design, saved.held)?;
    let digits = digits_of(alloc, bytes.as_slice())?;
    format!(in alloc; "kept {name} {digits}\n")
}

/// A line for each snapshot that a run keeps.
pub fn kept_text(alloc: Global, remains: Remains) -> Result<String, AllocError>
    requires { CanBeWritten remains }
{
    let Remains {
        origin,
        mut saved,
        ..
    } = remains;
    let mut text = String::new(alloc);
    'saves: while !saved.is_empty() {
        let line = saved_text(alloc, &origin.image.design, saved.remove(0))?;
        text.push_str(line.as_str())?;
    }
    Ok(text)
}

/// The bytes of the last snapshot that a run keeps, in digits; none where it keeps none.
pub fn last_kept(alloc: Global, remains: Remains) -> Result<Option<String>, AllocError>
    requires { CanBeWritten remains }
{
    let Remains {
        origin,
        mut saved,
        ..
    } = remains;
    match saved.pop() {
        None => Ok(None),
        Some(last) => {
            let bytes = write(alloc, &origin.image.design, last.held)?;
            Ok(Some(digits_of(alloc, bytes.as_slice())?))
        }
    }
}
