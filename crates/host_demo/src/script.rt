//! The script of the demonstration.

ghost use Rattle.std.specs.Prelude.{◌≡◌, ◌++◌, IfOk, OnOk};
ghost use Rattle.std.specs.Fmt.{decimal};
ghost use Rattle.host_demo.specs.Texts as t;

use std::alloc::{AllocError, Global};

/// Adds a number in decimal.
pub(crate) fn push_number(alloc: Global, number: u32, text: &mut Vec<u8>) -> Result<(), AllocError>
    ensures { OnOk result (text.new.items ≡ text.old.items ++ decimal number) }
{
    let digits = number.to_string(alloc)?;
    text.extend_from_slice(digits.as_bytes())?;
    Ok(())
}

/// The fabric on which the tenant of a number begins.
fn home(number: u32) -> &'static [u8]
    ensures { result.now ≡ t.home number }
{
    if number % 2 == 1 {
        b"F1".as_slice()
    } else {
        b"F2".as_slice()
    }
}

/// The fabric to which the tenant of a number moves.
fn away(number: u32) -> &'static [u8]
    ensures { result.now ≡ t.away number }
{
    if number % 2 == 1 {
        b"F2".as_slice()
    } else {
        b"F1".as_slice()
    }
}

/// Adds the line that declares the tenant of a number.
fn push_tenant_line(alloc: Global, number: u32, text: &mut Vec<u8>) -> Result<(), AllocError>
    ensures { OnOk result (text.new.items ≡ text.old.items ++ t.tenant_line number) }
{
    text.extend_from_slice(b"tenant T")?;
    push_number(alloc, number, text)?;
    text.extend_from_slice(b" t")?;
    push_number(alloc, number, text)?;
    text.extend_from_slice(b".v ")?;
    text.extend_from_slice(home(number))?;
    text.extend_from_slice(b" 4096\n")?;
    Ok(())
}

/// Adds the line that moves the tenant of a number at a tick.
fn push_move_line(
    alloc: Global,
    number: u32,
    tick: u32,
    fabric: &[u8],
    text: &mut Vec<u8>,
) -> Result<(), AllocError>
    ensures { OnOk result (text.new.items ≡ text.old.items ++ t.move_line number tick fabric.now) }
{
    text.extend_from_slice(b"at T")?;
    push_number(alloc, number, text)?;
    text.extend_from_slice(b" ")?;
    push_number(alloc, tick, text)?;
    text.extend_from_slice(b" move ")?;
    text.extend_from_slice(fabric)?;
    text.extend_from_slice(b"\n")?;
    Ok(())
}

/// Adds the lines of the tenant of a number.
fn push_tenant(alloc: Global, number: u32, text: &mut Vec<u8>) -> Result<(), AllocError>
    ensures { OnOk result (text.new.items ≡ text.old.items ++ t.tenant number) }
{
    push_tenant_line(alloc, number, text)?;
    push_move_line(alloc, number, 1000, away(number), text)?;
    push_move_line(alloc, number, 3000, home(number), text)
}

/// The script of the demonstration with so many tenants, of which a script may have 1 to 64: each begins on one of two fabrics, moves to the
/// other, and moves back.
pub fn script_text(alloc: Global, tenants: u32) -> Result<Vec<u8>, AllocError>
    ensures { IfOk result (λ text. text.items ≡ t.script tenants) }
{
    let mut text = Vec::new(alloc);
    text.extend_from_slice(b"fabric F1 1284 424 32768\nfabric F2 1284 424 32768\n")?;
    for before in 0..tenants {
        push_tenant(alloc, before + 1, &mut text)?;
    }
    Ok(text)
}
