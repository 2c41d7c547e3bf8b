//! The lines that the host prints in place of a report.

ghost use Rattle.std.specs.Prelude.{◌≡◌, ◌++◌, IfOk, OnOk};
ghost use Rattle.std.specs.Fmt.{decimal};
ghost use Rattle.host_run.specs.Lines as l;

use host_form::store::ReadError;
use std::alloc::{AllocError, Global};

/// Adds a number in decimal.
fn push_number(alloc: Global, number: u64, text: &mut Vec<u8>) -> Result<(), AllocError>
    ensures { OnOk result (text.new.items ≡ text.old.items ++ decimal number) }
{
    let digits = number.to_string(alloc)?;
    text.extend_from_slice(digits.as_bytes())?;
    Ok(())
}

/// The word of a failed read.
fn read_word(why: ReadError) -> &'static [u8]
    ensures { result.now ≡ l.read_word why }
{
    match why {
        ReadError::NotThere => b"notthere".as_slice(),
        ReadError::TooLong => b"toolong".as_slice(),
        ReadError::Failed => b"failed".as_slice(),
        ReadError::Memory => b"memory".as_slice(),
    }
}

/// The line of a file that was not read.
pub fn unread(alloc: Global, path: &[u8], why: ReadError) -> Result<Vec<u8>, AllocError>
    ensures { IfOk result (λ text. text.items ≡ l.unread path.now why) }
{
    let mut text = Vec::new(alloc);
    text.extend_from_slice(b"read ")?;
    text.extend_from_slice(path)?;
    text.extend_from_slice(b" ")?;
    text.extend_from_slice(read_word(why))?;
    text.extend_from_slice(b"\n")?;
    Ok(text)
}

/// The line of a script that has a fault.
pub fn fault(alloc: Global, line: u64, cause: u8) -> Result<Vec<u8>, AllocError>
    ensures { IfOk result (λ text. text.items ≡ l.fault line cause) }
{
    let mut text = Vec::new(alloc);
    text.extend_from_slice(b"script ")?;
    push_number(alloc, line, &mut text)?;
    text.extend_from_slice(b" ")?;
    push_number(alloc, u64::from(cause), &mut text)?;
    text.extend_from_slice(b"\n")?;
    Ok(text)
}

/// The line that says how the program is called.
pub fn usage() -> &'static [u8]
    ensures { result.now ≡ l.usage }
{
    b"usage: fabhost run SCRIPT | check SOURCE | demo N\n".as_slice()
}
