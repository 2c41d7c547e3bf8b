//! A line is read.

ghost use Rattle.std.specs.Prelude.{◌≡◌, ℕ, IfOk, Ok, Err, option_map, IsErrOf};
ghost use Rattle.host_text.specs.Statements as s;
ghost use Rattle.host_text.specs.Seen.{seen};

use crate::statement::{Statement, said};
use crate::words::{is_plain, without_return, words};
use std::alloc::Global;

/// Why a line was not read.
#[derive(Clone, Copy, Debug, PartialEq, Eq)]
pub enum LineFault {
    /// The line says nothing right: the least of its causes 1, 2 and 3, or 8.
    Cause(u8),
    /// Want of memory.
    Memory,
}

/// What a line says; nothing where it has no words.
pub fn read_line(alloc: Global, line: &[u8]) -> Result<Option<Statement<'_>>, LineFault>
    ensures said { IfOk result (λ said. s.says line.now ≡ Ok (option_map seen said)) }
    ensures cause { (cause : ℕ) → IsErrOf result (LineFault.Cause cause) → s.says line.now ≡ Err cause }
{
    let text = without_return(line);
    if !is_plain(text) {
        return Err(LineFault::Cause(8));
    }
    let Ok(words) = words(alloc, text) else {
        return Err(LineFault::Memory);
    };
    match said(&words) {
        Ok(said) => Ok(said),
        Err(cause) => Err(LineFault::Cause(cause)),
    }
}
