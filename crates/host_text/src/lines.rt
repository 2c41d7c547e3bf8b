//! The lines of a script.

ghost use Rattle.std.specs.Prelude.{◌≡◌, ◌==◌, map, IfOk};
ghost use Rattle.std.specs.List.{slice_split};
ghost use Rattle.host_text.specs.Words as w;

use std::alloc::{AllocError, Global};

/// What stands between the newlines.
fn between_newlines(alloc: Global, bytes: &[u8]) -> Result<Vec<&[u8]>, AllocError>
    ensures { IfOk result (λ v. map (λ x. x.now) v.items ≡ slice_split (λ b. b == 10) bytes.now) }
{
    bytes.split(|byte| *byte == b'\n').collect(alloc)
}

/// Lines without an empty rest behind the last newline, which is none.
fn without_empty_rest(lines: Vec<&[u8]>) -> Result<Vec<&[u8]>, AllocError>
    ensures { IfOk result (λ v. map (λ x. x.now) v.items ≡ w.without_empty_rest (map (λ x. x.now) lines.entry.items)) }
{
    let mut lines = lines;
    let Some(rest) = lines.pop() else {
        return Ok(lines);
    };
    if rest.is_empty() {
        return Ok(lines);
    }
    lines.push(rest)?;
    Ok(lines)
}

/// The lines of a script, each without the newline at its end.
pub fn lines(alloc: Global, bytes: &[u8]) -> Result<Vec<&[u8]>, AllocError>
    ensures { IfOk result (λ v. map (λ x. x.now) v.items ≡ w.lines bytes.now) }
{
    let lines = between_newlines(alloc, bytes)?;
    without_empty_rest(lines)
}
