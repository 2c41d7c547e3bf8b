//! What the demonstration says of its tenants.

ghost use Rattle.std.specs.Prelude.{◌≡◌, ◌++◌, IfOk, OnOk, sum};
ghost use Rattle.host_text.specs.Report as r;
ghost use Rattle.host_demo.specs.Summary as s;

use host_text::block::{Block, RunBlock, Status};
use host_text::report::report;
use std::alloc::{AllocError, Global};

/// Adds a number in decimal behind a space.
fn push_number(alloc: Global, number: u64, text: &mut Vec<u8>) -> Result<(), AllocError>
    ensures { OnOk result (text.new.items ≡ text.old.items ++ r.number number) }
{
    let digits = number.to_string(alloc)?;
    text.extend_from_slice(b" ")?;
    text.extend_from_slice(digits.as_bytes())?;
    Ok(())
}

/// The word of a status.
fn status_word(status: Status) -> &'static [u8]
    ensures { result.now ≡ r.status_word status }
{
    match status {
        Status::Finished => b"finished".as_slice(),
        Status::Budget => b"budget".as_slice(),
        Status::Stopped => b"stopped".as_slice(),
    }
}

/// The sum of bytes.
fn sum_of(bytes: &[u8]) -> u128
    ensures { result ≡ sum bytes.now }
{
    let mut total = 0;
    for byte in bytes {
        total += u128::from(*byte);
    }
    total
}

/// Adds the sum of bytes behind a space.
fn push_sum(alloc: Global, bytes: &[u8], text: &mut Vec<u8>) -> Result<(), AllocError>
    ensures { OnOk result (text.new.items ≡ text.old.items ++ r.number (sum bytes.now)) }
{
    let digits = sum_of(bytes).to_string(alloc)?;
    text.extend_from_slice(b" ")?;
    text.extend_from_slice(digits.as_bytes())?;
    Ok(())
}

/// Adds the line of a tenant that ran.
fn push_ran(alloc: Global, block: &RunBlock, text: &mut Vec<u8>) -> Result<(), AllocError>
    ensures { OnOk result (text.new.items ≡ text.old.items ++ s.ran_line block.now) }
{
    text.extend_from_slice(b"demo ")?;
    text.extend_from_slice(block.name.as_slice())?;
    text.extend_from_slice(b" ")?;
    text.extend_from_slice(status_word(block.status))?;
    push_number(alloc, block.ticks, text)?;
    push_number(alloc, block.cycles, text)?;
    push_number(alloc, block.printed.as_slice().len() as u64, text)?;
    push_sum(alloc, block.printed.as_slice(), text)?;
    text.extend_from_slice(b"\n")?;
    Ok(())
}

/// Adds the line of a tenant.
fn push_line(alloc: Global, block: &Block, text: &mut Vec<u8>) -> Result<(), AllocError>
    ensures { OnOk result (text.new.items ≡ text.old.items ++ s.line block.now) }
{
    match block {
        Block::Ran(ran) => push_ran(alloc, ran, text),
        Block::Refused(_) => report(alloc, std::slice::from_ref(block), &[], text),
    }
}

/// What is said of tenants, a line each.
pub fn summary(alloc: Global, blocks: &[Block]) -> Result<Vec<u8>, AllocError>
    ensures { IfOk result (λ text. text.items ≡ s.summary blocks.now) }
{
    let mut text = Vec::new(alloc);
    for block in blocks {
        push_line(alloc, block, &mut text)?;
    }
    Ok(text)
}
