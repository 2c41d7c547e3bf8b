//! The bytes of a report.

ghost use Rattle.std.specs.Prelude.{◌≡◌, ◌++◌, OnOk, OnErr, codes, flat_map};
ghost use Rattle.std.specs.Fmt.{decimal};
ghost use Rattle.host_text.specs.Report as r;

use crate::block::{Block, FreeLine, RefusedLine, Reply, RunBlock, Status, Stay};
use std::alloc::{AllocError, Global};
use ten_plan::Text;

/// Adds a space and a number in decimal.
fn push_number(alloc: Global, number: u64, text: &mut Vec<u8>) -> Result<(), AllocError>
    ensures { OnOk result (text.new.items ≡ text.old.items ++ codes " " ++ decimal number) }
{
    let digits = number.to_string(alloc)?;
    text.extend_from_slice(b" ")?;
    text.extend_from_slice(digits.as_bytes())?;
    Ok(())
}

/// The word of a status.
fn status_word(status: Status) -> &'static [u8]
    ensures { result.now ≡ r.status_word status }
{
    match status {
        Status::Finished => b"finished".as_slice(),
        Status::Budget => b"budget".as_slice(),
        Status::Stopped => b"stopped".as_slice(),
    }
}

/// Adds the line of a stay.
fn push_stay(alloc: Global, name: &[u8], stay: &Stay, text: &mut Vec<u8>) -> Result<(), AllocError>
    ensures { OnOk result (text.new.items ≡ text.old.items ++ r.stay_line name.now stay.now) }
{
    text.extend_from_slice(b"stay ")?;
    text.extend_from_slice(name)?;
    text.extend_from_slice(b" ")?;
    text.extend_from_slice(stay.fabric.as_slice())?;
    push_number(alloc, stay.from, text)?;
    push_number(alloc, stay.to, text)?;
    text.extend_from_slice(b"\n")?;
    Ok(())
}

/// Adds the first words of a tenant's block.
fn push_title(block: &RunBlock, text: &mut Vec<u8>) -> Result<(), AllocError>
    ensures { OnOk result (text.new.items ≡ text.old.items ++ r.title block.now) }
{
    text.extend_from_slice(b"tenant ")?;
    text.extend_from_slice(block.name.as_slice())?;
    text.extend_from_slice(b" ")?;
    text.extend_from_slice(status_word(block.status))?;
    Ok(())
}

/// Adds the first line of a tenant's block.
fn push_head(alloc: Global, block: &RunBlock, text: &mut Vec<u8>) -> Result<(), AllocError>
    ensures { OnOk result (text.new.items ≡ text.old.items ++ r.tenant_line block.now) }
{
    push_title(block, text)?;
    push_number(alloc, block.ticks, text)?;
    push_number(alloc, block.cycles, text)?;
    push_number(alloc, block.printed.as_slice().len() as u64, text)?;
    text.extend_from_slice(b"\n")?;
    Ok(())
}

/// Adds the lines of a tenant's stays.
fn push_stays(alloc: Global, block: &RunBlock, text: &mut Vec<u8>) -> Result<(), AllocError>
    ensures { OnOk result (text.new.items ≡ text.old.items ++ flat_map (r.stay_line block.now.name) block.now.stays) }
{
    for stay in block.stays.as_slice() {
        push_stay(alloc, block.name.as_slice(), stay, text)?;
    }
    Ok(())
}

/// Adds the block of a tenant that ran.
fn push_run(alloc: Global, block: &RunBlock, text: &mut Vec<u8>) -> Result<(), AllocError>
    ensures { OnOk result (text.new.items ≡ text.old.items ++ r.run_block block.now) }
{
    push_head(alloc, block, text)?;
    text.extend_from_slice(block.printed.as_slice())?;
    text.extend_from_slice(b"\n")?;
    push_stays(alloc, block, text)
}

/// Adds the line of a refused tenant.
fn push_refused(alloc: Global, line: &RefusedLine, text: &mut Vec<u8>) -> Result<(), AllocError>
    ensures { OnOk result (text.new.items ≡ text.old.items ++ r.refused_line line.now) }
{
    text.extend_from_slice(b"refused ")?;
    text.extend_from_slice(line.name.as_slice())?;
    push_number(alloc, u64::from(line.place.line), text)?;
    push_number(alloc, u64::from(line.place.column), text)?;
    text.extend_from_slice(b" ")?;
    text.extend_from_slice(line.kind.as_slice())?;
    text.extend_from_slice(b"\n")?;
    Ok(())
}

/// Adds what is said of a tenant.
fn push_block(alloc: Global, block: &Block, text: &mut Vec<u8>) -> Result<(), AllocError>
    ensures { OnOk result (text.new.items ≡ text.old.items ++ r.block block.now) }
{
    match block {
        Block::Ran(block) => push_run(alloc, block, text),
        Block::Refused(line) => push_refused(alloc, line, text),
    }
}

/// Adds what is said of some tenants.
fn push_blocks(alloc: Global, blocks: &[Block], text: &mut Vec<u8>) -> Result<(), AllocError>
    ensures { OnOk result (text.new.items ≡ text.old.items ++ flat_map r.block blocks.now) }
{
    for block in blocks {
        push_block(alloc, block, text)?;
    }
    Ok(())
}

/// Adds a reply.
fn push_reply(alloc: Global, reply: Reply, text: &mut Vec<u8>) -> Result<(), AllocError>
    ensures { OnOk result (text.new.items ≡ text.old.items ++ r.reply reply) }
{
    match reply {
        Reply::At(tick) => push_number(alloc, tick, text),
        Reply::Ended(tick) => {
            text.extend_from_slice(b" ended")?;
            push_number(alloc, tick, text)
        }
        Reply::Small => text.extend_from_slice(b" small"),
        Reply::Refused => text.extend_from_slice(b" refused"),
    }
}

/// Adds words, each behind a space.
fn push_words(words: &[Text], text: &mut Vec<u8>) -> Result<(), AllocError>
    ensures { OnOk result (text.new.items ≡ text.old.items ++ flat_map r.word words.now) }
{
    for word in words {
        text.extend_from_slice(b" ")?;
        text.extend_from_slice(word.as_slice())?;
    }
    Ok(())
}

/// Adds the line of a free order.
fn push_free(alloc: Global, line: &FreeLine, text: &mut Vec<u8>) -> Result<(), AllocError>
    ensures { OnOk result (text.new.items ≡ text.old.items ++ r.free_line line.now) }
{
    text.extend_from_slice(b"free")?;
    push_words(line.words.as_slice(), text)?;
    push_reply(alloc, line.reply, text)?;
    text.extend_from_slice(b"\n")?;
    Ok(())
}

/// Adds the lines of free orders.
fn push_free_lines(alloc: Global, lines: &[FreeLine], text: &mut Vec<u8>) -> Result<(), AllocError>
    ensures { OnOk result (text.new.items ≡ text.old.items ++ flat_map r.free_line lines.now) }
{
    for line in lines {
        push_free(alloc, line, text)?;
    }
    Ok(())
}

/// Adds a report: what it says of the tenants, and then the lines of the free orders. Want of memory
/// leaves the bytes as they were.
pub fn report(
    alloc: Global,
    blocks: &[Block],
    free: &[FreeLine],
    out: &mut Vec<u8>,
) -> Result<(), AllocError>
    ensures ok { OnOk result (out.new.items ≡ out.old.items ++ r.report blocks.now free.now) }
    ensures err { OnErr result (out.new.items ≡ out.old.items) }
{
    let mut text = Vec::new(alloc);
    push_blocks(alloc, blocks, &mut text)?;
    push_free_lines(alloc, free, &mut text)?;
    out.extend_from_slice(&text)
}
