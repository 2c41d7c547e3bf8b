//! What a report is made of, from lines.

use crate::escapes::bytes_of;
use host_text::block::{Block, FreeLine, RefusedLine, Reply, RunBlock, Status, Stay};
use host_text::{Items, Place, Text};
use std::alloc::{AllocError, Global};

/// What a report is made of.
#[derive(Drop)]
pub struct Parts {
    /// The tenants.
    pub blocks: Vec<Block>,
    /// The free orders.
    pub free: Vec<FreeLine>,
}

/// A text of a word.
fn text_of(alloc: Global, word: &str) -> Result<Text, AllocError> {
    Ok(Text::from_vec(bytes_of(alloc, word)?))
}

/// The number that a word says; 0 where it says none.
fn number(word: &str) -> u64 {
    match word.parse::<u64>() {
        Ok(number) => number,
        Err(_) => 0,
    }
}

/// The line or column that a word says; 0 where it says none.
fn small(word: &str) -> u32 {
    match word.parse::<u32>() {
        Ok(number) => number,
        Err(_) => 0,
    }
}

fn status_of(word: &str) -> Status {
    match word {
        "finished" => Status::Finished,
        "budget" => Status::Budget,
        _ => Status::Stopped,
    }
}

/// The stays that words say, three for each.
fn stays(alloc: Global, words: &[&str]) -> Result<Items<Stay>, AllocError> {
    let mut stays = Vec::new(alloc);
    for three in words.chunks(3) {
        if let [fabric, from, to] = three {
            stays.push(Stay {
                fabric: text_of(alloc, fabric)?,
                from: number(from),
                to: number(to),
            })?;
        }
    }
    Ok(Items::from_vec(stays))
}

/// The words of a list, with a space between two.
fn joined(alloc: Global, words: &[&str]) -> Result<Text, AllocError> {
    let mut all = Vec::new(alloc);
    for word in words {
        if !all.is_empty() {
            all.push(b' ')?;
        }
        all.extend_from_slice(word.as_bytes())?;
    }
    Ok(Text::from_vec(all))
}

fn ran(alloc: Global, words: &[&str]) -> Result<Option<Block>, AllocError> {
    let [name, end, ticks, cycles, printed, more @ ..] = words else {
        return Ok(None);
    };
    let name = text_of(alloc, name)?;
    let printed = text_of(alloc, printed)?;
    Ok(Some(Block::Ran(RunBlock {
        name,
        status: status_of(end),
        ticks: number(ticks),
        cycles: number(cycles),
        printed,
        stays: stays(alloc, more)?,
    })))
}

fn refused(alloc: Global, words: &[&str]) -> Result<Option<Block>, AllocError> {
    let [name, line, column, kind @ ..] = words else {
        return Ok(None);
    };
    let name = text_of(alloc, name)?;
    Ok(Some(Block::Refused(RefusedLine {
        name,
        place: Place {
            line: small(line),
            column: small(column),
        },
        kind: joined(alloc, kind)?,
    })))
}

fn reply_of(words: &[&str]) -> Reply {
    match words {
        [word, tick] if *word == "ended" => Reply::Ended(number(tick)),
        [word] if *word == "small" => Reply::Small,
        [word] if *word == "refused" => Reply::Refused,
        [tick] => Reply::At(number(tick)),
        _ => Reply::Refused,
    }
}

/// The words of a line; those of an order end with `=`, behind which the reply stands.
fn free(alloc: Global, line: &str) -> Result<FreeLine, AllocError> {
    let mut order = Vec::new(alloc);
    let mut said: Vec<&str> = Vec::new(alloc);
    let mut is_reply = false;
    for word in line.split(' ') {
        if word == "=" {
            is_reply = true;
        } else if is_reply {
            said.push(word)?;
        } else {
            order.push(text_of(alloc, word)?)?;
        }
    }
    Ok(FreeLine {
        words: Items::from_vec(order),
        reply: reply_of(said.as_slice()),
    })
}

/// The words of a line.
fn words<'a>(alloc: Global, line: &'a str) -> Result<Vec<&'a str>, AllocError> {
    line.split(' ').collect(alloc)
}

/// Adds what a line says.
fn add(alloc: Global, parts: &mut Parts, line: &str) -> Result<(), AllocError> {
    if let Some(order) = line.strip_prefix("free ") {
        parts.free.push(free(alloc, order)?)?;
        return Ok(());
    }
    let block = if let Some(line) = line.strip_prefix("ran ") {
        ran(alloc, &words(alloc, line)?)?
    } else if let Some(line) = line.strip_prefix("refused ") {
        refused(alloc, &words(alloc, line)?)?
    } else {
        None
    };
    if let Some(block) = block {
        parts.blocks.push(block)?;
    }
    Ok(())
}

/// What lines say.
pub fn read_parts(alloc: Global, lines: &str) -> Result<Parts, AllocError> {
    let mut parts = Parts {
        blocks: Vec::new(alloc),
        free: Vec::new(alloc),
    };
    for line in lines.lines() {
        add(alloc, &mut parts, line)?;
    }
    Ok(parts)
}
