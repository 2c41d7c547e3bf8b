//! Tables in words: a line for the waves, and a line for each node.

use crate::splits::writes::{push_name, push_piece};
use std::alloc::{AllocError, Global};
use sub_split::table::{Node, Segment, Table, Wave, WayOn};
use vl_design::design::Signal;

/// A wave by its first node and its update.
fn push_wave(alloc: Global, text: &mut String, name: &str, wave: Wave) -> Result<(), AllocError> {
    let words = format!(in alloc; "{name} {} {}", wave.first, wave.update)?;
    text.push_str(words.as_str())
}

/// Adds a number behind a word.
fn push_number(
    alloc: Global,
    text: &mut String,
    word: &str,
    number: u32,
) -> Result<(), AllocError> {
    let words = format!(in alloc; "{word} {number}")?;
    text.push_str(words.as_str())
}

/// Adds how a node goes on.
fn push_way_on(alloc: Global, text: &mut String, on: &WayOn<'_>) -> Result<(), AllocError> {
    match on {
        WayOn::Go(to) => push_number(alloc, text, " go", *to),
        WayOn::Branch(_, first, second) => {
            push_number(alloc, text, " branch", *first)?;
            push_number(alloc, text, "", *second)
        }
        WayOn::Switch(_, ways, otherwise) => {
            text.push_str(" switch")?;
            for way in ways {
                push_number(alloc, text, "", way.to)?;
            }
            push_number(alloc, text, " else", *otherwise)
        }
        WayOn::Commit(to) => push_number(alloc, text, " commit", *to),
    }
}

/// Adds a segment.
fn push_segment(
    text: &mut String,
    signals: &[Signal],
    segment: &Segment<'_>,
) -> Result<(), AllocError> {
    if segment.rises {
        text.push_str(" rise")?;
    }
    for piece in &segment.statements {
        push_piece(text, signals, *piece)?;
    }
    Ok(())
}

/// Adds a node.
fn push_node(
    alloc: Global,
    text: &mut String,
    signals: &[Signal],
    node: &Node<'_>,
) -> Result<(), AllocError> {
    match node {
        Node::Run(segment, on) => {
            text.push_str(" run")?;
            push_segment(text, signals, segment)?;
            push_way_on(alloc, text, on)
        }
        Node::Trap(_, call, to) => {
            text.push_str(" trap ")?;
            push_name(text, call.name.as_slice())?;
            push_number(alloc, text, "", *to)
        }
        Node::Apply(to) => push_number(alloc, text, " apply", *to),
    }
}

/// A table in words.
pub fn table_text(
    alloc: Global,
    signals: &[Signal],
    table: &Table<'_>,
) -> Result<String, AllocError> {
    let mut text = String::new(alloc);
    push_wave(alloc, &mut text, "zero", table.zero)?;
    push_wave(alloc, &mut text, ", rise", table.rise)?;
    push_wave(alloc, &mut text, ", fall", table.fall)?;
    text.push('\n')?;
    for (number, node) in table.nodes.iter().enumerate() {
        let words = format!(in alloc; "{number}")?;
        text.push_str(words.as_str())?;
        push_node(alloc, &mut text, signals, node)?;
        text.push('\n')?;
    }
    Ok(text)
}

/// The number of a table's nodes.
pub fn count_text(alloc: Global, table: &Table<'_>) -> Result<String, AllocError> {
    format!(in alloc; "nodes {}\n", table.nodes.len())
}
