//! Whether lines are the wanted ones.

use std::alloc::{AllocError, Global};

/// Some words of a line may be any: it is the first line of a tenant, or that of a stay or a free order.
fn has_any_words(wanted: &str) -> bool {
    wanted.starts_with("tenant ") || wanted.starts_with("stay ") || wanted.starts_with("free ")
}

/// Whether words are the wanted ones, where `*` stands for any.
fn are_words(wanted: &str, line: &str) -> bool {
    let mut words = line.split(' ');
    for want in wanted.split(' ') {
        match words.next() {
            Some(word) if want == "*" || want == word => {}
            _ => return false,
        }
    }
    words.next().is_none()
}

/// Whether a line is the wanted one.
fn is_wanted(wanted: &str, line: &str) -> bool {
    if has_any_words(wanted) {
        return are_words(wanted, line);
    }
    wanted == line
}

/// The place behind the wanted line, from a place on: it stands there, or else, where lines may be passed over, it is the first.
fn place_behind(wanted: &str, lines: &[&str], from: usize, passes: bool) -> Option<usize> {
    for place in from..lines.len() {
        if is_wanted(wanted, lines[place]) {
            return Some(place + 1);
        }
        if !passes {
            return None;
        }
    }
    None
}

/// The lines of a text.
pub fn lines_of<'a>(alloc: Global, text: &'a str) -> Result<Vec<&'a str>, AllocError> {
    let mut lines = Vec::new(alloc);
    for line in text.split('\n') {
        lines.push(line)?;
    }
    Ok(lines)
}

/// Whether all lines are the wanted ones, where `...` stands for any up to the next that is as wanted.
pub fn are_wanted(alloc: Global, wanted: &str, answer: &str) -> Result<bool, AllocError> {
    let lines = lines_of(alloc, answer)?;
    let (mut place, mut passes) = (0, false);
    for want in wanted.split('\n') {
        if want == "..." {
            passes = true;
            continue;
        }
        let Some(behind) = place_behind(want, &lines, place, passes) else {
            return Ok(false);
        };
        (place, passes) = (behind, false);
    }
    Ok(place == lines.len())
}

/// Whether a line of the answer begins with one of these texts, each of which is a line.
pub fn has_unwanted(unwanted: &str, answer: &str) -> bool {
    for text in unwanted.split('\n') {
        if !text.is_empty() && answer.split('\n').any(|line| line.starts_with(text)) {
            return true;
        }
    }
    false
}
