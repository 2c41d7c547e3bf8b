//! What elaboration answers to a source.

use crate::flat::table::table;
use std::alloc::{AllocError, Global};
use vl_design::Place;
use vl_design::design::Design;
use vl_design::stop::Stop;
use vl_elab::elaborate::elaborate;
use vl_lex::lex::lex;
use vl_parse::parse;

/// The answer has no fault of names, which are the refused constructs 1 to 9.
fn are_names_fine(answer: &Result<Design, Stop>) -> bool {
    match answer {
        Ok(_) | Err(Stop::Limit(_, _)) => true,
        Err(Stop::Construct(_, number)) => *number > 9,
        Err(Stop::Memory) => false,
    }
}

/// The flat design as a table, or the first fault in words.
fn in_words(alloc: Global, answer: Result<Design, Stop>) -> Result<String, AllocError> {
    match answer {
        Ok(design) => table(alloc, &design),
        Err(Stop::Construct(place, number)) => {
            format!(in alloc; "construct {number} at {} {}\n", place.line, place.column)
        }
        Err(Stop::Limit(place, number)) => {
            format!(in alloc; "limit {number} at {} {}\n", place.line, place.column)
        }
        Err(Stop::Memory) => Err(AllocError),
    }
}

/// What is answered to a source: `named` where that is wanted and names have no fault, whatever the design.
fn answer(alloc: Global, wanted: &str, source: &str) -> Result<String, AllocError> {
    let Ok(tokens) = lex(alloc, source.as_bytes()) else {
        return String::from_str(alloc, "no tokens\n");
    };
    let end = Place { line: 0, column: 0 };
    let Ok(tree) = parse(alloc, tokens.as_slice(), end) else {
        return String::from_str(alloc, "no tree\n");
    };
    let answer = elaborate(alloc, &tree);
    if wanted == "named\n" && are_names_fine(&answer) {
        return String::from_str(alloc, wanted);
    }
    in_words(alloc, answer)
}

/// `ok` where the answer is the wanted one, else both.
pub fn compared(alloc: Global, wanted: &str, source: &str) -> Result<String, AllocError> {
    let answer = answer(alloc, wanted, source)?;
    if answer.as_str() == wanted {
        return String::from_str(alloc, "ok");
    }
    format!(in alloc; "{wanted}is wanted,\n{answer}came")
}
