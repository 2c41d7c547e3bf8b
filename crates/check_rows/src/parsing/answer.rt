//! What the front end says of a source.

use crate::parsing::expressions::show_expression;
use crate::parsing::modules::show_source;
use crate::parsing::printer::Printer;
use crate::parsing::tokens::{show_lex_fault, show_tokens};
use std::alloc::{AllocError, Global};
use vl_design::Place;
use vl_lex::lex::lex;
use vl_parse::parse;
use vl_pexpr::{ParseFault, expression};
use vl_tree::token::Token;

/// This place stands for the end of a source.
const END: Place = Place { line: 0, column: 0 };

/// What is asked of a source.
#[derive(Clone, Copy, PartialEq, Eq)]
pub enum Question {
    /// Its tokens, without its last line's end.
    Tokens,
    /// Whether it is read.
    Read,
    /// Its tree.
    Tree,
    /// How many tokens are read of an expression.
    Length,
    /// How many tokens are read of an expression, and its tree.
    Expression,
}

fn show_fault(out: &mut Printer, fault: ParseFault) {
    match fault {
        ParseFault::At(place) => out.at("fault", place),
        ParseFault::Limit(place, number) => {
            out.word("limit ");
            out.number(u128::from(number));
            out.place(place);
        }
        ParseFault::Memory => out.word("memory"),
    }
}

fn answer_on_source(alloc: Global, out: &mut Printer, tokens: &[Token], is_short: bool) {
    match parse(alloc, tokens, END) {
        Ok(source) => {
            if is_short {
                out.word("read");
            } else {
                show_source(out, &source);
            }
        }
        Err(fault) => show_fault(out, fault),
    }
}

fn answer_on_expression(alloc: Global, out: &mut Printer, tokens: &[Token], is_short: bool) {
    match expression(alloc, tokens, 0, END) {
        Ok((tree, count)) => {
            out.number(count as u128);
            if !is_short {
                out.word(" ");
                show_expression(out, &tree);
            }
        }
        Err(fault) => show_fault(out, fault),
    }
}

/// The answer to a question on a source.
pub fn answer(alloc: Global, question: Question, source: &str) -> Result<String, AllocError> {
    let mut out = Printer::new(alloc);
    let text = match question {
        Question::Tokens => source.strip_suffix('\n').unwrap_or(source),
        _ => source,
    };
    match lex(alloc, text.as_bytes()) {
        Ok(tokens) => {
            let tokens = tokens.as_slice();
            match question {
                Question::Tokens => show_tokens(&mut out, tokens),
                Question::Read => answer_on_source(alloc, &mut out, tokens, true),
                Question::Tree => answer_on_source(alloc, &mut out, tokens, false),
                Question::Length => answer_on_expression(alloc, &mut out, tokens, true),
                Question::Expression => answer_on_expression(alloc, &mut out, tokens, false),
            }
        }
        Err(fault) => show_lex_fault(&mut out, fault),
    }
    out.finish()
}
