//! What the front end answers to a source.

ghost use Rattle.vl_design.specs.Seen.{placed};
ghost use Rattle.vl_accept.specs.Fit.{IsFit};

use crate::checking::words::{costs, numbered, plain};
use elab_laws::fit_laws::an_elaborated_design_is_fit_to_be_judged;
use std::alloc::{AllocError, Global};
use vl_accept::accept::accept;
use vl_accept::fault::Fault;
use vl_cost::cost::cost;
use vl_design::Place;
use vl_design::design::Design;
use vl_design::stop::Stop;
use vl_elab::elaborate::elaborate;
use vl_lex::lex::{LexFault, lex};
use vl_parse::parse;
use vl_pexpr::ParseFault;
use vl_tree::source_tree::Source;
use vl_tree::token::Token;

/// The answer to the flat design of a source.
fn answer_to_design(alloc: Global, design: &Design) -> Result<String, AllocError>
    requires { IsFit (placed design.now) }
{
    match accept(alloc, design) {
        Ok(accepted) => costs(alloc, cost(alloc, &accepted.design)?),
        Err(Fault::Construct(place, number)) => numbered(alloc, "construct", number, place),
        Err(Fault::Limit(place, number)) => numbered(alloc, "limit", number, place),
        Err(Fault::Loop(place, _)) => plain(alloc, "loop", place),
        Err(Fault::Memory) => Err(AllocError),
    }
}

/// The answer to the tree of a source.
fn answer_to_tree(alloc: Global, tree: &Source) -> Result<String, AllocError> {
    an_elaborated_design_is_fit_to_be_judged();
    match elaborate(alloc, tree) {
        Ok(design) => answer_to_design(alloc, &design),
        Err(Stop::Construct(place, number)) => numbered(alloc, "construct", number, place),
        Err(Stop::Limit(place, number)) => numbered(alloc, "limit", number, place),
        Err(Stop::Memory) => Err(AllocError),
    }
}

/// The answer to the tokens of a source, whose end has no place of its own here.
fn answer_to_tokens(alloc: Global, tokens: &[Token]) -> Result<String, AllocError> {
    match parse(alloc, tokens, Place { line: 0, column: 0 }) {
        Ok(tree) => answer_to_tree(alloc, &tree),
        Err(ParseFault::At(place)) => plain(alloc, "parse", place),
        Err(ParseFault::Limit(place, number)) => numbered(alloc, "limit", number, place),
        Err(ParseFault::Memory) => Err(AllocError),
    }
}

/// The answer to a source: its first fault, or the cost of the design that is accepted.
fn answer(alloc: Global, source: &str) -> Result<String, AllocError> {
    match lex(alloc, source.as_bytes()) {
        Ok(tokens) => answer_to_tokens(alloc, &tokens),
        Err(LexFault::At(place, cause)) => numbered(alloc, "lex", cause, place),
        Err(LexFault::Limit(place, number)) => numbered(alloc, "limit", number, place),
        Err(LexFault::Memory) => Err(AllocError),
    }
}

/// An answer is the wanted one; each cost is that of a design that is accepted.
fn meets(answer: &str, wanted: &str) -> bool {
    answer == wanted || (wanted == "accepted" && answer.starts_with("cost "))
}

/// `ok` where the answer is the wanted one, else both, and the source.
pub fn compared(alloc: Global, wanted: &str, source: &str) -> Result<String, AllocError> {
    let answer = answer(alloc, source)?;
    if meets(answer.as_str(), wanted) {
        return String::from_str(alloc, "ok");
    }
    format!(in alloc; "{wanted} is wanted, {answer} came: {source}")
}
