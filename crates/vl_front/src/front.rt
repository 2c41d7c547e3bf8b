//! What comes of a source.

ghost use Rattle.std.specs.Prelude.{◌≡◌, ℕ, List, Ok, Err};
ghost use Rattle.vl_lex.specs.vl_tree.specs.Faults.{IsRead};
ghost use Rattle.vl_lex.specs.vl_tree.specs.declared.source_tree.Source.{Source as Tree};
ghost use Rattle.vl_elab.specs.vl_design.specs.Seen.{placed};
ghost use Rattle.vl_elab.specs.vl_sound.specs.Meeting.{IsElaboration};
ghost use Rattle.vl_accept.specs.Fit.{IsFit};
ghost use Rattle.vl_front.specs.declared.fault.BuildError.TheVariants.{Refused};
ghost use Rattle.vl_front.specs.Sources.{end_of as end_of_lem, IsTreeOf, IsDesignOf, IsFront};

use crate::end::end_of;
use crate::fault::{BuildError, Kind};
use elab_laws::fit_laws::an_elaborated_design_is_fit_to_be_judged;
use std::alloc::Global;
use vl_accept::accept::{Accepted, accept};
use vl_accept::fault::Fault;
use vl_elab::Place;
use vl_elab::design::Design;
use vl_elab::elaborate::elaborate;
use vl_elab::stop::Stop;
use vl_lex::lex::{LexFault, lex};
use vl_lex::source_tree::Source;
use vl_lex::token::Token;
use vl_parse::{ParseFault, parse};

/// A source is refused at a place, for a reason of a kind.
fn refused(place: Place, kind: Kind) -> Result<Accepted, BuildError>
    ensures { result ≡ Err (Refused place kind) }
{
    Err(BuildError::Refused(place, kind))
}

/// What comes of the flat design of a source.
fn of_design(alloc: Global, design: &Design) -> Result<Accepted, BuildError>
    requires fit { IsFit (placed design.now) }
    ensures { (text : List ℕ) → IsDesignOf text (placed design.now) → IsFront text result }
{
    match accept(alloc, design) {
        Ok(accepted) => Ok(accepted),
        Err(Fault::Construct(place, number)) => refused(place, Kind::Construct(number)),
        Err(Fault::Limit(place, number)) => refused(place, Kind::Limit(number)),
        Err(Fault::Loop(place, cycle)) => refused(place, Kind::Loop(cycle)),
        Err(Fault::Memory) => Err(BuildError::Memory),
    }
}

/// What comes of the tree of a source.
fn of_tree(alloc: Global, tree: &Source) -> Result<Accepted, BuildError>
    ensures { (text : List ℕ) → IsTreeOf text tree.now → IsFront text result }
{
    an_elaborated_design_is_fit_to_be_judged();
    match elaborate(alloc, tree) {
        Ok(design) => of_design(alloc, &design),
        Err(Stop::Construct(place, number)) => refused(place, Kind::Construct(number)),
        Err(Stop::Limit(place, number)) => refused(place, Kind::Limit(number)),
        Err(Stop::Memory) => Err(BuildError::Memory),
    }
}

/// What comes of the tokens of a source, which ends at the place `end`.
fn of_tokens(alloc: Global, tokens: &[Token], end: Place) -> Result<Accepted, BuildError>
    ensures { (text : List ℕ) → IsRead text tokens.now → end ≡ end_of_lem text → IsFront text result }
{
    match parse(alloc, tokens, end) {
        Ok(tree) => of_tree(alloc, &tree),
        Err(ParseFault::At(place)) => refused(place, Kind::Parse),
        Err(ParseFault::Limit(place, number)) => refused(place, Kind::Limit(number)),
        Err(ParseFault::Memory) => Err(BuildError::Memory),
    }
}

/// The design that a source stands for, with its loops unrolled, and an order of its processes; or the place and the kind of exactly
/// the first fault for which the source is refused.
pub fn front(alloc: Global, text: &[u8]) -> Result<Accepted, BuildError>
    ensures { IsFront text.now result }
{
    match lex(alloc, text) {
        Ok(tokens) => of_tokens(alloc, &tokens, end_of(text)),
        Err(LexFault::At(place, cause)) => refused(place, Kind::Lex(cause)),
        Err(LexFault::Limit(place, number)) => refused(place, Kind::Limit(number)),
        Err(LexFault::Memory) => Err(BuildError::Memory),
    }
}
