//! The source that a list of tokens is.

ghost use Rattle.std.specs.Prelude.{◌≡◌, ℕ, ◌⊎◌, [], IfOk};
ghost use Rattle.vl_tree.specs.declared.source_tree.Source.{Source as SourceLem};
ghost use Rattle.vl_tree.specs.GrammarOfSource.{ReadsSource};
ghost use Rattle.vl_tree.specs.FaultsOfSource.{IsSource, IsFirstFault, PassesLimit, limits as limits_lem, statement_limit, expression_limit};
ghost use Rattle.vl_tree.specs.Begins.{place_at};
ghost use Rattle.vl_pstmt.specs.vl_pexpr.specs.declared.parse.ParseFault.TheVariants as fault;
ghost use Rattle.vl_parse.specs.Parts.{fault_of as fault_of_lem};

use crate::modules::source_at;
use std::alloc::Global;
use vl_pstmt::ParseFault;
use vl_tree::Place;
use vl_tree::source_fault::{Cause, Fault};
use vl_tree::source_tree::Source;
use vl_tree::token::Token;

/// The tree of the source that all the tokens are. The place of the end is `end`.
///
/// Limit 3 is 128 statements around a token, limit 4 is 1,000 tokens in an expression or a left side that stands in
/// no other.
pub fn parse(alloc: Global, tokens: &[Token], end: Place) -> Result<Source, ParseFault>

    // What is read is the source with this tree, which is the only one, and it keeps the limits.
    ensures read { IfOk result (λ s. IsSource s tokens.now) }
    ensures only { IfOk result (λ s. (other : SourceLem) → IsSource other tokens.now → other ≡ s) }
    ensures within { IfOk result (λ s. ReadsSource (limits_lem 0) s tokens.now []) }

    // A fault is the first: a limit only where the tokens would begin a source without it.
    ensures fault { (p : Place) → result ≡ Err (fault.At p) → IsFirstFault tokens.now end p }
    ensures limit { (p : Place) (n : ℕ) → result ≡ Err (fault.Limit p n)
        → ((n ≡ 3) × PassesLimit statement_limit tokens.now end p) ⊎ ((n ≡ 4) × PassesLimit expression_limit tokens.now end p) }

    // Each of these comes where it holds, unless memory runs out.
    ensures accepts { (s : SourceLem) → ReadsSource (limits_lem 0) s tokens.now []
        → (result ≡ Ok s) ⊎ (result ≡ Err fault.Memory) }
    ensures refuses { (p : Place) → IsFirstFault tokens.now end p
        → (result ≡ Err (fault.At p)) ⊎ (result ≡ Err fault.Memory) }
    ensures limits_statements { (p : Place) → PassesLimit statement_limit tokens.now end p
        → (result ≡ Err (fault.Limit p 3)) ⊎ (result ≡ Err fault.Memory) }
    ensures limits_expressions { (p : Place) → PassesLimit expression_limit tokens.now end p
        → (result ≡ Err (fault.Limit p 4)) ⊎ (result ≡ Err fault.Memory) }
{
    match source_at(alloc, tokens) {
        Ok(source) => Ok(source),
        Err(Fault::At(cause, rest)) => Err(fault_of(cause, first_place_or(rest, end))),
        Err(Fault::Memory) => Err(ParseFault::Memory),
    }
}

/// The place of the first token, or of the end.
fn first_place_or(tokens: &[Token], end: Place) -> Place
    ensures { result ≡ place_at tokens.now 0 end }
{
    match tokens.get(0) {
        Some(token) => token.place,
        None => end,
    }
}

/// The fault at this place.
fn fault_of(cause: Cause, place: Place) -> ParseFault
    ensures { result ≡ fault_of_lem cause place }
{
    match cause {
        Cause::Syntax => ParseFault::At(place),
        Cause::Statements => ParseFault::Limit(place, 3),
        Cause::Tokens => ParseFault::Limit(place, 4),
    }
}
