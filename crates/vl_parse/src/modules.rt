//! Modules and sources (IEEE 1364-2005, clause 12.1 and annex A.1.2).

ghost use Rattle.std.specs.Prelude.{◌≡◌, ◌+◌, ◌<◌, ◌≤◌, codes, [], ◌∷◌, length, MatchResult, Ok, IfOk};
ghost use Rattle.vl_tree.specs.Reading.{keyword};
ghost use Rattle.vl_tree.specs.Parsers.{Gives, Fails, with_front, many, parenthesized};
ghost use Rattle.vl_tree.specs.Parsing as spec;

use crate::declarations::parameter_groups;
use crate::items::items;
use crate::ports::module_ports;
use crate::steps::{before_keyword, before_mark, found};
use std::alloc::Global;
use vl_pstmt::reader::Reader;
use vl_pstmt::steps::after_keyword;
use vl_tree::Place;
use vl_tree::parts::Parts;
use vl_tree::source_fault::{Cause, Fault};
use vl_tree::source_tree::{Module, ParameterGroup, Ports, Source};
use vl_tree::steps::after_mark;
use vl_tree::token::Token;

/// `"(" pgroup { "," pgroup } ")"`
#[tactic(auto, using(vl_pstmt::proofs::Passing::hands_on))]
fn parenthesized_groups<'a>(
    reader: Reader,
    tokens: &'a [Token],
) -> Result<(Parts<ParameterGroup>, &'a [Token]), Fault<'a>>
    requires { length tokens.now + 1 < reader.depth }
    ensures reads { let n = reader.depth in Gives result (parenthesized (spec.parameter_groups (spec.whole n) (spec.target n) n) tokens.now) }
    ensures shorter { IfOk result (λ x. length x.1.now < length tokens.now) }
{
    let (_, rest) = reader.mark(tokens, b"(")?;
    let (groups, rest) = parameter_groups(reader, rest)?;
    before_mark(groups, rest, b")")
}

/// `[ "#" "(" pgroup { "," pgroup } ")" ]`
#[tactic(auto, using(vl_pstmt::proofs::Passing::hands_on), unfolding(vl_tree::specs::Parsing::parameters))]
fn parameters<'a>(
    reader: Reader,
    tokens: &'a [Token],
) -> Result<(Option<Parts<ParameterGroup>>, &'a [Token]), Fault<'a>>
    requires { length tokens.now + 1 < reader.depth }
    ensures reads { let n = reader.depth in Gives result (spec.parameters (spec.whole n) (spec.target n) n (spec.outer n) tokens.now) }
    ensures no_longer { IfOk result (λ x. length x.1.now ≤ length tokens.now) }
{
    let Some((_, rest)) = after_mark(tokens, b"#") else {
        return Ok((None, tokens));
    };
    found(parenthesized_groups(reader, rest))
}

/// `[ "(" [ plist | alist ] ")" ]`
#[tactic(auto, using(vl_pstmt::proofs::Passing::hands_on), unfolding(vl_tree::specs::Parsing::optional_ports))]
fn optional_ports<'a>(
    reader: Reader,
    tokens: &'a [Token],
) -> Result<(Option<Ports>, &'a [Token]), Fault<'a>>
    requires { length tokens.now + 1 < reader.depth }
    ensures reads { let n = reader.depth in Gives result (spec.optional_ports (spec.whole n) (spec.target n) n (spec.outer n) tokens.now) }
    ensures no_longer { IfOk result (λ x. length x.1.now ≤ length tokens.now) }
{
    let Some((_, rest)) = after_mark(tokens, b"(") else {
        return Ok((None, tokens));
    };
    let (ports, rest) = module_ports(reader, rest)?;
    found(before_mark(ports, rest, b")"))
}

/// `module`, from behind its word
#[tactic(auto, using(vl_pstmt::proofs::Passing::hands_on), unfolding(vl_tree::specs::Parsing::definition))]
fn definition<'a>(
    reader: Reader,
    place: Place,
    tokens: &'a [Token],
) -> Result<(Module, &'a [Token]), Fault<'a>>
    requires { length tokens.now + 1 < reader.depth }
    ensures reads { let n = reader.depth in Gives result (spec.definition (spec.whole n) (spec.target n) n (spec.outer n) place tokens.now) }
    ensures shorter { IfOk result (λ x. length x.1.now < length tokens.now) }
{
    let (name, rest) = reader.identifier(tokens)?;
    let (parameters, rest) = parameters(reader, rest)?;
    let (ports, rest) = optional_ports(reader, rest)?;
    let (_, rest) = reader.mark(rest, b";")?;
    let (items, rest) = items(reader, rest)?;
    let module = Module {
        place,
        name,
        parameters,
        ports,
        items,
    };
    before_keyword(module, rest, b"endmodule")
}

/// The module, and those that follow
fn more_modules<'a>(
    reader: Reader,
    first: Module,
    tokens: &'a [Token],
) -> Result<(Parts<Module>, &'a [Token]), Fault<'a>>
    requires { length tokens.now + 1 < reader.depth }
    ensures reads { let n = reader.depth in Gives result (with_front (first ∷ []) (many (keyword (codes "module")) (spec.definition (spec.whole n) (spec.target n) n (spec.outer n)) n tokens.now)) }
    ensures no_longer { IfOk result (λ x. length x.1.now ≤ length tokens.now) }
{
    let mut modules = Parts::new(reader.alloc);
    modules.push(first)?;
    let mut rest = tokens;
    'each: while let Some((place, more)) = after_keyword(rest, b"module") {
        let (module, more) = definition(reader, place, more)?;
        modules.push(module)?;
        rest = more;
    }
    Ok((modules, rest))
}

/// `module { module }`, as long as one comes
#[tactic(auto, using(vl_pstmt::proofs::Passing::hands_on), unfolding(vl_tree::specs::Parsing::modules))]
fn modules<'a>(reader: Reader, tokens: &'a [Token]) -> Result<(Source, &'a [Token]), Fault<'a>>
    requires { length tokens.now + 1 < reader.depth }
    ensures reads { let n = reader.depth in Gives result (spec.modules (spec.whole n) (spec.target n) n (spec.outer n) tokens.now) }
    ensures shorter { IfOk result (λ x. length x.1.now < length tokens.now) }
{
    let (place, rest) = reader.keyword(tokens, b"module")?;
    let (first, rest) = definition(reader, place, rest)?;
    let (modules, rest) = more_modules(reader, first, rest)?;
    Ok((Source { place, modules }, rest))
}

/// The source that all the tokens are.
pub fn source_at(alloc: Global, tokens: &[Token]) -> Result<Source, Fault<'_>>
    ensures reads { let read = spec.source (length tokens.now + 2) tokens.now in MatchResult result (λ s. read ≡ Ok (s, [])) (λ e. Fails e read) }
{
    let depth = tokens.len() + 2;
    let (source, rest) = modules(Reader { alloc, depth }, tokens)?;
    if !rest.is_empty() {
        return Err(Fault::At(Cause::Syntax, rest));
    }
    Ok(source)
}
