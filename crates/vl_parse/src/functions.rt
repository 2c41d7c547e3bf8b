//! Functions (IEEE 1364-2005, clause 10.4).

ghost use Rattle.std.specs.Prelude.{◌+◌, ◌<◌, ◌≤◌, [], ◌∷◌, ◌++◌, codes, length, IfOk, IfSome};
ghost use Rattle.vl_tree.specs.Parsers.{Gives, and_then, pure, if_ahead, groups, is_word, many, optional};
ghost use Rattle.vl_tree.specs.Parsing as spec;
ghost use Rattle.vl_parse.specs.Parts.{optional_function_ports};

use crate::declarations::{optional_range, parameter_type};
use crate::steps::{
    before_keyword, before_mark, begins_with_keyword, beside, closed, found, pushed,
};
use vl_pstmt::reader::Reader;
use vl_pstmt::steps::past_keyword;
use vl_tree::Place;
use vl_tree::parts::{Boxed, Parts};
use vl_tree::source_fault::Fault;
use vl_tree::source_tree::{Function, FunctionDeclaration, FunctionPort};
use vl_tree::steps::after_mark;
use vl_tree::token::{Token, TokenKind};

/// `fport` up to its first name
#[tactic(auto, using(vl_pstmt::proofs::Passing::hands_on), unfolding(vl_tree::specs::Parsing::function_port_head))]
fn port_head<'a>(
    reader: Reader,
    tokens: &'a [Token],
) -> Result<(FunctionPort, &'a [Token]), Fault<'a>>
    requires { length tokens.now + 1 < reader.depth }
    ensures reads { let n = reader.depth in Gives result (spec.function_port_head (spec.whole n) (spec.target n) n tokens.now) }
    ensures shorter { IfOk result (λ x. length x.1.now < length tokens.now) }
{
    let (place, rest) = reader.keyword(tokens, b"input")?;
    let (kind, rest) = parameter_type(reader, rest)?;
    let first = pushed(Parts::new(reader.alloc), reader.identifier(rest));
    let ((kind, names), rest) = beside(kind, first)?;
    Ok((FunctionPort { place, kind, names }, rest))
}

/// The port with a further name
#[tactic(auto, using(vl_pstmt::proofs::Passing::hands_on), unfolding(vl_tree::specs::Parsing::function_port_grow))]
fn port_grow<'a>(
    reader: Reader,
    port: FunctionPort,
    tokens: &'a [Token],
) -> Result<(FunctionPort, &'a [Token]), Fault<'a>>
    requires { length tokens.now + 1 < reader.depth }
    ensures reads { let n = reader.depth in Gives result (spec.function_port_grow (spec.whole n) (spec.target n) n port tokens.now) }
    ensures shorter { IfOk result (λ x. length x.1.now < length tokens.now) }
{
    let FunctionPort { place, kind, names } = port;
    let grown = pushed(names, reader.identifier(tokens));
    let ((kind, names), rest) = beside(kind, grown)?;
    Ok((FunctionPort { place, kind, names }, rest))
}

/// The ports and the last one, behind a comma and what it separates
fn next_port<'a>(
    reader: Reader,
    ports: Parts<FunctionPort>,
    last: FunctionPort,
    tokens: &'a [Token],
) -> Result<((Parts<FunctionPort>, FunctionPort), &'a [Token]), Fault<'a>>
    requires { length tokens.now + 1 < reader.depth }
    ensures reads { let n = reader.depth in Gives result (if_ahead (is_word (codes "input")) (λ ts. and_then (spec.function_port_head (spec.whole n) (spec.target n) n ts) (λ h. pure (ports ++ last ∷ [], h))) (λ ts. and_then (spec.function_port_grow (spec.whole n) (spec.target n) n last ts) (λ h. pure (ports, h))) tokens.now) }
    ensures shorter { IfOk result (λ x. length x.1.now < length tokens.now) }
{
    if begins_with_keyword(tokens, b"input") {
        return closed(ports, last, port_head(reader, tokens));
    }
    beside(ports, port_grow(reader, last, tokens))
}

/// `fport { "," fport }`, from behind the first name
fn more_ports<'a>(
    reader: Reader,
    first: FunctionPort,
    tokens: &'a [Token],
) -> Result<(Parts<FunctionPort>, &'a [Token]), Fault<'a>>
    requires { length tokens.now + 1 < reader.depth }
    ensures reads { let n = reader.depth in Gives result (groups (is_word (codes "input")) (spec.function_port_head (spec.whole n) (spec.target n) n) (spec.function_port_grow (spec.whole n) (spec.target n) n) n first tokens.now) }
    ensures no_longer { IfOk result (λ x. length x.1.now ≤ length tokens.now) }
{
    let mut ports = Parts::new(reader.alloc);
    let mut last = first;
    let mut rest = tokens;
    'each: while let Some((_, more)) = after_mark(rest, b",") {
        let ((before, next), more) = next_port(reader, ports, last, more)?;
        ports = before;
        last = next;
        rest = more;
    }
    ports.push(last)?;
    Ok((ports, rest))
}

/// `fport { "," fport }`
#[tactic(auto, using(vl_pstmt::proofs::Passing::hands_on), unfolding(vl_tree::specs::Parsing::function_ports))]
fn ports<'a>(
    reader: Reader,
    tokens: &'a [Token],
) -> Result<(Parts<FunctionPort>, &'a [Token]), Fault<'a>>
    requires { length tokens.now + 1 < reader.depth }
    ensures reads { let n = reader.depth in Gives result (spec.function_ports (spec.whole n) (spec.target n) n tokens.now) }
    ensures shorter { IfOk result (λ x. length x.1.now < length tokens.now) }
{
    let (first, rest) = port_head(reader, tokens)?;
    more_ports(reader, first, rest)
}

/// `fport ";"`, from behind its word
#[tactic(auto, using(vl_pstmt::proofs::Passing::hands_on), unfolding(vl_tree::specs::Parsing::input_declaration))]
fn input_declaration<'a>(
    reader: Reader,
    place: Place,
    tokens: &'a [Token],
) -> Result<(FunctionDeclaration, &'a [Token]), Fault<'a>>
    requires { length tokens.now + 1 < reader.depth }
    ensures reads { let n = reader.depth in Gives result (spec.input_declaration (spec.whole n) (spec.target n) n place tokens.now) }
    ensures shorter { IfOk result (λ x. length x.1.now < length tokens.now) }
{
    let (kind, rest) = parameter_type(reader, tokens)?;
    let (names, rest) = reader.identifiers(rest)?;
    let port = FunctionPort { place, kind, names };
    before_mark(FunctionDeclaration::Input(port), rest, b";")
}

/// `"reg" [ "signed" ] [ range ] id { "," id } ";"`, from behind its word
#[tactic(auto, using(vl_pstmt::proofs::Passing::hands_on), unfolding(vl_tree::specs::Parsing::reg_declaration))]
fn reg_declaration<'a>(
    reader: Reader,
    place: Place,
    tokens: &'a [Token],
) -> Result<(FunctionDeclaration, &'a [Token]), Fault<'a>>
    requires { length tokens.now + 1 < reader.depth }
    ensures reads { let n = reader.depth in Gives result (spec.reg_declaration (spec.whole n) (spec.target n) n place tokens.now) }
    ensures shorter { IfOk result (λ x. length x.1.now < length tokens.now) }
{
    let (signed, rest) = past_keyword(tokens, b"signed");
    let (range, rest) = optional_range(reader, rest)?;
    let (names, rest) = reader.identifiers(rest)?;
    let registers = FunctionDeclaration::Reg(place, signed, range, names);
    before_mark(registers, rest, b";")
}

/// `"integer" id { "," id } ";"`, from behind its word
#[tactic(auto, using(vl_pstmt::proofs::Passing::hands_on), unfolding(vl_tree::specs::Parsing::integer_declaration))]
fn integer_declaration<'a>(
    reader: Reader,
    place: Place,
    tokens: &'a [Token],
) -> Result<(FunctionDeclaration, &'a [Token]), Fault<'a>>
    requires { length tokens.now + 1 < reader.depth }
    ensures reads { let n = reader.depth in Gives result (spec.integer_declaration (spec.whole n) (spec.target n) n place tokens.now) }
    ensures shorter { IfOk result (λ x. length x.1.now < length tokens.now) }
{
    let (names, rest) = reader.identifiers(tokens)?;
    before_mark(FunctionDeclaration::Integer(place, names), rest, b";")
}

/// `[ fdecl ]`
#[tactic(auto, using(vl_pstmt::proofs::Passing::hands_on), unfolding(vl_tree::specs::Parsing::declaration_by, vl_tree::specs::Reading::next_by))]
fn optional_declaration<'a>(
    reader: Reader,
    tokens: &'a [Token],
) -> Result<(Option<FunctionDeclaration>, &'a [Token]), Fault<'a>>
    requires { length tokens.now + 1 < reader.depth }
    ensures reads { let n = reader.depth in Gives result (optional (spec.declaration_by (spec.whole n) (spec.target n) n) (λ q. q) tokens.now) }
    ensures no_longer { IfOk result (λ x. length x.1.now ≤ length tokens.now) }
    ensures shorter { IfOk result (λ x. IfSome x.0 (λ _. length x.1.now < length tokens.now)) }
{
    let Some((first, rest)) = tokens.split_first() else {
        return Ok((None, tokens));
    };
    let TokenKind::Keyword(word) = &first.kind else {
        return Ok((None, tokens));
    };
    let word = word.as_slice();
    if word == b"input".as_slice() {
        found(input_declaration(reader, first.place, rest))
    } else if word == b"reg".as_slice() {
        found(reg_declaration(reader, first.place, rest))
    } else if word == b"integer".as_slice() {
        found(integer_declaration(reader, first.place, rest))
    } else {
        Ok((None, tokens))
    }
}

/// `{ fdecl }`
fn declarations<'a>(
    reader: Reader,
    tokens: &'a [Token],
) -> Result<(Parts<FunctionDeclaration>, &'a [Token]), Fault<'a>>
    requires { length tokens.now + 1 < reader.depth }
    ensures reads { let n = reader.depth in Gives result (many (spec.declaration_by (spec.whole n) (spec.target n) n) (λ q. q) n tokens.now) }
    ensures no_longer { IfOk result (λ x. length x.1.now ≤ length tokens.now) }
{
    let mut declarations = Parts::new(reader.alloc);
    let mut rest = tokens;
    'each: loop {
        let (found, more) = optional_declaration(reader, rest)?;
        let Some(declaration) = found else {
            return Ok((declarations, more));
        };
        declarations.push(declaration)?;
        rest = more;
    }
}

/// `[ "(" fport { "," fport } ")" ]`
#[tactic(auto, using(vl_pstmt::proofs::Passing::hands_on))]
fn optional_ports<'a>(
    reader: Reader,
    tokens: &'a [Token],
) -> Result<(Option<Parts<FunctionPort>>, &'a [Token]), Fault<'a>>
    requires { length tokens.now + 1 < reader.depth }
    ensures reads { let n = reader.depth in Gives result (optional_function_ports n tokens.now) }
    ensures no_longer { IfOk result (λ x. length x.1.now ≤ length tokens.now) }
{
    let Some((_, rest)) = after_mark(tokens, b"(") else {
        return Ok((None, tokens));
    };
    let (ports, rest) = ports(reader, rest)?;
    found(before_mark(ports, rest, b")"))
}

/// `( "(" fport { "," fport } ")" ";" | ";" )`
#[tactic(auto, using(vl_pstmt::proofs::Passing::hands_on), unfolding(vl_tree::specs::Parsing::function_header))]
fn header<'a>(
    reader: Reader,
    tokens: &'a [Token],
) -> Result<(Option<Parts<FunctionPort>>, &'a [Token]), Fault<'a>>
    requires { length tokens.now + 1 < reader.depth }
    ensures reads { let n = reader.depth in Gives result (spec.function_header (spec.whole n) (spec.target n) n tokens.now) }
    ensures shorter { IfOk result (λ x. length x.1.now < length tokens.now) }
{
    let (ports, rest) = optional_ports(reader, tokens)?;
    before_mark(ports, rest, b";")
}

/// `function`, from behind its word
#[tactic(auto, using(vl_pstmt::proofs::Passing::hands_on), unfolding(vl_tree::specs::Parsing::function))]
pub fn function<'a>(
    reader: Reader,
    place: Place,
    tokens: &'a [Token],
) -> Result<(Function, &'a [Token]), Fault<'a>>
    requires { length tokens.now + 1 < reader.depth }
    ensures reads { let n = reader.depth in Gives result (spec.function (spec.whole n) (spec.target n) n (spec.outer n) place tokens.now) }
    ensures shorter { IfOk result (λ x. length x.1.now < length tokens.now) }
{
    let (automatic, rest) = past_keyword(tokens, b"automatic");
    let (kind, rest) = parameter_type(reader, rest)?;
    let boxed = Boxed::new(reader.alloc, kind)?;
    let (name, rest) = reader.identifier(rest)?;
    let (ports, rest) = header(reader, rest)?;
    let (declarations, rest) = declarations(reader, rest)?;
    let (statement, rest) = reader.statement(rest)?;
    let function = Function {
        place,
        automatic,
        kind: boxed.into_inner(),
        name,
        ports,
        declarations,
        statement,
    };
    before_keyword(function, rest, b"endfunction")
}
