//! Ports (IEEE 1364-2005, clause 12.3).

ghost use Rattle.std.specs.Prelude.{◌≡◌, ℕ, ◌+◌, ◌<◌, ◌≤◌, [], ◌∷◌, ◌++◌, length, IfOk};
ghost use Rattle.vl_tree.specs.Reading.{is_next};
ghost use Rattle.vl_tree.specs.Parsers.{Gives, and_then, pure, if_ahead, groups};
ghost use Rattle.vl_tree.specs.Parsing as spec;

use crate::declarations::{declaration_assignment, optional_range};
use crate::steps::{alone, begins_with_keyword, begins_with_mark, beside, closed, pushed};
use vl_pstmt::reader::Reader;
use vl_pstmt::steps::{after_keyword, past_keyword};
use vl_tree::Place;
use vl_tree::parts::Parts;
use vl_tree::source_fault::Fault;
use vl_tree::source_tree::{Direction, PortDeclaration, Ports};
use vl_tree::steps::after_mark;
use vl_tree::token::Token;

/// A port that is a net, with its first name, from behind its direction
#[tactic(auto, using(vl_pstmt::proofs::Passing::hands_on), unfolding(vl_tree::specs::Parsing::net_head))]
pub fn net_head<'a>(
    reader: Reader,
    place: Place,
    direction: Direction,
    tokens: &'a [Token],
) -> Result<(PortDeclaration, &'a [Token]), Fault<'a>>
    requires { length tokens.now + 1 < reader.depth }
    ensures reads { let n = reader.depth in Gives result (spec.net_head (spec.whole n) (spec.target n) n place direction tokens.now) }
    ensures shorter { IfOk result (λ x. length x.1.now < length tokens.now) }
{
    let (wire, rest) = past_keyword(tokens, b"wire");
    let (signed, rest) = past_keyword(rest, b"signed");
    let (range, rest) = optional_range(reader, rest)?;
    let first = pushed(Parts::new(reader.alloc), reader.identifier(rest));
    let ((range, names), rest) = beside(range, first)?;
    Ok((
        PortDeclaration::Net(place, direction, wire, signed, range, names),
        rest,
    ))
}

/// A port that is a `reg`, with its first name, from behind that word
#[tactic(auto, using(vl_pstmt::proofs::Passing::hands_on), unfolding(vl_tree::specs::Parsing::reg_head))]
fn reg_head<'a>(
    reader: Reader,
    place: Place,
    tokens: &'a [Token],
) -> Result<(PortDeclaration, &'a [Token]), Fault<'a>>
    requires { length tokens.now + 1 < reader.depth }
    ensures reads { let n = reader.depth in Gives result (spec.reg_head (spec.whole n) (spec.target n) n place tokens.now) }
    ensures shorter { IfOk result (λ x. length x.1.now < length tokens.now) }
{
    let (signed, rest) = past_keyword(tokens, b"signed");
    let (range, rest) = optional_range(reader, rest)?;
    let first = pushed(
        Parts::new(reader.alloc),
        declaration_assignment(reader, rest),
    );
    let ((range, assignments), rest) = beside(range, first)?;
    Ok((
        PortDeclaration::Reg(place, signed, range, assignments),
        rest,
    ))
}

/// A port that is an `integer`, with its first name, from behind that word
#[tactic(auto, using(vl_pstmt::proofs::Passing::hands_on), unfolding(vl_tree::specs::Parsing::integer_head))]
fn integer_head<'a>(
    reader: Reader,
    place: Place,
    tokens: &'a [Token],
) -> Result<(PortDeclaration, &'a [Token]), Fault<'a>>
    requires { length tokens.now + 1 < reader.depth }
    ensures reads { let n = reader.depth in Gives result (spec.integer_head (spec.whole n) (spec.target n) n place tokens.now) }
    ensures shorter { IfOk result (λ x. length x.1.now < length tokens.now) }
{
    let (assignment, rest) = declaration_assignment(reader, tokens)?;
    let assignments = alone(reader.alloc, assignment)?;
    Ok((PortDeclaration::Integer(place, assignments), rest))
}

/// An output with its first name, from behind `output`
#[tactic(auto, using(vl_pstmt::proofs::Passing::hands_on), unfolding(vl_tree::specs::Parsing::output_head))]
pub fn output_head<'a>(
    reader: Reader,
    place: Place,
    tokens: &'a [Token],
) -> Result<(PortDeclaration, &'a [Token]), Fault<'a>>
    requires { length tokens.now + 1 < reader.depth }
    ensures reads { let n = reader.depth in Gives result (spec.output_head (spec.whole n) (spec.target n) n place tokens.now) }
    ensures shorter { IfOk result (λ x. length x.1.now < length tokens.now) }
{
    if let Some((_, rest)) = after_keyword(tokens, b"reg") {
        return reg_head(reader, place, rest);
    }
    if let Some((_, rest)) = after_keyword(tokens, b"integer") {
        return integer_head(reader, place, rest);
    }
    net_head(reader, place, Direction::Output, tokens)
}

/// `aport` up to its first name
#[tactic(auto, using(vl_pstmt::proofs::Passing::hands_on), unfolding(vl_tree::specs::Parsing::port_head))]
fn port_head<'a>(
    reader: Reader,
    tokens: &'a [Token],
) -> Result<(PortDeclaration, &'a [Token]), Fault<'a>>
    requires { length tokens.now + 1 < reader.depth }
    ensures reads { let n = reader.depth in Gives result (spec.port_head (spec.whole n) (spec.target n) n tokens.now) }
    ensures shorter { IfOk result (λ x. length x.1.now < length tokens.now) }
{
    if let Some((place, rest)) = after_keyword(tokens, b"input") {
        return net_head(reader, place, Direction::Input, rest);
    }
    let (place, rest) = reader.keyword(tokens, b"output")?;
    output_head(reader, place, rest)
}

/// The port with a further name
#[tactic(auto, using(vl_pstmt::proofs::Passing::hands_on), unfolding(vl_tree::specs::Parsing::port_grow))]
fn port_grow<'a>(
    reader: Reader,
    port: PortDeclaration,
    tokens: &'a [Token],
) -> Result<(PortDeclaration, &'a [Token]), Fault<'a>>
    requires { length tokens.now + 1 < reader.depth }
    ensures reads { let n = reader.depth in Gives result (spec.port_grow (spec.whole n) (spec.target n) n port tokens.now) }
    ensures shorter { IfOk result (λ x. length x.1.now < length tokens.now) }
{
    match port {
        PortDeclaration::Net(place, direction, wire, signed, range, names) => {
            let grown = pushed(names, reader.identifier(tokens));
            let ((range, names), rest) = beside(range, grown)?;
            let port = PortDeclaration::Net(place, direction, wire, signed, range, names);
            Ok((port, rest))
        }
        PortDeclaration::Reg(place, signed, range, assignments) => {
            let grown = pushed(assignments, declaration_assignment(reader, tokens));
            let ((range, assignments), rest) = beside(range, grown)?;
            Ok((
                PortDeclaration::Reg(place, signed, range, assignments),
                rest,
            ))
        }
        PortDeclaration::Integer(place, assignments) => {
            let grown = pushed(assignments, declaration_assignment(reader, tokens));
            let (assignments, rest) = grown?;
            Ok((PortDeclaration::Integer(place, assignments), rest))
        }
    }
}

/// The port with the names behind the commas that follow
pub fn port_names<'a>(
    reader: Reader,
    first: PortDeclaration,
    tokens: &'a [Token],
) -> Result<(PortDeclaration, &'a [Token]), Fault<'a>>
    requires { length tokens.now + 1 < reader.depth }
    ensures reads { let n = reader.depth in Gives result (spec.port_names (spec.whole n) (spec.target n) n n first tokens.now) }
    ensures no_longer { IfOk result (λ x. length x.1.now ≤ length tokens.now) }
{
    let mut port = first;
    let mut rest = tokens;
    'each: while let Some((_, more)) = after_mark(rest, b",") {
        let (grown, more) = port_grow(reader, port, more)?;
        port = grown;
        rest = more;
    }
    Ok((port, rest))
}

/// Whether a direction comes first.
fn begins_with_direction(tokens: &[Token]) -> bool
    ensures { (n : ℕ) → result ≡ is_next (spec.is_direction (spec.whole n) (spec.target n) n) tokens.now }
{
    begins_with_keyword(tokens, b"input") || begins_with_keyword(tokens, b"output")
}

/// The ports and the last one, behind a comma and what it separates
fn next_port<'a>(
    reader: Reader,
    ports: Parts<PortDeclaration>,
    last: PortDeclaration,
    tokens: &'a [Token],
) -> Result<((Parts<PortDeclaration>, PortDeclaration), &'a [Token]), Fault<'a>>
    requires { length tokens.now + 1 < reader.depth }
    ensures reads { let n = reader.depth in Gives result (if_ahead (spec.is_direction (spec.whole n) (spec.target n) n) (λ ts. and_then (spec.port_head (spec.whole n) (spec.target n) n ts) (λ h. pure (ports ++ last ∷ [], h))) (λ ts. and_then (spec.port_grow (spec.whole n) (spec.target n) n last ts) (λ h. pure (ports, h))) tokens.now) }
    ensures shorter { IfOk result (λ x. length x.1.now < length tokens.now) }
{
    if begins_with_direction(tokens) {
        return closed(ports, last, port_head(reader, tokens));
    }
    beside(ports, port_grow(reader, last, tokens))
}

/// `aport { "," aport }`, from behind the first name
fn more_ports<'a>(
    reader: Reader,
    first: PortDeclaration,
    tokens: &'a [Token],
) -> Result<(Parts<PortDeclaration>, &'a [Token]), Fault<'a>>
    requires { length tokens.now + 1 < reader.depth }
    ensures reads { let n = reader.depth in Gives result (groups (spec.is_direction (spec.whole n) (spec.target n) n) (spec.port_head (spec.whole n) (spec.target n) n) (spec.port_grow (spec.whole n) (spec.target n) n) n first tokens.now) }
    ensures no_longer { IfOk result (λ x. length x.1.now ≤ length tokens.now) }
{
    let mut ports = Parts::new(reader.alloc);
    let mut last = first;
    let mut rest = tokens;
    'each: while let Some((_, more)) = after_mark(rest, b",") {
        let ((before, next), more) = next_port(reader, ports, last, more)?;
        ports = before;
        last = next;
        rest = more;
    }
    ports.push(last)?;
    Ok((ports, rest))
}

/// `aport { "," aport }`
#[tactic(auto, using(vl_pstmt::proofs::Passing::hands_on), unfolding(vl_tree::specs::Parsing::ports))]
fn declared_ports<'a>(
    reader: Reader,
    tokens: &'a [Token],
) -> Result<(Parts<PortDeclaration>, &'a [Token]), Fault<'a>>
    requires { length tokens.now + 1 < reader.depth }
    ensures reads { let n = reader.depth in Gives result (spec.ports (spec.whole n) (spec.target n) n tokens.now) }
    ensures shorter { IfOk result (λ x. length x.1.now < length tokens.now) }
{
    let (first, rest) = port_head(reader, tokens)?;
    more_ports(reader, first, rest)
}

/// `[ plist | alist ]` before a `)`
#[tactic(auto, using(vl_pstmt::proofs::Passing::hands_on), unfolding(vl_tree::specs::Parsing::module_ports))]
pub fn module_ports<'a>(
    reader: Reader,
    tokens: &'a [Token],
) -> Result<(Ports, &'a [Token]), Fault<'a>>
    requires { length tokens.now + 1 < reader.depth }
    ensures reads { let n = reader.depth in Gives result (spec.module_ports (spec.whole n) (spec.target n) n tokens.now) }
    ensures no_longer { IfOk result (λ x. length x.1.now ≤ length tokens.now) }
{
    if begins_with_mark(tokens, b")") {
        return Ok((Ports::Empty, tokens));
    }
    if begins_with_direction(tokens) {
        let (ports, rest) = declared_ports(reader, tokens)?;
        return Ok((Ports::Declarations(ports), rest));
    }
    let (names, rest) = reader.identifiers(tokens)?;
    Ok((Ports::Names(names), rest))
}
