//! Instances (IEEE 1364-2005, clauses 12.1.2, 12.2 and 12.3 and annex A.4.1).

ghost use Rattle.std.specs.Prelude.{◌+◌, ◌<◌, ◌≤◌, length, IfOk};
ghost use Rattle.vl_tree.specs.Parsers.{Gives, list, parenthesized};
ghost use Rattle.vl_tree.specs.Parsing as spec;
ghost use Rattle.vl_parse.specs.Parts.{optional_value, overrides as overrides_lem};

use crate::steps::{before_mark, begins_with_mark, found, pushed};
use vl_pstmt::reader::Reader;
use vl_tree::Place;
use vl_tree::parts::Parts;
use vl_tree::source_fault::Fault;
use vl_tree::source_tree::{Connection, Instance, NamedInstance};
use vl_tree::steps::{after_mark, ends_argument, first_place};
use vl_tree::token::Token;
use vl_tree::tree::{Expression, Identifier};

/// `[ expr ]` before a `)`
#[tactic(auto, using(vl_pstmt::proofs::Passing::hands_on))]
fn optional_value<'a>(
    reader: Reader,
    tokens: &'a [Token],
) -> Result<(Option<Expression>, &'a [Token]), Fault<'a>>
    requires { length tokens.now + 1 < reader.depth }
    ensures reads { let n = reader.depth in Gives result (optional_value n tokens.now) }
    ensures no_longer { IfOk result (λ x. length x.1.now ≤ length tokens.now) }
{
    if begins_with_mark(tokens, b")") {
        return Ok((None, tokens));
    }
    found(reader.expression(tokens))
}

/// `"(" [ expr ] ")"`
#[tactic(auto, using(vl_pstmt::proofs::Passing::hands_on))]
fn parenthesized_value<'a>(
    reader: Reader,
    tokens: &'a [Token],
) -> Result<(Option<Expression>, &'a [Token]), Fault<'a>>
    requires { length tokens.now + 1 < reader.depth }
    ensures reads { let n = reader.depth in Gives result (parenthesized (optional_value n) tokens.now) }
    ensures shorter { IfOk result (λ x. length x.1.now < length tokens.now) }
{
    let (_, rest) = reader.mark(tokens, b"(")?;
    let (value, rest) = optional_value(reader, rest)?;
    before_mark(value, rest, b")")
}

/// `"." id "(" [ expr ] ")"`, from behind the `.`
#[tactic(auto, using(vl_pstmt::proofs::Passing::hands_on), unfolding(vl_tree::specs::Parsing::named_connection))]
fn named_connection<'a>(
    reader: Reader,
    place: Place,
    tokens: &'a [Token],
) -> Result<(Connection, &'a [Token]), Fault<'a>>
    requires { length tokens.now + 1 < reader.depth }
    ensures reads { let n = reader.depth in Gives result (spec.named_connection (spec.whole n) (spec.target n) n place tokens.now) }
    ensures shorter { IfOk result (λ x. length x.1.now < length tokens.now) }
{
    let (name, rest) = reader.identifier(tokens)?;
    let (value, rest) = parenthesized_value(reader, rest)?;
    Ok((Connection::Named(place, name, value), rest))
}

/// `conn`, with the place of an empty one
#[tactic(auto, using(vl_pstmt::proofs::Passing::hands_on), unfolding(vl_tree::specs::Parsing::connection))]
fn connection<'a>(
    reader: Reader,
    empty: Place,
    tokens: &'a [Token],
) -> Result<(Connection, &'a [Token]), Fault<'a>>
    requires { length tokens.now + 1 < reader.depth }
    ensures reads { let n = reader.depth in Gives result (spec.connection (spec.whole n) (spec.target n) n empty tokens.now) }
    ensures no_longer { IfOk result (λ x. length x.1.now ≤ length tokens.now) }
{
    if let Some((place, rest)) = after_mark(tokens, b".") {
        return named_connection(reader, place, rest);
    }
    if ends_argument(tokens) {
        return Ok((Connection::Ordered(empty, None), tokens));
    }
    let place = first_place(tokens);
    let (value, rest) = reader.expression(tokens)?;
    Ok((Connection::Ordered(place, Some(value)), rest))
}

/// `conn { "," conn }`
fn connection_list<'a>(
    reader: Reader,
    empty: Place,
    tokens: &'a [Token],
) -> Result<(Parts<Connection>, &'a [Token]), Fault<'a>>
    requires { length tokens.now + 1 < reader.depth }
    ensures reads { let n = reader.depth in Gives result (list (spec.connection (spec.whole n) (spec.target n) n empty) n tokens.now) }
    ensures no_longer { IfOk result (λ x. length x.1.now ≤ length tokens.now) }
{
    let (first, mut rest) = connection(reader, empty, tokens)?;
    let mut connections = Parts::new(reader.alloc);
    connections.push(first)?;
    'each: while let Some((_, more)) = after_mark(rest, b",") {
        let (another, more) = connection(reader, empty, more)?;
        connections.push(another)?;
        rest = more;
    }
    Ok((connections, rest))
}

/// `"(" conn { "," conn } ")"`
#[tactic(auto, using(vl_pstmt::proofs::Passing::hands_on), unfolding(vl_tree::specs::Parsing::connections))]
fn connections<'a>(
    reader: Reader,
    empty: Place,
    tokens: &'a [Token],
) -> Result<(Parts<Connection>, &'a [Token]), Fault<'a>>
    requires { length tokens.now + 1 < reader.depth }
    ensures reads { let n = reader.depth in Gives result (spec.connections (spec.whole n) (spec.target n) n empty tokens.now) }
    ensures shorter { IfOk result (λ x. length x.1.now < length tokens.now) }
{
    let (_, rest) = reader.mark(tokens, b"(")?;
    let (connections, rest) = connection_list(reader, empty, rest)?;
    before_mark(connections, rest, b")")
}

/// `[ "#" "(" conn { "," conn } ")" ]`
#[tactic(auto, using(vl_pstmt::proofs::Passing::hands_on))]
fn overrides<'a>(
    reader: Reader,
    empty: Place,
    tokens: &'a [Token],
) -> Result<(Option<Parts<Connection>>, &'a [Token]), Fault<'a>>
    requires { length tokens.now + 1 < reader.depth }
    ensures reads { let n = reader.depth in Gives result (overrides_lem n empty tokens.now) }
    ensures no_longer { IfOk result (λ x. length x.1.now ≤ length tokens.now) }
{
    let Some((_, rest)) = after_mark(tokens, b"#") else {
        return Ok((None, tokens));
    };
    found(connections(reader, empty, rest))
}

/// `inst = id "(" conns ")"`
#[tactic(auto, using(vl_pstmt::proofs::Passing::hands_on), unfolding(vl_tree::specs::Parsing::named_instance))]
fn named_instance<'a>(
    reader: Reader,
    tokens: &'a [Token],
) -> Result<(NamedInstance, &'a [Token]), Fault<'a>>
    requires { length tokens.now + 1 < reader.depth }
    ensures reads { let n = reader.depth in Gives result (spec.named_instance (spec.whole n) (spec.target n) n tokens.now) }
    ensures shorter { IfOk result (λ x. length x.1.now < length tokens.now) }
{
    let (name, rest) = reader.identifier(tokens)?;
    let place = name.place;
    let (connections, rest) = connections(reader, place, rest)?;
    Ok((
        NamedInstance {
            place,
            name,
            connections,
        },
        rest,
    ))
}

/// `inst { "," inst }`
fn named_instances<'a>(
    reader: Reader,
    tokens: &'a [Token],
) -> Result<(Parts<NamedInstance>, &'a [Token]), Fault<'a>>
    requires { length tokens.now + 1 < reader.depth }
    ensures reads { let n = reader.depth in Gives result (list (spec.named_instance (spec.whole n) (spec.target n) n) n tokens.now) }
    ensures shorter { IfOk result (λ x. length x.1.now < length tokens.now) }
{
    let (mut instances, mut rest) = pushed(
        Parts::new(reader.alloc),
        named_instance(reader, tokens),
    )?;
    'each: while let Some((_, more)) = after_mark(rest, b",") {
        let (longer, more) = pushed(instances, named_instance(reader, more))?;
        instances = longer;
        rest = more;
    }
    Ok((instances, rest))
}

/// `instance`, from behind the name of the module
#[tactic(auto, using(vl_pstmt::proofs::Passing::hands_on), unfolding(vl_tree::specs::Parsing::instance))]
pub fn instance<'a>(
    reader: Reader,
    definition: Identifier,
    tokens: &'a [Token],
) -> Result<(Instance, &'a [Token]), Fault<'a>>
    requires { length tokens.now + 1 < reader.depth }
    ensures reads { let n = reader.depth in Gives result (spec.instance (spec.whole n) (spec.target n) n definition tokens.now) }
    ensures shorter { IfOk result (λ x. length x.1.now < length tokens.now) }
{
    let place = definition.place;
    let (overrides, rest) = overrides(reader, place, tokens)?;
    let (instances, rest) = named_instances(reader, rest)?;
    let instance = Instance {
        place,
        definition,
        overrides,
        instances,
    };
    before_mark(instance, rest, b";")
}
