//! Items of a module (IEEE 1364-2005, annex A.1.4).

ghost use Rattle.std.specs.Prelude.{◌+◌, ◌<◌, ◌≤◌, length, IfOk, IfSome, MatchOption};
ghost use Rattle.vl_tree.specs.declared.source_tree.Direction.TheVariants as direction;
ghost use Rattle.vl_tree.specs.Parsers.{Gives, list, many, optional};
ghost use Rattle.vl_tree.specs.Parsing as spec;
ghost use Rattle.vl_parse.specs.Parts.{item_if};

use crate::declarations::{
    declaration_assignments, optional_range, parameter_assignments, parameter_type, variable_types,
};
use crate::functions::function;
use crate::instances::instance;
use crate::ports::{net_head, output_head, port_names};
use crate::steps::{before_mark, found, pushed};
use crate::triggers::trigger;
use vl_pstmt::reader::Reader;
use vl_pstmt::steps::past_keyword;
use vl_tree::parts::Parts;
use vl_tree::source_fault::Fault;
use vl_tree::source_tree::{Assignment, Direction, Item, ParameterKeyword};
use vl_tree::steps::{after_mark, copy_of};
use vl_tree::token::{Token, TokenKind};
use vl_tree::tree::Identifier;
use vl_tree::{Place, Text};

/// An input, from behind `input`
#[tactic(auto, using(vl_pstmt::proofs::Passing::hands_on), unfolding(vl_tree::specs::Parsing::port_item))]
fn input_item<'a>(
    reader: Reader,
    place: Place,
    tokens: &'a [Token],
) -> Result<(Item, &'a [Token]), Fault<'a>>
    requires { length tokens.now + 1 < reader.depth }
    ensures reads { let n = reader.depth in Gives result (spec.port_item (spec.whole n) (spec.target n) n (spec.outer n) place (spec.net_head (spec.whole n) (spec.target n) n place direction.Input) tokens.now) }
    ensures shorter { IfOk result (λ x. length x.1.now < length tokens.now) }
{
    let (first, rest) = net_head(reader, place, Direction::Input, tokens)?;
    let (port, rest) = port_names(reader, first, rest)?;
    before_mark(Item::Port(port), rest, b";")
}

/// An output, from behind `output`
#[tactic(auto, using(vl_pstmt::proofs::Passing::hands_on), unfolding(vl_tree::specs::Parsing::port_item))]
fn output_item<'a>(
    reader: Reader,
    place: Place,
    tokens: &'a [Token],
) -> Result<(Item, &'a [Token]), Fault<'a>>
    requires { length tokens.now + 1 < reader.depth }
    ensures reads { let n = reader.depth in Gives result (spec.port_item (spec.whole n) (spec.target n) n (spec.outer n) place (spec.output_head (spec.whole n) (spec.target n) n place) tokens.now) }
    ensures shorter { IfOk result (λ x. length x.1.now < length tokens.now) }
{
    let (first, rest) = output_head(reader, place, tokens)?;
    let (port, rest) = port_names(reader, first, rest)?;
    before_mark(Item::Port(port), rest, b";")
}

/// `ptype pset { "," pset } ";"`
#[tactic(auto, using(vl_pstmt::proofs::Passing::hands_on), unfolding(vl_tree::specs::Parsing::parameter_item))]
fn parameter_item<'a>(
    reader: Reader,
    keyword: ParameterKeyword,
    place: Place,
    tokens: &'a [Token],
) -> Result<(Item, &'a [Token]), Fault<'a>>
    requires { length tokens.now + 1 < reader.depth }
    ensures reads { let n = reader.depth in Gives result (spec.parameter_item (spec.whole n) (spec.target n) n (spec.outer n) keyword place tokens.now) }
    ensures shorter { IfOk result (λ x. length x.1.now < length tokens.now) }
{
    let (kind, rest) = parameter_type(reader, tokens)?;
    let (assignments, rest) = parameter_assignments(reader, rest)?;
    before_mark(
        Item::Parameter(place, keyword, kind, assignments),
        rest,
        b";",
    )
}

/// `[ "signed" ] [ range ] aset { "," aset } ";"`
#[tactic(auto, using(vl_pstmt::proofs::Passing::hands_on), unfolding(vl_tree::specs::Parsing::wire_item))]
fn wire_item<'a>(
    reader: Reader,
    place: Place,
    tokens: &'a [Token],
) -> Result<(Item, &'a [Token]), Fault<'a>>
    requires { length tokens.now + 1 < reader.depth }
    ensures reads { let n = reader.depth in Gives result (spec.wire_item (spec.whole n) (spec.target n) n (spec.outer n) place tokens.now) }
    ensures shorter { IfOk result (λ x. length x.1.now < length tokens.now) }
{
    let (signed, rest) = past_keyword(tokens, b"signed");
    let (range, rest) = optional_range(reader, rest)?;
    let (nets, rest) = declaration_assignments(reader, rest)?;
    before_mark(Item::Wire(place, signed, range, nets), rest, b";")
}

/// `[ "signed" ] [ range ] vset { "," vset } ";"`
#[tactic(auto, using(vl_pstmt::proofs::Passing::hands_on), unfolding(vl_tree::specs::Parsing::reg_item))]
fn reg_item<'a>(
    reader: Reader,
    place: Place,
    tokens: &'a [Token],
) -> Result<(Item, &'a [Token]), Fault<'a>>
    requires { length tokens.now + 1 < reader.depth }
    ensures reads { let n = reader.depth in Gives result (spec.reg_item (spec.whole n) (spec.target n) n (spec.outer n) place tokens.now) }
    ensures shorter { IfOk result (λ x. length x.1.now < length tokens.now) }
{
    let (signed, rest) = past_keyword(tokens, b"signed");
    let (range, rest) = optional_range(reader, rest)?;
    let (variables, rest) = variable_types(reader, rest)?;
    before_mark(Item::Reg(place, signed, range, variables), rest, b";")
}

/// `vset { "," vset } ";"`
#[tactic(auto, using(vl_pstmt::proofs::Passing::hands_on), unfolding(vl_tree::specs::Parsing::integer_item))]
fn integer_item<'a>(
    reader: Reader,
    place: Place,
    tokens: &'a [Token],
) -> Result<(Item, &'a [Token]), Fault<'a>>
    requires { length tokens.now + 1 < reader.depth }
    ensures reads { let n = reader.depth in Gives result (spec.integer_item (spec.whole n) (spec.target n) n (spec.outer n) place tokens.now) }
    ensures shorter { IfOk result (λ x. length x.1.now < length tokens.now) }
{
    let (variables, rest) = variable_types(reader, tokens)?;
    before_mark(Item::Integer(place, variables), rest, b";")
}

/// `lset { "," lset }`
fn assignments<'a>(
    reader: Reader,
    tokens: &'a [Token],
) -> Result<(Parts<Assignment>, &'a [Token]), Fault<'a>>
    requires { length tokens.now + 1 < reader.depth }
    ensures reads { let n = reader.depth in Gives result (list (spec.assignment (spec.whole n) (spec.target n) n) n tokens.now) }
    ensures shorter { IfOk result (λ x. length x.1.now < length tokens.now) }
{
    let (mut assignments, mut rest) = pushed(Parts::new(reader.alloc), reader.assignment(tokens))?;
    'each: while let Some((_, more)) = after_mark(rest, b",") {
        let (longer, more) = pushed(assignments, reader.assignment(more))?;
        assignments = longer;
        rest = more;
    }
    Ok((assignments, rest))
}

/// `lset { "," lset } ";"`
#[tactic(auto, using(vl_pstmt::proofs::Passing::hands_on), unfolding(vl_tree::specs::Parsing::assign_item))]
fn assign_item<'a>(
    reader: Reader,
    place: Place,
    tokens: &'a [Token],
) -> Result<(Item, &'a [Token]), Fault<'a>>
    requires { length tokens.now + 1 < reader.depth }
    ensures reads { let n = reader.depth in Gives result (spec.assign_item (spec.whole n) (spec.target n) n (spec.outer n) place tokens.now) }
    ensures shorter { IfOk result (λ x. length x.1.now < length tokens.now) }
{
    let (assignments, rest) = assignments(reader, tokens)?;
    before_mark(Item::Assign(place, assignments), rest, b";")
}

/// `stmt`, as a process that runs once
#[tactic(auto, using(vl_pstmt::proofs::Passing::hands_on), unfolding(vl_tree::specs::Parsing::initial_item))]
fn initial_item<'a>(
    reader: Reader,
    place: Place,
    tokens: &'a [Token],
) -> Result<(Item, &'a [Token]), Fault<'a>>
    requires { length tokens.now + 1 < reader.depth }
    ensures reads { let n = reader.depth in Gives result (spec.initial_item (spec.whole n) (spec.target n) n (spec.outer n) place tokens.now) }
    ensures shorter { IfOk result (λ x. length x.1.now < length tokens.now) }
{
    let (statement, rest) = reader.statement(tokens)?;
    Ok((Item::Initial(place, statement), rest))
}

/// `"@" trigger stmt`
#[tactic(auto, using(vl_pstmt::proofs::Passing::hands_on), unfolding(vl_tree::specs::Parsing::always_item))]
fn always_item<'a>(
    reader: Reader,
    place: Place,
    tokens: &'a [Token],
) -> Result<(Item, &'a [Token]), Fault<'a>>
    requires { length tokens.now + 1 < reader.depth }
    ensures reads { let n = reader.depth in Gives result (spec.always_item (spec.whole n) (spec.target n) n (spec.outer n) place tokens.now) }
    ensures shorter { IfOk result (λ x. length x.1.now < length tokens.now) }
{
    let (_, rest) = reader.mark(tokens, b"@")?;
    let (trigger, rest) = trigger(reader, rest)?;
    let (statement, rest) = reader.statement(rest)?;
    Ok((Item::Always(place, trigger, statement), rest))
}

/// A function, from behind its word
#[tactic(auto, using(vl_pstmt::proofs::Passing::hands_on), unfolding(vl_tree::specs::Parsing::function_item))]
fn function_item<'a>(
    reader: Reader,
    place: Place,
    tokens: &'a [Token],
) -> Result<(Item, &'a [Token]), Fault<'a>>
    requires { length tokens.now + 1 < reader.depth }
    ensures reads { let n = reader.depth in Gives result (spec.function_item (spec.whole n) (spec.target n) n (spec.outer n) place tokens.now) }
    ensures shorter { IfOk result (λ x. length x.1.now < length tokens.now) }
{
    let (function, rest) = function(reader, place, tokens)?;
    Ok((Item::Function(function), rest))
}

/// Instances, from behind the name of the module
#[tactic(auto, using(vl_pstmt::proofs::Passing::hands_on), unfolding(vl_tree::specs::Parsing::instance_item))]
fn instance_item<'a>(
    reader: Reader,
    place: Place,
    name: &Text,
    tokens: &'a [Token],
) -> Result<(Item, &'a [Token]), Fault<'a>>
    requires { length tokens.now + 1 < reader.depth }
    ensures reads { let n = reader.depth in Gives result (spec.instance_item (spec.whole n) (spec.target n) n (spec.outer n) place name.now tokens.now) }
    ensures shorter { IfOk result (λ x. length x.1.now < length tokens.now) }
{
    let definition = Identifier {
        place,
        name: copy_of(reader.alloc, name)?,
    };
    let (instance, rest) = instance(reader, definition, tokens)?;
    Ok((Item::Instance(instance), rest))
}

/// The item that begins with this reserved word, from behind it, if there is one
#[tactic(auto, using(vl_pstmt::proofs::Passing::hands_on))]
fn item_by_keyword<'a>(
    reader: Reader,
    place: Place,
    word: &Text,
    rest: &'a [Token],
    tokens: &'a [Token],
) -> Result<(Option<Item>, &'a [Token]), Fault<'a>>
    requires room { length tokens.now + 1 < reader.depth }
    requires behind { length rest.now < length tokens.now }
    ensures reads { let n = reader.depth in Gives result (item_if (spec.item_by_keyword (spec.whole n) (spec.target n) n (spec.outer n) place word.now) rest.now tokens.now) }
    ensures shorter { IfOk result (λ x. MatchOption x.0 (length x.1.now ≤ length tokens.now) (λ _. length x.1.now < length rest.now)) }
{
    let word = word.as_slice();
    if word == b"input".as_slice() {
        found(input_item(reader, place, rest))
    } else if word == b"output".as_slice() {
        found(output_item(reader, place, rest))
    } else if word == b"parameter".as_slice() {
        found(parameter_item(reader, ParameterKeyword::Parameter, place, rest))
    } else if word == b"localparam".as_slice() {
        found(parameter_item(reader, ParameterKeyword::Local, place, rest))
    } else if word == b"wire".as_slice() {
        found(wire_item(reader, place, rest))
    } else if word == b"reg".as_slice() {
        found(reg_item(reader, place, rest))
    } else if word == b"integer".as_slice() {
        found(integer_item(reader, place, rest))
    } else if word == b"assign".as_slice() {
        found(assign_item(reader, place, rest))
    } else if word == b"initial".as_slice() {
        found(initial_item(reader, place, rest))
    } else if word == b"always".as_slice() {
        found(always_item(reader, place, rest))
    } else if word == b"function".as_slice() {
        found(function_item(reader, place, rest))
    } else {
        Ok((None, tokens))
    }
}

/// `[ item ]`
#[tactic(auto, using(vl_pstmt::proofs::Passing::hands_on, crate::proofs::Lists::kept, crate::proofs::Lists::another), unfolding(vl_tree::specs::Parsing::item_by, vl_tree::specs::Reading::next_by))]
fn optional_item<'a>(
    reader: Reader,
    tokens: &'a [Token],
) -> Result<(Option<Item>, &'a [Token]), Fault<'a>>
    requires { length tokens.now + 1 < reader.depth }
    ensures reads { let n = reader.depth in Gives result (optional (spec.item_by (spec.whole n) (spec.target n) n (spec.outer n)) (λ q. q) tokens.now) }
    ensures no_longer { IfOk result (λ x. length x.1.now ≤ length tokens.now) }
    ensures shorter { IfOk result (λ x. IfSome x.0 (λ _. length x.1.now < length tokens.now)) }
{
    let Some((first, rest)) = tokens.split_first() else {
        return Ok((None, tokens));
    };
    match &first.kind {
        TokenKind::Name(name) => found(instance_item(reader, first.place, name, rest)),
        TokenKind::Keyword(word) => item_by_keyword(reader, first.place, word, rest, tokens),
        _ => Ok((None, tokens)),
    }
}

/// `{ item }`
pub fn items<'a>(
    reader: Reader,
    tokens: &'a [Token],
) -> Result<(Parts<Item>, &'a [Token]), Fault<'a>>
    requires { length tokens.now + 1 < reader.depth }
    ensures reads { let n = reader.depth in Gives result (many (spec.item_by (spec.whole n) (spec.target n) n (spec.outer n)) (λ q. q) n tokens.now) }
    ensures no_longer { IfOk result (λ x. length x.1.now ≤ length tokens.now) }
{
    let mut items = Parts::new(reader.alloc);
    let mut rest = tokens;
    'each: loop {
        let (found, more) = optional_item(reader, rest)?;
        let Some(item) = found else {
            return Ok((items, more));
        };
        items.push(item)?;
        rest = more;
    }
}
