//! Declarations (IEEE 1364-2005, clauses 4 and 6 and annex A.2).

ghost use Rattle.std.specs.Prelude.{◌+◌, ◌<◌, ◌≤◌, [], ◌∷◌, ◌++◌, codes, length, IfOk};
ghost use Rattle.vl_tree.specs.Parsers.{Gives, and_then, pure, if_ahead, list, groups, is_word};
ghost use Rattle.vl_tree.specs.Parsing as spec;

use crate::steps::{before_mark, begins_with_keyword, beside, closed, found, pushed};
use vl_pstmt::reader::Reader;
use vl_pstmt::steps::{after_keyword, past_keyword};
use vl_tree::Place;
use vl_tree::parts::Parts;
use vl_tree::source_fault::Fault;
use vl_tree::source_tree::{
    DeclarationAssignment, ParameterAssignment, ParameterGroup, ParameterType, Range, VariableMore,
    VariableType,
};
use vl_tree::steps::after_mark;
use vl_tree::token::Token;
use vl_tree::tree::Expression;

/// `[ range ]`
#[tactic(auto, using(vl_pstmt::proofs::Passing::hands_on), unfolding(vl_tree::specs::Parsing::optional_range))]
pub fn optional_range<'a>(
    reader: Reader,
    tokens: &'a [Token],
) -> Result<(Option<Range>, &'a [Token]), Fault<'a>>
    requires { length tokens.now + 1 < reader.depth }
    ensures reads { let n = reader.depth in Gives result (spec.optional_range (spec.whole n) (spec.target n) n tokens.now) }
    ensures no_longer { IfOk result (λ x. length x.1.now ≤ length tokens.now) }
{
    let Some((place, rest)) = after_mark(tokens, b"[") else {
        return Ok((None, tokens));
    };
    found(range(reader, place, rest))
}

/// `range = "[" expr ":" expr "]"`, from behind the `[`
#[tactic(auto, using(vl_pstmt::proofs::Passing::hands_on), unfolding(vl_tree::specs::Parsing::range))]
fn range<'a>(
    reader: Reader,
    place: Place,
    tokens: &'a [Token],
) -> Result<(Range, &'a [Token]), Fault<'a>>
    requires { length tokens.now + 1 < reader.depth }
    ensures reads { let n = reader.depth in Gives result (spec.range (spec.whole n) (spec.target n) n place tokens.now) }
    ensures shorter { IfOk result (λ x. length x.1.now < length tokens.now) }
{
    let (left, rest) = reader.expression(tokens)?;
    let (left, rest) = before_mark(left, rest, b":")?;
    let ((left, right), rest) = beside(left, reader.expression(rest))?;
    before_mark(Range { place, left, right }, rest, b"]")
}

/// `ptype = "integer" | [ "signed" ] [ range ]`
#[tactic(auto, using(vl_pstmt::proofs::Passing::hands_on), unfolding(vl_tree::specs::Parsing::parameter_type))]
pub fn parameter_type<'a>(
    reader: Reader,
    tokens: &'a [Token],
) -> Result<(ParameterType, &'a [Token]), Fault<'a>>
    requires { length tokens.now + 1 < reader.depth }
    ensures reads { let n = reader.depth in Gives result (spec.parameter_type (spec.whole n) (spec.target n) n tokens.now) }
    ensures no_longer { IfOk result (λ x. length x.1.now ≤ length tokens.now) }
{
    if let Some((_, rest)) = after_keyword(tokens, b"integer") {
        return Ok((ParameterType::Integer, rest));
    }
    let (signed, rest) = past_keyword(tokens, b"signed");
    let (range, rest) = optional_range(reader, rest)?;
    Ok((ParameterType::Vector(signed, range), rest))
}

/// `pset = id "=" expr`
#[tactic(auto, using(vl_pstmt::proofs::Passing::hands_on), unfolding(vl_tree::specs::Parsing::parameter_assignment))]
fn parameter_assignment<'a>(
    reader: Reader,
    tokens: &'a [Token],
) -> Result<(ParameterAssignment, &'a [Token]), Fault<'a>>
    requires { length tokens.now + 1 < reader.depth }
    ensures reads { let n = reader.depth in Gives result (spec.parameter_assignment (spec.whole n) (spec.target n) n tokens.now) }
    ensures shorter { IfOk result (λ x. length x.1.now < length tokens.now) }
{
    let (name, rest) = reader.identifier(tokens)?;
    let (_, rest) = reader.mark(rest, b"=")?;
    let (value, rest) = reader.expression(rest)?;
    Ok((
        ParameterAssignment {
            place: name.place,
            name,
            value,
        },
        rest,
    ))
}

/// `pset { "," pset }`
pub fn parameter_assignments<'a>(
    reader: Reader,
    tokens: &'a [Token],
) -> Result<(Parts<ParameterAssignment>, &'a [Token]), Fault<'a>>
    requires { length tokens.now + 1 < reader.depth }
    ensures reads { let n = reader.depth in Gives result (list (spec.parameter_assignment (spec.whole n) (spec.target n) n) n tokens.now) }
    ensures shorter { IfOk result (λ x. length x.1.now < length tokens.now) }
{
    let (mut assignments, mut rest) = pushed(
        Parts::new(reader.alloc),
        parameter_assignment(reader, tokens),
    )?;
    'each: while let Some((_, more)) = after_mark(rest, b",") {
        let (longer, more) = pushed(assignments, parameter_assignment(reader, more))?;
        assignments = longer;
        rest = more;
    }
    Ok((assignments, rest))
}

/// A group's word, its type and its first member
#[tactic(auto, using(vl_pstmt::proofs::Passing::hands_on), unfolding(vl_tree::specs::Parsing::group_head))]
fn group_head<'a>(
    reader: Reader,
    tokens: &'a [Token],
) -> Result<(ParameterGroup, &'a [Token]), Fault<'a>>
    requires { length tokens.now + 1 < reader.depth }
    ensures reads { let n = reader.depth in Gives result (spec.group_head (spec.whole n) (spec.target n) n tokens.now) }
    ensures shorter { IfOk result (λ x. length x.1.now < length tokens.now) }
{
    let (place, rest) = reader.keyword(tokens, b"parameter")?;
    let (kind, rest) = parameter_type(reader, rest)?;
    let first = pushed(Parts::new(reader.alloc), parameter_assignment(reader, rest));
    let ((kind, assignments), rest) = beside(kind, first)?;
    Ok((
        ParameterGroup {
            place,
            kind,
            assignments,
        },
        rest,
    ))
}

/// A further member of a group
#[tactic(auto, using(vl_pstmt::proofs::Passing::hands_on), unfolding(vl_tree::specs::Parsing::group_grow))]
fn group_grow<'a>(
    reader: Reader,
    group: ParameterGroup,
    tokens: &'a [Token],
) -> Result<(ParameterGroup, &'a [Token]), Fault<'a>>
    requires { length tokens.now + 1 < reader.depth }
    ensures reads { let n = reader.depth in Gives result (spec.group_grow (spec.whole n) (spec.target n) n group tokens.now) }
    ensures shorter { IfOk result (λ x. length x.1.now < length tokens.now) }
{
    let ParameterGroup {
        place,
        kind,
        assignments,
    } = group;
    let grown = pushed(assignments, parameter_assignment(reader, tokens));
    let ((kind, assignments), rest) = beside(kind, grown)?;
    Ok((
        ParameterGroup {
            place,
            kind,
            assignments,
        },
        rest,
    ))
}

/// The groups and the last one, behind a comma and what it separates
fn next_group<'a>(
    reader: Reader,
    groups: Parts<ParameterGroup>,
    last: ParameterGroup,
    tokens: &'a [Token],
) -> Result<((Parts<ParameterGroup>, ParameterGroup), &'a [Token]), Fault<'a>>
    requires { length tokens.now + 1 < reader.depth }
    ensures reads { let n = reader.depth in Gives result (if_ahead (is_word (codes "parameter")) (λ ts. and_then (spec.group_head (spec.whole n) (spec.target n) n ts) (λ h. pure (groups ++ last ∷ [], h))) (λ ts. and_then (spec.group_grow (spec.whole n) (spec.target n) n last ts) (λ h. pure (groups, h))) tokens.now) }
    ensures shorter { IfOk result (λ x. length x.1.now < length tokens.now) }
{
    if begins_with_keyword(tokens, b"parameter") {
        return closed(groups, last, group_head(reader, tokens));
    }
    beside(groups, group_grow(reader, last, tokens))
}

/// `pgroup { "," pgroup }`, from behind the first member of this group
fn more_groups<'a>(
    reader: Reader,
    first: ParameterGroup,
    tokens: &'a [Token],
) -> Result<(Parts<ParameterGroup>, &'a [Token]), Fault<'a>>
    requires { length tokens.now + 1 < reader.depth }
    ensures reads { let n = reader.depth in Gives result (groups (is_word (codes "parameter")) (spec.group_head (spec.whole n) (spec.target n) n) (spec.group_grow (spec.whole n) (spec.target n) n) n first tokens.now) }
    ensures no_longer { IfOk result (λ x. length x.1.now ≤ length tokens.now) }
{
    let mut groups = Parts::new(reader.alloc);
    let mut last = first;
    let mut rest = tokens;
    'each: while let Some((_, more)) = after_mark(rest, b",") {
        let ((before, next), more) = next_group(reader, groups, last, more)?;
        groups = before;
        last = next;
        rest = more;
    }
    groups.push(last)?;
    Ok((groups, rest))
}

/// `pgroup { "," pgroup }`
#[tactic(auto, using(vl_pstmt::proofs::Passing::hands_on), unfolding(vl_tree::specs::Parsing::parameter_groups))]
pub fn parameter_groups<'a>(
    reader: Reader,
    tokens: &'a [Token],
) -> Result<(Parts<ParameterGroup>, &'a [Token]), Fault<'a>>
    requires { length tokens.now + 1 < reader.depth }
    ensures reads { let n = reader.depth in Gives result (spec.parameter_groups (spec.whole n) (spec.target n) n tokens.now) }
    ensures shorter { IfOk result (λ x. length x.1.now < length tokens.now) }
{
    let (first, rest) = group_head(reader, tokens)?;
    more_groups(reader, first, rest)
}

/// `[ "=" expr ]`
#[tactic(auto, using(vl_pstmt::proofs::Passing::hands_on), unfolding(vl_tree::specs::Parsing::value))]
fn value<'a>(
    reader: Reader,
    tokens: &'a [Token],
) -> Result<(Option<Expression>, &'a [Token]), Fault<'a>>
    requires { length tokens.now + 1 < reader.depth }
    ensures reads { let n = reader.depth in Gives result (spec.value (spec.whole n) (spec.target n) n tokens.now) }
    ensures no_longer { IfOk result (λ x. length x.1.now ≤ length tokens.now) }
{
    let Some((_, rest)) = after_mark(tokens, b"=") else {
        return Ok((None, tokens));
    };
    found(reader.expression(rest))
}

/// `aset = id [ "=" expr ]`
#[tactic(auto, using(vl_pstmt::proofs::Passing::hands_on), unfolding(vl_tree::specs::Parsing::declaration_assignment))]
pub fn declaration_assignment<'a>(
    reader: Reader,
    tokens: &'a [Token],
) -> Result<(DeclarationAssignment, &'a [Token]), Fault<'a>>
    requires { length tokens.now + 1 < reader.depth }
    ensures reads { let n = reader.depth in Gives result (spec.declaration_assignment (spec.whole n) (spec.target n) n tokens.now) }
    ensures shorter { IfOk result (λ x. length x.1.now < length tokens.now) }
{
    let (name, rest) = reader.identifier(tokens)?;
    let (value, rest) = value(reader, rest)?;
    Ok((
        DeclarationAssignment {
            place: name.place,
            name,
            value,
        },
        rest,
    ))
}

/// `aset { "," aset }`
pub fn declaration_assignments<'a>(
    reader: Reader,
    tokens: &'a [Token],
) -> Result<(Parts<DeclarationAssignment>, &'a [Token]), Fault<'a>>
    requires { length tokens.now + 1 < reader.depth }
    ensures reads { let n = reader.depth in Gives result (list (spec.declaration_assignment (spec.whole n) (spec.target n) n) n tokens.now) }
    ensures shorter { IfOk result (λ x. length x.1.now < length tokens.now) }
{
    let (mut assignments, mut rest) = pushed(
        Parts::new(reader.alloc),
        declaration_assignment(reader, tokens),
    )?;
    'each: while let Some((_, more)) = after_mark(rest, b",") {
        let (longer, more) = pushed(assignments, declaration_assignment(reader, more))?;
        assignments = longer;
        rest = more;
    }
    Ok((assignments, rest))
}

/// `[ range | "=" expr ]`
#[tactic(auto, using(vl_pstmt::proofs::Passing::hands_on), unfolding(vl_tree::specs::Parsing::variable_more))]
fn variable_more<'a>(
    reader: Reader,
    tokens: &'a [Token],
) -> Result<(Option<VariableMore>, &'a [Token]), Fault<'a>>
    requires { length tokens.now + 1 < reader.depth }
    ensures reads { let n = reader.depth in Gives result (spec.variable_more (spec.whole n) (spec.target n) n tokens.now) }
    ensures no_longer { IfOk result (λ x. length x.1.now ≤ length tokens.now) }
{
    if let Some((place, rest)) = after_mark(tokens, b"[") {
        let (range, rest) = range(reader, place, rest)?;
        return Ok((Some(VariableMore::Words(range)), rest));
    }
    let Some((_, rest)) = after_mark(tokens, b"=") else {
        return Ok((None, tokens));
    };
    let (value, rest) = reader.expression(rest)?;
    Ok((Some(VariableMore::Value(value)), rest))
}

/// `vset = id [ range | "=" expr ]`
#[tactic(auto, using(vl_pstmt::proofs::Passing::hands_on), unfolding(vl_tree::specs::Parsing::variable_type))]
fn variable_type<'a>(
    reader: Reader,
    tokens: &'a [Token],
) -> Result<(VariableType, &'a [Token]), Fault<'a>>
    requires { length tokens.now + 1 < reader.depth }
    ensures reads { let n = reader.depth in Gives result (spec.variable_type (spec.whole n) (spec.target n) n tokens.now) }
    ensures shorter { IfOk result (λ x. length x.1.now < length tokens.now) }
{
    let (name, rest) = reader.identifier(tokens)?;
    let (more, rest) = variable_more(reader, rest)?;
    Ok((
        VariableType {
            place: name.place,
            name,
            more,
        },
        rest,
    ))
}

/// `vset { "," vset }`
pub fn variable_types<'a>(
    reader: Reader,
    tokens: &'a [Token],
) -> Result<(Parts<VariableType>, &'a [Token]), Fault<'a>>
    requires { length tokens.now + 1 < reader.depth }
    ensures reads { let n = reader.depth in Gives result (list (spec.variable_type (spec.whole n) (spec.target n) n) n tokens.now) }
    ensures shorter { IfOk result (λ x. length x.1.now < length tokens.now) }
{
    let (mut variables, mut rest) = pushed(
        Parts::new(reader.alloc),
        variable_type(reader, tokens),
    )?;
    'each: while let Some((_, more)) = after_mark(rest, b",") {
        let (longer, more) = pushed(variables, variable_type(reader, more))?;
        variables = longer;
        rest = more;
    }
    Ok((variables, rest))
}
