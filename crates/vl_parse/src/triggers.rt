//! What starts a process (IEEE 1364-2005, clause 9.7 and annex A.6.5).

ghost use Rattle.std.specs.Prelude.{◌≡◌, ℕ, ◌+◌, ◌<◌, ◌≤◌, length, option_map, IfOk, IfSome};
ghost use Rattle.vl_tree.specs.Reading.{next_by};
ghost use Rattle.vl_tree.specs.Parsers.{Gives};
ghost use Rattle.vl_tree.specs.Parsing as spec;
ghost use Rattle.vl_parse.specs.Parts.{edge_event as edge_event_lem};

use crate::steps::{before_mark, pushed};
use vl_pstmt::reader::Reader;
use vl_pstmt::steps::after_keyword;
use vl_tree::Place;
use vl_tree::parts::Parts;
use vl_tree::source_fault::Fault;
use vl_tree::source_tree::{Edge, Event, Trigger};
use vl_tree::steps::after_mark;
use vl_tree::token::Token;

/// `trigger`
#[tactic(auto, using(vl_pstmt::proofs::Passing::hands_on), unfolding(vl_tree::specs::Parsing::trigger))]
pub fn trigger<'a>(reader: Reader, tokens: &'a [Token]) -> Result<(Trigger, &'a [Token]), Fault<'a>>
    requires { length tokens.now + 1 < reader.depth }
    ensures reads { let n = reader.depth in Gives result (spec.trigger (spec.whole n) (spec.target n) n tokens.now) }
    ensures shorter { IfOk result (λ x. length x.1.now < length tokens.now) }
{
    if let Some((_, rest)) = after_mark(tokens, b"*") {
        return Ok((Trigger::Star, rest));
    }
    let (_, rest) = reader.mark(tokens, b"(")?;
    let (trigger, rest) = inner_trigger(reader, rest)?;
    before_mark(trigger, rest, b")")
}

/// What stands in a trigger's parentheses
#[tactic(auto, using(vl_pstmt::proofs::Passing::hands_on), unfolding(vl_tree::specs::Parsing::inner_trigger))]
fn inner_trigger<'a>(
    reader: Reader,
    tokens: &'a [Token],
) -> Result<(Trigger, &'a [Token]), Fault<'a>>
    requires { length tokens.now + 1 < reader.depth }
    ensures reads { let n = reader.depth in Gives result (spec.inner_trigger (spec.whole n) (spec.target n) n tokens.now) }
    ensures shorter { IfOk result (λ x. length x.1.now < length tokens.now) }
{
    if let Some((_, rest)) = after_mark(tokens, b"*") {
        return Ok((Trigger::Parenthesized, rest));
    }
    let (events, rest) = events(reader, tokens)?;
    Ok((Trigger::Events(events), rest))
}

/// `event = [ "posedge" | "negedge" ] id`
#[tactic(auto, using(vl_pstmt::proofs::Passing::hands_on), unfolding(vl_tree::specs::Parsing::event))]
fn event<'a>(reader: Reader, tokens: &'a [Token]) -> Result<(Event, &'a [Token]), Fault<'a>>
    requires { length tokens.now + 1 < reader.depth }
    ensures reads { let n = reader.depth in Gives result (spec.event (spec.whole n) (spec.target n) n tokens.now) }
    ensures shorter { IfOk result (λ x. length x.1.now < length tokens.now) }
{
    if let Some((place, rest)) = after_keyword(tokens, b"posedge") {
        return edge_event(reader, place, Edge::Rising, rest);
    }
    if let Some((place, rest)) = after_keyword(tokens, b"negedge") {
        return edge_event(reader, place, Edge::Falling, rest);
    }
    let (name, rest) = reader.identifier(tokens)?;
    Ok((
        Event {
            place: name.place,
            edge: None,
            name,
        },
        rest,
    ))
}

/// An event at an edge, from behind the word for it
#[tactic(auto, using(vl_pstmt::proofs::Passing::hands_on))]
fn edge_event<'a>(
    reader: Reader,
    place: Place,
    edge: Edge,
    tokens: &'a [Token],
) -> Result<(Event, &'a [Token]), Fault<'a>>
    requires { length tokens.now + 1 < reader.depth }
    ensures reads { Gives result (edge_event_lem place edge tokens.now) }
    ensures shorter { IfOk result (λ x. length x.1.now < length tokens.now) }
{
    let (name, rest) = reader.identifier(tokens)?;
    Ok((
        Event {
            place,
            edge: Some(edge),
            name,
        },
        rest,
    ))
}

/// The place of `"or" | ","` and the tokens after it, if it comes first.
fn after_separator(tokens: &[Token]) -> Option<(Place, &[Token])>
    ensures value { (n : ℕ) → option_map (λ x. (x.0, x.1.now)) result ≡ next_by (spec.between_events (spec.whole n) (spec.target n) n) tokens.now }
    ensures shorter { IfSome result (λ x. length x.1.now < length tokens.now) }
{
    if let Some((place, rest)) = after_keyword(tokens, b"or") {
        return Some((place, rest));
    }
    after_mark(tokens, b",")
}

/// `event { ("or" | ",") event }`
fn events<'a>(reader: Reader, tokens: &'a [Token]) -> Result<(Parts<Event>, &'a [Token]), Fault<'a>>
    requires { length tokens.now + 1 < reader.depth }
    ensures reads { let n = reader.depth in Gives result (spec.events (spec.whole n) (spec.target n) n tokens.now) }
    ensures shorter { IfOk result (λ x. length x.1.now < length tokens.now) }
{
    let (mut events, mut rest) = pushed(Parts::new(reader.alloc), event(reader, tokens))?;
    'each: while let Some((_, more)) = after_separator(rest) {
        let (longer, more) = pushed(events, event(reader, more))?;
        events = longer;
        rest = more;
    }
    Ok((events, rest))
}
