//! Left sides of assignments (IEEE 1364-2005, annexes A.6.1, A.6.2 and A.8.5).
//!
//! An index is an expression of its own. The other tokens of a left side count together: each reader is given how many
//! of them stand before, and gives how many stand up to its end.

ghost use Rattle.std.specs.Prelude.{ℕ, ◌+◌, ◌<◌, ◌≤◌, [], ◌∷◌, length, IfOk};
ghost use Rattle.vl_tree.specs.Parsers.{Gives, must_counted, with_counted_front, identifier_token};
ghost use Rattle.vl_tree.specs.Parsing as spec;
ghost use Rattle.vl_pstmt.specs.Nests.{NestsTargets};

use crate::limits::MOST_TOKENS;
use crate::reader::Reader;
use std::alloc::Global;
use vl_tree::Place;
use vl_tree::parts::Parts;
use vl_tree::source_fault::{Cause, Fault};
use vl_tree::source_tree::{Assignment, Lvalue};
use vl_tree::steps::{after_mark, after_select, copy_of, first_place};
use vl_tree::token::{Token, TokenKind};
use vl_tree::tree::{Bound, Identifier, Name, Select};

impl Reader {
    /// `lvalue`, in no other
    #[tactic(auto, using(crate::proofs::Passing::hands_on), unfolding(vl_tree::specs::Parsing::target))]
    pub fn target<'a>(&self, tokens: &'a [Token]) -> Result<(Lvalue, &'a [Token]), Fault<'a>>
        requires { length tokens.now + 1 < self.now.depth }
        ensures reads { Gives result (spec.target self.now.depth tokens.now) }
        ensures shorter { IfOk result (λ x. length x.1.now < length tokens.now) }
    {
        let ((target, _), rest) = lvalue_at(self.alloc, tokens, self.depth, 0)?;
        Ok((target, rest))
    }

    /// `lset = lvalue "=" expr`
    #[tactic(auto, using(crate::proofs::Passing::hands_on), unfolding(vl_tree::specs::Parsing::assignment))]
    pub fn assignment<'a>(
        &self,
        tokens: &'a [Token],
    ) -> Result<(Assignment, &'a [Token]), Fault<'a>>
        requires { length tokens.now + 1 < self.now.depth }
        ensures reads { let n = self.now.depth in Gives result (spec.assignment (spec.whole n) (spec.target n) n tokens.now) }
        ensures shorter { IfOk result (λ x. length x.1.now < length tokens.now) }
    {
        let place = first_place(tokens);
        let (target, rest) = self.target(tokens)?;
        let (_, rest) = self.mark(rest, b"=")?;
        let (value, rest) = self.expression(rest)?;
        Ok((
            Assignment {
                place,
                target,
                value,
            },
            rest,
        ))
    }

    /// `{ "[" expr [ (":" | "+:" | "-:") expr ] "]" }`
    fn indices<'a>(
        &self,
        tokens: &'a [Token],
        before: usize,
    ) -> Result<((Parts<Select>, usize), &'a [Token]), Fault<'a>>
        requires { length tokens.now < self.now.depth }
        ensures reads { Gives result (spec.indices self.now.depth before tokens.now) }
        ensures no_longer { IfOk result (λ x. length x.1.now ≤ length tokens.now) }
    {
        let mut selects = Parts::new(self.alloc);
        let mut count = before;
        let mut rest = tokens;
        'each: while let Some((place, more)) = after_mark(rest, b"[") {
            if count >= MOST_TOKENS {
                return Err(Fault::At(Cause::Tokens, rest));
            }
            let ((select, counted), more) = self.index(place, more, count + 1)?;
            selects.push(select)?;
            count = counted;
            rest = more;
        }
        Ok(((selects, count), rest))
    }

    /// An index, from behind its `[`
    #[tactic(auto, using(crate::proofs::Passing::hands_on), unfolding(vl_tree::specs::Parsing::index))]
    fn index<'a>(
        &self,
        place: Place,
        tokens: &'a [Token],
        before: usize,
    ) -> Result<((Select, usize), &'a [Token]), Fault<'a>>
        requires { length tokens.now + 1 < self.now.depth }
        ensures reads { Gives result (spec.index self.now.depth before place tokens.now) }
        ensures shorter { IfOk result (λ x. length x.1.now < length tokens.now) }
    {
        let (first, rest) = self.expression(tokens)?;
        let ((second, count), rest) = self.index_bound(rest, before)?;
        let Some((_, behind)) = after_mark(rest, b"]") else {
            return Err(Fault::At(Cause::Syntax, rest));
        };
        if count >= MOST_TOKENS {
            return Err(Fault::At(Cause::Tokens, rest));
        }
        let select = Select {
            place,
            first,
            second,
        };
        Ok(((select, count + 1), behind))
    }

    /// `[ (":" | "+:" | "-:") expr ]`
    #[tactic(auto, using(crate::proofs::Passing::hands_on), unfolding(vl_tree::specs::Parsing::index_bound))]
    fn index_bound<'a>(
        &self,
        tokens: &'a [Token],
        before: usize,
    ) -> Result<((Option<Bound>, usize), &'a [Token]), Fault<'a>>
        requires { length tokens.now < self.now.depth }
        ensures reads { Gives result (spec.index_bound self.now.depth before tokens.now) }
        ensures no_longer { IfOk result (λ x. length x.1.now ≤ length tokens.now) }
    {
        let Some((mark, rest)) = after_select(tokens) else {
            return Ok(((None, before), tokens));
        };
        if before >= MOST_TOKENS {
            return Err(Fault::At(Cause::Tokens, tokens));
        }
        let (bound, rest) = self.expression(rest)?;
        Ok(((Some(Bound { mark, bound }), before + 1), rest))
    }
}

/// A left side at the front of the tokens. It nests less deep than `depth`.
#[tactic(auto, using(crate::proofs::Opening::lvalue_opens))]
fn lvalue_at(
    alloc: Global,
    tokens: &[Token],
    depth: usize,
    before: usize,
) -> Result<((Lvalue, usize), &[Token]), Fault<'_>>
    requires { length tokens.now + 1 < depth }
    ensures reads { Gives result (spec.lvalue depth before tokens.now) }
    ensures shorter { IfOk result (λ x. length x.1.now < length tokens.now) }
{
    Targets {
        reader: Reader {
            alloc,
            depth: depth - 1,
        },
        inner: lvalue_at,
    }
    .level(tokens, before)
}

/// The left sides inside a left side.
#[derive(Clone, Copy)]
struct Targets<F> {
    /// Its depth is how deep left sides may still nest.
    reader: Reader,
    /// The parser of left sides.
    inner: F,
}

impl<
    'a,
    F: Fn(Global, &'a [Token], usize, usize) -> Result<((Lvalue, usize), &'a [Token]), Fault<'a>>,
> Targets<F> {
    /// A left side inside this one
    fn inner(
        &self,
        tokens: &'a [Token],
        before: usize,
    ) -> Result<((Lvalue, usize), &'a [Token]), Fault<'a>>
        requires nests { NestsTargets self.now.reader.depth (F.pre self.now.inner) (F.post self.now.inner) }
        requires room { length tokens.now + 1 < self.now.reader.depth }
        ensures reads { Gives result (spec.lvalue self.now.reader.depth before tokens.now) }
        ensures shorter { IfOk result (λ x. length x.1.now < length tokens.now) }
    {
        (self.inner)(self.reader.alloc, tokens, self.reader.depth, before)
    }

    /// `lvalue = name | "{" lvalue { "," lvalue } "}"`
    #[tactic(auto, using(crate::proofs::Passing::hands_on), unfolding(vl_tree::specs::Parsing::target_level))]
    fn level(
        &self,
        tokens: &'a [Token],
        before: usize,
    ) -> Result<((Lvalue, usize), &'a [Token]), Fault<'a>>
        requires nests { NestsTargets self.now.reader.depth (F.pre self.now.inner) (F.post self.now.inner) }
        requires room { length tokens.now < self.now.reader.depth }
        ensures reads { let n = self.now.reader.depth in Gives result (spec.target_level (spec.lvalue n) n before tokens.now) }
        ensures shorter { IfOk result (λ x. length x.1.now < length tokens.now) }
    {
        let Some((place, rest)) = after_mark(tokens, b"{") else {
            return self.name(tokens, before);
        };
        if before >= MOST_TOKENS {
            return Err(Fault::At(Cause::Tokens, tokens));
        }
        self.concatenation(place, rest, before + 1)
    }

    /// A name with its indices
    #[tactic(auto, using(crate::proofs::Passing::hands_on), unfolding(vl_tree::specs::Parsing::target_name, vl_tree::specs::Parsers::identifier_token, vl_tree::specs::Reading::next_by))]
    fn name(
        &self,
        tokens: &'a [Token],
        before: usize,
    ) -> Result<((Lvalue, usize), &'a [Token]), Fault<'a>>
        requires { length tokens.now < self.now.reader.depth }
        ensures reads { let n = self.now.reader.depth in Gives result (must_counted before identifier_token (spec.target_name (spec.lvalue n) n (before + 1)) tokens.now) }
        ensures shorter { IfOk result (λ x. length x.1.now < length tokens.now) }
    {
        let Some((first, rest)) = tokens.split_first() else {
            return Err(Fault::At(Cause::Syntax, tokens));
        };
        let TokenKind::Name(text) = &first.kind else {
            return Err(Fault::At(Cause::Syntax, tokens));
        };
        if before >= MOST_TOKENS {
            return Err(Fault::At(Cause::Tokens, tokens));
        }
        let place = first.place;
        let identifier = Identifier {
            place,
            name: copy_of(self.reader.alloc, text)?,
        };
        let ((selects, count), rest) = self.reader.indices(rest, before + 1)?;
        let name = Name {
            place,
            identifier,
            selects,
        };
        Ok(((Lvalue::Name(name), count), rest))
    }

    /// A list of left sides, from behind its `{`
    #[tactic(auto, using(crate::proofs::Passing::hands_on), unfolding(vl_tree::specs::Parsing::targets))]
    fn concatenation(
        &self,
        place: Place,
        tokens: &'a [Token],
        before: usize,
    ) -> Result<((Lvalue, usize), &'a [Token]), Fault<'a>>
        requires nests { NestsTargets self.now.reader.depth (F.pre self.now.inner) (F.post self.now.inner) }
        requires room { length tokens.now + 1 < self.now.reader.depth }
        ensures reads { let n = self.now.reader.depth in Gives result (spec.targets (spec.lvalue n) n before place tokens.now) }
        ensures shorter { IfOk result (λ x. length x.1.now < length tokens.now) }
    {
        let ((first, count), rest) = self.inner(tokens, before)?;
        let ((targets, count), rest) = self.more(first, rest, count)?;
        let Some((_, behind)) = after_mark(rest, b"}") else {
            return Err(Fault::At(Cause::Syntax, rest));
        };
        if count >= MOST_TOKENS {
            return Err(Fault::At(Cause::Tokens, rest));
        }
        Ok(((Lvalue::Concatenation(place, targets), count + 1), behind))
    }

    /// The left side, and those behind the commas that follow
    fn more(
        &self,
        first: Lvalue,
        tokens: &'a [Token],
        before: usize,
    ) -> Result<((Parts<Lvalue>, usize), &'a [Token]), Fault<'a>>
        requires nests { NestsTargets self.now.reader.depth (F.pre self.now.inner) (F.post self.now.inner) }
        requires room { length tokens.now < self.now.reader.depth }
        ensures reads { let n = self.now.reader.depth in Gives result (with_counted_front (first ∷ []) (spec.more_targets (spec.lvalue n) n before tokens.now)) }
        ensures no_longer { IfOk result (λ x. length x.1.now ≤ length tokens.now) }
    {
        let mut targets = Parts::new(self.reader.alloc);
        targets.push(first)?;
        let mut count = before;
        let mut rest = tokens;
        'each: while let Some((_, more)) = after_mark(rest, b",") {
            if count >= MOST_TOKENS {
                return Err(Fault::At(Cause::Tokens, rest));
            }
            let ((target, counted), more) = self.inner(more, count + 1)?;
            targets.push(target)?;
            count = counted;
            rest = more;
        }
        Ok(((targets, count), rest))
    }
}
