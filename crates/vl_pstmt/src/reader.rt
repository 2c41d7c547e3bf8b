//! What each production is read with.

ghost use Rattle.std.specs.Prelude.{◌+◌, ◌<◌, ◌≤◌, [], ◌∷◌, length, IfOk, codes};
ghost use Rattle.vl_tree.specs.Reading as plain;
ghost use Rattle.vl_tree.specs.Parsers as parsers;
ghost use Rattle.vl_tree.specs.Parsers.{Gives, must, pure, with_front, many};
ghost use Rattle.vl_tree.specs.Parsing as spec;

use crate::limits::{window, within_limit};
use crate::steps::after_keyword;
use std::alloc::Global;
use vl_pexpr::expression_at;
use vl_tree::Place;
use vl_tree::parts::Parts;
use vl_tree::source_fault::{Cause, Fault};
use vl_tree::steps::{after_mark, copy_of, ends_argument};
use vl_tree::token::{Token, TokenKind};
use vl_tree::tree::{Expression, Identifier};

/// Reads parts of a source from the front of a slice: the part and the tokens after it, or the fault.
#[derive(Clone, Copy)]
pub struct Reader {
    /// Where trees are kept.
    pub alloc: Global,
    /// More than one past the number of tokens.
    pub depth: usize,
}

impl Reader {
    /// A mark that has to come.
    pub fn mark<'a>(
        &self,
        tokens: &'a [Token],
        mark: &[u8],
    ) -> Result<(Place, &'a [Token]), Fault<'a>>
        ensures reads { Gives result (must (plain.mark mark.now) (λ p. pure p) tokens.now) }
        ensures shorter { IfOk result (λ x. length x.1.now < length tokens.now) }
    {
        match after_mark(tokens, mark) {
            Some(read) => Ok(read),
            None => Err(Fault::At(Cause::Syntax, tokens)),
        }
    }

    /// A reserved word that has to come.
    pub fn keyword<'a>(
        &self,
        tokens: &'a [Token],
        word: &[u8],
    ) -> Result<(Place, &'a [Token]), Fault<'a>>
        ensures reads { Gives result (must (plain.keyword word.now) (λ p. pure p) tokens.now) }
        ensures shorter { IfOk result (λ x. length x.1.now < length tokens.now) }
    {
        match after_keyword(tokens, word) {
            Some(read) => Ok(read),
            None => Err(Fault::At(Cause::Syntax, tokens)),
        }
    }

    /// `id`
    #[tactic(auto, unfolding(vl_tree::specs::Parsers::identifier, vl_tree::specs::Parsers::identifier_token, vl_tree::specs::Reading::next_by))]
    pub fn identifier<'a>(
        &self,
        tokens: &'a [Token],
    ) -> Result<(Identifier, &'a [Token]), Fault<'a>>
        ensures reads { Gives result (parsers.identifier tokens.now) }
        ensures shorter { IfOk result (λ x. length x.1.now < length tokens.now) }
    {
        let Some((first, rest)) = tokens.split_first() else {
            return Err(Fault::At(Cause::Syntax, tokens));
        };
        let TokenKind::Name(name) = &first.kind else {
            return Err(Fault::At(Cause::Syntax, tokens));
        };
        let identifier = Identifier {
            place: first.place,
            name: copy_of(self.alloc, name)?,
        };
        Ok((identifier, rest))
    }

    /// `id { "," id }`
    #[tactic(auto, using(crate::proofs::Passing::hands_on), unfolding(vl_tree::specs::Parsers::list))]
    pub fn identifiers<'a>(
        &self,
        tokens: &'a [Token],
    ) -> Result<(Parts<Identifier>, &'a [Token]), Fault<'a>>
        requires { length tokens.now + 1 < self.now.depth }
        ensures reads { Gives result (parsers.list parsers.identifier self.now.depth tokens.now) }
        ensures shorter { IfOk result (λ x. length x.1.now < length tokens.now) }
    {
        let (first, rest) = self.identifier(tokens)?;
        self.more_identifiers(first, rest)
    }

    /// The name, and those behind the commas that follow
    fn more_identifiers<'a>(
        &self,
        first: Identifier,
        tokens: &'a [Token],
    ) -> Result<(Parts<Identifier>, &'a [Token]), Fault<'a>>
        requires { length tokens.now < self.now.depth }
        ensures reads { Gives result (with_front (first ∷ []) (many (plain.mark (codes ",")) (λ _. parsers.identifier) self.now.depth tokens.now)) }
        ensures no_longer { IfOk result (λ x. length x.1.now ≤ length tokens.now) }
    {
        let mut names = Parts::new(self.alloc);
        names.push(first)?;
        let mut rest = tokens;
        'each: while let Some((_, more)) = after_mark(rest, b",") {
            let (name, more) = self.identifier(more)?;
            names.push(name)?;
            rest = more;
        }
        Ok((names, rest))
    }

    /// `expr`, in no other
    pub fn expression<'a>(
        &self,
        tokens: &'a [Token],
    ) -> Result<(Expression, &'a [Token]), Fault<'a>>
        requires { length tokens.now + 1 < self.now.depth }
        ensures reads { Gives result (spec.whole self.now.depth tokens.now) }
        ensures shorter { IfOk result (λ x. length x.1.now < length tokens.now) }
    {
        let window = window(tokens);
        within_limit(
            tokens,
            window.len(),
            expression_at(self.alloc, window, self.depth),
        )
    }

    /// `"(" expr ")"`
    #[tactic(auto, using(crate::proofs::Passing::hands_on))]
    pub fn parenthesized<'a>(
        &self,
        tokens: &'a [Token],
    ) -> Result<(Expression, &'a [Token]), Fault<'a>>
        requires { length tokens.now + 1 < self.now.depth }
        ensures reads { Gives result (parsers.parenthesized (spec.whole self.now.depth) tokens.now) }
        ensures shorter { IfOk result (λ x. length x.1.now < length tokens.now) }
    {
        let (_, rest) = self.mark(tokens, b"(")?;
        let (tree, rest) = self.expression(rest)?;
        let (_, rest) = self.mark(rest, b")")?;
        Ok((tree, rest))
    }

    /// `[ expr ]` before a `,` or a `)`
    #[tactic(auto, using(crate::proofs::Passing::hands_on), unfolding(vl_tree::specs::Parsing::argument))]
    pub fn argument<'a>(
        &self,
        tokens: &'a [Token],
    ) -> Result<(Option<Expression>, &'a [Token]), Fault<'a>>
        requires { length tokens.now + 1 < self.now.depth }
        ensures reads { let n = self.now.depth in Gives result (spec.argument (spec.whole n) (spec.target n) n tokens.now) }
        ensures no_longer { IfOk result (λ x. length x.1.now ≤ length tokens.now) }
    {
        if ends_argument(tokens) {
            return Ok((None, tokens));
        }
        let (tree, rest) = self.expression(tokens)?;
        Ok((Some(tree), rest))
    }
}
