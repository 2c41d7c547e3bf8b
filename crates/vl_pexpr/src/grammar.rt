//! The productions. Each takes the parser of expressions as a parameter, so that it is proved by itself.

ghost use Rattle.std.specs.Prelude.{◌≡◌, ℕ, ◌<◌, ◌≤◌, ◌+◌, [], ◌∷◌, length, IfOk};
ghost use Rattle.vl_tree.specs.Reading.{Gives, with_front, many, mark, pure};
ghost use Rattle.vl_tree.specs.declared.tree.Primary.TheVariants as x;
ghost use Rattle.vl_tree.specs.MarksOfGrammar.{unary_operator};
ghost use Rattle.vl_tree.specs.Expressions as spec;
ghost use Rattle.vl_tree.specs.Grammar as tree;
ghost use Rattle.vl_pexpr.specs.Nests.{Nests};

use std::alloc::{AllocError, Global};
use vl_tree::fault::Fault;
use vl_tree::number::Number;
use vl_tree::parts::{Boxed, Parts};
use vl_tree::steps::{
    after_binary, after_mark, after_select, after_unary, copy_of, ends_argument, first_place,
};
use vl_tree::token::{Token, TokenKind};
use vl_tree::tree::{
    Binary, Bound, Choice, Expression, Identifier, Link, Name, Primary, Select, SystemArgument,
    SystemCall, Unary, UnaryMark,
};
use vl_tree::{Place, Text};

/// An expression at the front of the tokens. It nests less deep than `depth`.
#[tactic(auto, using(crate::proofs::Opening::expr_opens))]
pub fn expression_at(
    alloc: Global,
    tokens: &[Token],
    depth: usize,
) -> Result<(Expression, &[Token]), Fault<'_>>
    requires { length tokens.now + 1 < depth }
    ensures reads { Gives result (spec.expr depth tokens.now) }
    ensures shorter { IfOk result (λ x. length x.1.now < length tokens.now) }
{
    Grammar {
        alloc,
        depth: depth - 1,
        expression: expression_at,
    }
    .level(tokens)
}

/// The productions inside an expression.
#[derive(Clone, Copy)]
struct Grammar<F> {
    alloc: Global,
    /// How deep expressions may still nest.
    depth: usize,
    /// The parser of expressions.
    expression: F,
}

impl<'a, F: Fn(Global, &'a [Token], usize) -> Result<(Expression, &'a [Token]), Fault<'a>>> Grammar<
    F,
> {
    /// An expression inside this one.
    fn expression(&self, tokens: &'a [Token]) -> Result<(Expression, &'a [Token]), Fault<'a>>
        requires nests { Nests self.now.depth (F.pre self.now.expression) (F.post self.now.expression) }
        requires room { length tokens.now + 1 < self.now.depth }
        ensures reads { Gives result (spec.expr self.now.depth tokens.now) }
        ensures shorter { IfOk result (λ x. length x.1.now < length tokens.now) }
    {
        (self.expression)(self.alloc, tokens, self.depth)
    }

    /// `expr = binary [ "?" expr ":" expr ]`
    #[tactic(auto, using(vl_tree::proofs::Passing::hands_on), unfolding(vl_tree::specs::Expressions::level))]
    fn level(&self, tokens: &'a [Token]) -> Result<(Expression, &'a [Token]), Fault<'a>>
        requires nests { Nests self.now.depth (F.pre self.now.expression) (F.post self.now.expression) }
        requires room { length tokens.now < self.now.depth }
        ensures reads { Gives result (spec.level (spec.expr self.now.depth) self.now.depth tokens.now) }
        ensures shorter { IfOk result (λ x. length x.1.now < length tokens.now) }
    {
        let place = first_place(tokens);
        let (binary, rest) = self.binary(tokens)?;
        let (choice, rest) = self.choice(rest)?;
        Ok((
            Expression {
                place,
                binary,
                choice,
            },
            rest,
        ))
    }

    /// `[ "?" expr ":" expr ]`
    #[tactic(auto, using(vl_tree::proofs::Passing::hands_on), unfolding(vl_tree::specs::Expressions::choice))]
    fn choice(&self, tokens: &'a [Token]) -> Result<(Option<Boxed<Choice>>, &'a [Token]), Fault<'a>>
        requires nests { Nests self.now.depth (F.pre self.now.expression) (F.post self.now.expression) }
        requires room { length tokens.now < self.now.depth }
        ensures reads { Gives result (spec.choice (spec.expr self.now.depth) self.now.depth tokens.now) }
        ensures no_longer { IfOk result (λ x. length x.1.now ≤ length tokens.now) }
    {
        let Some((_, rest)) = after_mark(tokens, b"?") else {
            return Ok((None, tokens));
        };
        let (choice, rest) = self.branches(rest)?;
        Ok((Some(Boxed::new(self.alloc, choice)?), rest))
    }

    /// What stands behind a `?`.
    #[tactic(auto, using(vl_tree::proofs::Passing::hands_on), unfolding(vl_tree::specs::Expressions::branches))]
    fn branches(&self, tokens: &'a [Token]) -> Result<(Choice, &'a [Token]), Fault<'a>>
        requires nests { Nests self.now.depth (F.pre self.now.expression) (F.post self.now.expression) }
        requires room { length tokens.now + 1 < self.now.depth }
        ensures reads { Gives result (spec.branches (spec.expr self.now.depth) self.now.depth tokens.now) }
        ensures shorter { IfOk result (λ x. length x.1.now < length tokens.now) }
    {
        let (chosen, rest) = self.expression(tokens)?;
        let Some((_, rest)) = after_mark(rest, b":") else {
            return Err(Fault::At(rest));
        };
        let (otherwise, rest) = self.expression(rest)?;
        Ok((Choice { chosen, otherwise }, rest))
    }

    /// `binary = unary { binop unary }`
    #[tactic(auto, using(vl_tree::proofs::Passing::hands_on), unfolding(vl_tree::specs::Expressions::binary))]
    fn binary(&self, tokens: &'a [Token]) -> Result<(Boxed<Binary>, &'a [Token]), Fault<'a>>
        requires nests { Nests self.now.depth (F.pre self.now.expression) (F.post self.now.expression) }
        requires room { length tokens.now < self.now.depth }
        ensures reads { Gives result (spec.binary (spec.expr self.now.depth) self.now.depth tokens.now) }
        ensures shorter { IfOk result (λ x. length x.1.now < length tokens.now) }
    {
        let place = first_place(tokens);
        let (first, rest) = self.unary(tokens)?;
        let (links, rest) = self.links(rest)?;
        Ok((binary_of(self.alloc, place, first, links)?, rest))
    }

    /// `{ binop unary }`
    fn links(&self, tokens: &'a [Token]) -> Result<(Parts<Link>, &'a [Token]), Fault<'a>>
        requires nests { Nests self.now.depth (F.pre self.now.expression) (F.post self.now.expression) }
        requires room { length tokens.now < self.now.depth }
        ensures reads { Gives result (spec.links (spec.expr self.now.depth) self.now.depth tokens.now) }
        ensures no_longer { IfOk result (λ x. length x.1.now ≤ length tokens.now) }
    {
        let mut links = Parts::new(self.alloc);
        let mut rest = tokens;
        'each: while let Some((operator, more)) = after_binary(rest) {
            let (operand, more) = self.unary(more)?;
            links.push(Link { operator, operand })?;
            rest = more;
        }
        Ok((links, rest))
    }

    /// `unary = { unop } primary`
    #[tactic(auto, using(vl_tree::proofs::Passing::hands_on), unfolding(vl_tree::specs::Expressions::unary))]
    fn unary(&self, tokens: &'a [Token]) -> Result<(Unary, &'a [Token]), Fault<'a>>
        requires nests { Nests self.now.depth (F.pre self.now.expression) (F.post self.now.expression) }
        requires room { length tokens.now < self.now.depth }
        ensures reads { Gives result (spec.unary (spec.expr self.now.depth) self.now.depth tokens.now) }
        ensures shorter { IfOk result (λ x. length x.1.now < length tokens.now) }
    {
        let place = first_place(tokens);
        let (operators, rest) = operators(self.alloc, tokens)?;
        let (primary, rest) = self.primary(rest)?;
        Ok((
            Unary {
                place,
                operators,
                primary,
            },
            rest,
        ))
    }

    /// `primary`
    #[tactic(auto, using(vl_tree::proofs::Passing::hands_on), unfolding(vl_tree::specs::Expressions::primary, vl_tree::specs::Expressions::primary_by, vl_tree::specs::Reading::next_by))]
    fn primary(&self, tokens: &'a [Token]) -> Result<(Boxed<Primary>, &'a [Token]), Fault<'a>>
        requires nests { Nests self.now.depth (F.pre self.now.expression) (F.post self.now.expression) }
        requires room { length tokens.now < self.now.depth }
        ensures reads { Gives result (spec.primary (spec.expr self.now.depth) self.now.depth tokens.now) }
        ensures shorter { IfOk result (λ x. length x.1.now < length tokens.now) }
    {
        let Some((token, rest)) = tokens.split_first() else {
            return Err(Fault::At(tokens));
        };
        match &token.kind {
            TokenKind::Number(number) => self.number(token.place, *number, rest),
            TokenKind::Str(text) => self.string(token.place, text, rest),
            TokenKind::Name(name) => self.named(token.place, name, rest),
            TokenKind::System(name) => self.system_primary(token.place, name, rest),
            TokenKind::Mark(mark) => {
                if mark.as_slice() == b"(".as_slice() {
                    self.parenthesized(token.place, rest)
                } else if mark.as_slice() == b"{".as_slice() {
                    self.braced(token.place, rest)
                } else {
                    Err(Fault::At(tokens))
                }
            }
            TokenKind::Keyword(_) => Err(Fault::At(tokens)),
        }
    }

    /// A number, from behind it
    fn number(
        &self,
        place: Place,
        number: Number,
        tokens: &'a [Token],
    ) -> Result<(Boxed<Primary>, &'a [Token]), Fault<'a>>
        ensures reads { Gives result (pure (x.Number place number) tokens.now) }
        ensures no_longer { IfOk result (λ x. length x.1.now ≤ length tokens.now) }
    {
        let primary = Primary::Number(place, number);
        Ok((Boxed::new(self.alloc, primary)?, tokens))
    }

    /// A string, from behind it
    fn string(
        &self,
        place: Place,
        text: &Text,
        tokens: &'a [Token],
    ) -> Result<(Boxed<Primary>, &'a [Token]), Fault<'a>>
        ensures reads { Gives result (pure (x.Str place text.now) tokens.now) }
        ensures no_longer { IfOk result (λ x. length x.1.now ≤ length tokens.now) }
    {
        let primary = Primary::Str(place, copy_of(self.alloc, text)?);
        Ok((Boxed::new(self.alloc, primary)?, tokens))
    }

    /// A system call as a primary, from behind its name
    #[tactic(auto, using(vl_tree::proofs::Passing::hands_on), unfolding(vl_tree::specs::Expressions::system_primary))]
    fn system_primary(
        &self,
        place: Place,
        name: &Text,
        tokens: &'a [Token],
    ) -> Result<(Boxed<Primary>, &'a [Token]), Fault<'a>>
        requires nests { Nests self.now.depth (F.pre self.now.expression) (F.post self.now.expression) }
        requires room { length tokens.now < self.now.depth }
        ensures reads { Gives result (spec.system_primary (spec.expr self.now.depth) self.now.depth place name.now tokens.now) }
        ensures no_longer { IfOk result (λ x. length x.1.now ≤ length tokens.now) }
    {
        let (call, rest) = self.system(place, name, tokens)?;
        Ok((Boxed::new(self.alloc, Primary::System(call))?, rest))
    }

    /// `"(" expr ")"`, from behind the `(`
    #[tactic(auto, using(vl_tree::proofs::Passing::hands_on), unfolding(vl_tree::specs::Expressions::parenthesized))]
    fn parenthesized(
        &self,
        place: Place,
        tokens: &'a [Token],
    ) -> Result<(Boxed<Primary>, &'a [Token]), Fault<'a>>
        requires nests { Nests self.now.depth (F.pre self.now.expression) (F.post self.now.expression) }
        requires room { length tokens.now + 1 < self.now.depth }
        ensures reads { Gives result (spec.parenthesized (spec.expr self.now.depth) self.now.depth place tokens.now) }
        ensures shorter { IfOk result (λ x. length x.1.now < length tokens.now) }
    {
        let (inner, rest) = self.expression(tokens)?;
        let Some((_, rest)) = after_mark(rest, b")") else {
            return Err(Fault::At(rest));
        };
        Ok((parenthesized_of(self.alloc, place, inner)?, rest))
    }

    /// A concatenation or a replication, from behind its `{`
    #[tactic(auto, using(vl_tree::proofs::Passing::hands_on), unfolding(vl_tree::specs::Expressions::braced))]
    fn braced(
        &self,
        place: Place,
        tokens: &'a [Token],
    ) -> Result<(Boxed<Primary>, &'a [Token]), Fault<'a>>
        requires nests { Nests self.now.depth (F.pre self.now.expression) (F.post self.now.expression) }
        requires room { length tokens.now + 1 < self.now.depth }
        ensures reads { Gives result (spec.braced (spec.expr self.now.depth) self.now.depth place tokens.now) }
        ensures shorter { IfOk result (λ x. length x.1.now < length tokens.now) }
    {
        let (first, rest) = self.expression(tokens)?;
        let Some((_, inner)) = after_mark(rest, b"{") else {
            return self.concatenation(place, first, rest);
        };
        self.replication(place, first, inner)
    }

    /// `{ "," expr } "}"` behind the first expression of a concatenation
    #[tactic(auto, using(vl_tree::proofs::Passing::hands_on), unfolding(vl_tree::specs::Expressions::concatenation))]
    fn concatenation(
        &self,
        place: Place,
        first: Expression,
        tokens: &'a [Token],
    ) -> Result<(Boxed<Primary>, &'a [Token]), Fault<'a>>
        requires nests { Nests self.now.depth (F.pre self.now.expression) (F.post self.now.expression) }
        requires room { length tokens.now < self.now.depth }
        ensures reads { Gives result (spec.concatenation (spec.expr self.now.depth) self.now.depth place first tokens.now) }
        ensures shorter { IfOk result (λ x. length x.1.now < length tokens.now) }
    {
        let (items, rest) = self.more(first, tokens)?;
        let Some((_, rest)) = after_mark(rest, b"}") else {
            return Err(Fault::At(rest));
        };
        let primary = Primary::Concatenation(place, items);
        Ok((Boxed::new(self.alloc, primary)?, rest))
    }

    /// What a replication repeats, from behind its inner `{`
    #[tactic(auto, using(vl_tree::proofs::Passing::hands_on), unfolding(vl_tree::specs::Expressions::replication))]
    fn replication(
        &self,
        place: Place,
        count: Expression,
        tokens: &'a [Token],
    ) -> Result<(Boxed<Primary>, &'a [Token]), Fault<'a>>
        requires nests { Nests self.now.depth (F.pre self.now.expression) (F.post self.now.expression) }
        requires room { length tokens.now + 1 < self.now.depth }
        ensures reads { Gives result (spec.replication (spec.expr self.now.depth) self.now.depth place count tokens.now) }
        ensures shorter { IfOk result (λ x. length x.1.now < length tokens.now) }
    {
        let (items, rest) = self.expressions(tokens)?;
        let Some((_, rest)) = after_mark(rest, b"}") else {
            return Err(Fault::At(rest));
        };
        let Some((_, rest)) = after_mark(rest, b"}") else {
            return Err(Fault::At(rest));
        };
        let count = Boxed::new(self.alloc, count)?;
        let primary = Primary::Replication(place, count, items);
        Ok((Boxed::new(self.alloc, primary)?, rest))
    }

    /// `expr { "," expr }`
    #[tactic(auto, using(vl_tree::proofs::Passing::hands_on), unfolding(vl_tree::specs::Expressions::expressions))]
    fn expressions(
        &self,
        tokens: &'a [Token],
    ) -> Result<(Parts<Expression>, &'a [Token]), Fault<'a>>
        requires nests { Nests self.now.depth (F.pre self.now.expression) (F.post self.now.expression) }
        requires room { length tokens.now + 1 < self.now.depth }
        ensures reads { Gives result (spec.expressions (spec.expr self.now.depth) self.now.depth tokens.now) }
        ensures shorter { IfOk result (λ x. length x.1.now < length tokens.now) }
    {
        let (first, rest) = self.expression(tokens)?;
        self.more(first, rest)
    }

    /// The expression, and those behind the commas that follow
    fn more(
        &self,
        first: Expression,
        tokens: &'a [Token],
    ) -> Result<(Parts<Expression>, &'a [Token]), Fault<'a>>
        requires nests { Nests self.now.depth (F.pre self.now.expression) (F.post self.now.expression) }
        requires room { length tokens.now < self.now.depth }
        ensures reads { Gives result (with_front (first ∷ []) (spec.more (spec.expr self.now.depth) self.now.depth tokens.now)) }
        ensures no_longer { IfOk result (λ x. length x.1.now ≤ length tokens.now) }
    {
        let mut items = Parts::new(self.alloc);
        items.push(first)?;
        let mut rest = tokens;
        'each: while let Some((_, more)) = after_mark(rest, b",") {
            let (item, more) = self.expression(more)?;
            items.push(item)?;
            rest = more;
        }
        Ok((items, rest))
    }

    /// A call of a function or a name, from behind the name
    #[tactic(auto, using(vl_tree::proofs::Passing::hands_on), unfolding(vl_tree::specs::Expressions::named))]
    fn named(
        &self,
        place: Place,
        name: &Text,
        tokens: &'a [Token],
    ) -> Result<(Boxed<Primary>, &'a [Token]), Fault<'a>>
        requires nests { Nests self.now.depth (F.pre self.now.expression) (F.post self.now.expression) }
        requires room { length tokens.now < self.now.depth }
        ensures reads { Gives result (spec.named (spec.expr self.now.depth) self.now.depth place name.now tokens.now) }
        ensures no_longer { IfOk result (λ x. length x.1.now ≤ length tokens.now) }
    {
        let identifier = Identifier {
            place,
            name: copy_of(self.alloc, name)?,
        };
        let Some((_, rest)) = after_mark(tokens, b"(") else {
            let (selects, rest) = self.selects(tokens)?;
            let primary = Primary::Name(Name {
                place,
                identifier,
                selects,
            });
            return Ok((Boxed::new(self.alloc, primary)?, rest));
        };
        let (arguments, rest) = self.expressions(rest)?;
        let Some((_, rest)) = after_mark(rest, b")") else {
            return Err(Fault::At(rest));
        };
        let primary = Primary::Call(identifier, arguments);
        Ok((Boxed::new(self.alloc, primary)?, rest))
    }

    /// The selects behind a name
    fn selects(&self, tokens: &'a [Token]) -> Result<(Parts<Select>, &'a [Token]), Fault<'a>>
        requires nests { Nests self.now.depth (F.pre self.now.expression) (F.post self.now.expression) }
        requires room { length tokens.now < self.now.depth }
        ensures reads { Gives result (spec.selects (spec.expr self.now.depth) self.now.depth tokens.now) }
        ensures no_longer { IfOk result (λ x. length x.1.now ≤ length tokens.now) }
    {
        let mut selects = Parts::new(self.alloc);
        let mut rest = tokens;
        'each: while let Some((place, more)) = after_mark(rest, b"[") {
            let (select, more) = self.select(place, more)?;
            selects.push(select)?;
            rest = more;
        }
        Ok((selects, rest))
    }

    /// A select, from behind its `[`
    #[tactic(auto, using(vl_tree::proofs::Passing::hands_on), unfolding(vl_tree::specs::Expressions::select))]
    fn select(&self, place: Place, tokens: &'a [Token]) -> Result<(Select, &'a [Token]), Fault<'a>>
        requires nests { Nests self.now.depth (F.pre self.now.expression) (F.post self.now.expression) }
        requires room { length tokens.now + 1 < self.now.depth }
        ensures reads { Gives result (spec.select (spec.expr self.now.depth) self.now.depth place tokens.now) }
        ensures shorter { IfOk result (λ x. length x.1.now < length tokens.now) }
    {
        let (first, rest) = self.expression(tokens)?;
        let (second, rest) = self.bound(rest)?;
        let Some((_, rest)) = after_mark(rest, b"]") else {
            return Err(Fault::At(rest));
        };
        Ok((
            Select {
                place,
                first,
                second,
            },
            rest,
        ))
    }

    /// `[ (":" | "+:" | "-:") expr ]`
    #[tactic(auto, using(vl_tree::proofs::Passing::hands_on), unfolding(vl_tree::specs::Expressions::bound))]
    fn bound(&self, tokens: &'a [Token]) -> Result<(Option<Bound>, &'a [Token]), Fault<'a>>
        requires nests { Nests self.now.depth (F.pre self.now.expression) (F.post self.now.expression) }
        requires room { length tokens.now < self.now.depth }
        ensures reads { Gives result (spec.bound (spec.expr self.now.depth) self.now.depth tokens.now) }
        ensures no_longer { IfOk result (λ x. length x.1.now ≤ length tokens.now) }
    {
        let Some((mark, rest)) = after_select(tokens) else {
            return Ok((None, tokens));
        };
        let (bound, rest) = self.expression(rest)?;
        Ok((Some(Bound { mark, bound }), rest))
    }

    /// A system call, from behind its name
    #[tactic(auto, using(vl_tree::proofs::Passing::hands_on), unfolding(vl_tree::specs::Expressions::system))]
    fn system(
        &self,
        place: Place,
        name: &Text,
        tokens: &'a [Token],
    ) -> Result<(SystemCall, &'a [Token]), Fault<'a>>
        requires nests { Nests self.now.depth (F.pre self.now.expression) (F.post self.now.expression) }
        requires room { length tokens.now < self.now.depth }
        ensures reads { Gives result (spec.system (spec.expr self.now.depth) self.now.depth place name.now tokens.now) }
        ensures no_longer { IfOk result (λ x. length x.1.now ≤ length tokens.now) }
    {
        let name = copy_of(self.alloc, name)?;
        let Some((_, rest)) = after_mark(tokens, b"(") else {
            return Ok((
                SystemCall {
                    place,
                    name,
                    arguments: None,
                },
                tokens,
            ));
        };
        let (arguments, rest) = self.arguments(rest)?;
        Ok((
            SystemCall {
                place,
                name,
                arguments: Some(arguments),
            },
            rest,
        ))
    }

    /// `sarg { "," sarg } ")"`
    #[tactic(auto, using(vl_tree::proofs::Passing::hands_on), unfolding(vl_tree::specs::Expressions::arguments))]
    fn arguments(
        &self,
        tokens: &'a [Token],
    ) -> Result<(Parts<SystemArgument>, &'a [Token]), Fault<'a>>
        requires nests { Nests self.now.depth (F.pre self.now.expression) (F.post self.now.expression) }
        requires room { length tokens.now + 1 < self.now.depth }
        ensures reads { Gives result (spec.arguments (spec.expr self.now.depth) self.now.depth tokens.now) }
        ensures shorter { IfOk result (λ x. length x.1.now < length tokens.now) }
    {
        let (first, rest) = self.argument(tokens)?;
        let (arguments, rest) = self.more_arguments(first, rest)?;
        let Some((_, rest)) = after_mark(rest, b")") else {
            return Err(Fault::At(rest));
        };
        Ok((arguments, rest))
    }

    /// The argument, and those behind the commas that follow
    fn more_arguments(
        &self,
        first: SystemArgument,
        tokens: &'a [Token],
    ) -> Result<(Parts<SystemArgument>, &'a [Token]), Fault<'a>>
        requires nests { Nests self.now.depth (F.pre self.now.expression) (F.post self.now.expression) }
        requires room { length tokens.now + 1 < self.now.depth }
        ensures reads { Gives result (with_front (first ∷ []) (many (mark (44 ∷ [])) (λ _. spec.argument (spec.expr self.now.depth) self.now.depth) self.now.depth tokens.now)) }
        ensures no_longer { IfOk result (λ x. length x.1.now ≤ length tokens.now) }
    {
        let mut arguments = Parts::new(self.alloc);
        arguments.push(first)?;
        let mut rest = tokens;
        'each: while let Some((_, more)) = after_mark(rest, b",") {
            let (argument, more) = self.argument(more)?;
            arguments.push(argument)?;
            rest = more;
        }
        Ok((arguments, rest))
    }

    /// `sarg = [ expr ]`
    #[tactic(auto, using(vl_tree::proofs::Passing::hands_on), unfolding(vl_tree::specs::Expressions::argument))]
    fn argument(&self, tokens: &'a [Token]) -> Result<(SystemArgument, &'a [Token]), Fault<'a>>
        requires nests { Nests self.now.depth (F.pre self.now.expression) (F.post self.now.expression) }
        requires room { length tokens.now + 1 < self.now.depth }
        ensures reads { Gives result (spec.argument (spec.expr self.now.depth) self.now.depth tokens.now) }
        ensures no_longer { IfOk result (λ x. length x.1.now ≤ length tokens.now) }
    {
        if ends_argument(tokens) {
            return Ok((SystemArgument { argument: None }, tokens));
        }
        let (argument, rest) = self.expression(tokens)?;
        Ok((
            SystemArgument {
                argument: Some(argument),
            },
            rest,
        ))
    }
}

/// `{ unop }`
fn operators(alloc: Global, tokens: &[Token]) -> Result<(Parts<UnaryMark>, &[Token]), Fault<'_>>
    ensures reads { (n : ℕ) → length tokens.now < n → Gives result (spec.operators n tokens.now) }
    ensures no_longer { IfOk result (λ x. length x.1.now ≤ length tokens.now) }
{
    let mut operators = Parts::new(alloc);
    let mut rest = tokens;
    'each: while let Some((operator, more)) = after_unary(rest) {
        operators.push(operator)?;
        rest = more;
    }
    Ok((operators, rest))
}

/// A list of operators and operands, in a place of its own. It is made apart, to keep the frames small that nest.
fn binary_of(
    alloc: Global,
    place: Place,
    first: Unary,
    links: Parts<Link>,
) -> Result<Boxed<Binary>, AllocError>
    ensures { IfOk result (λ made. made ≡ tree.binary_of place first links) }
{
    Boxed::new(
        alloc,
        Binary {
            place,
            first,
            links,
        },
    )
}

/// An expression in parentheses, likewise.
fn parenthesized_of(
    alloc: Global,
    place: Place,
    inner: Expression,
) -> Result<Boxed<Primary>, AllocError>
    ensures { IfOk result (λ made. made ≡ x.Parenthesized place inner) }
{
    let inner = Boxed::new(alloc, inner)?;
    Boxed::new(alloc, Primary::Parenthesized(place, inner))
}
