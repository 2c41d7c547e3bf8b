//! Statements in which no other stands, and the lists inside statements.

ghost use Rattle.std.specs.Prelude.{◌≡◌, ◌+◌, ◌<◌, ◌≤◌, [], ◌∷◌, length, option_map, IfOk, IfSome, codes};
ghost use Rattle.vl_tree.specs.Reading.{next_by, mark};
ghost use Rattle.vl_tree.specs.Parsers.{Gives, with_front, many, list};
ghost use Rattle.vl_tree.specs.Parsing as spec;
ghost use Rattle.vl_pstmt.specs.Parts as part;

use crate::reader::Reader;
use vl_tree::parts::Parts;
use vl_tree::source_fault::{Cause, Fault};
use vl_tree::source_tree::{AssignMark, Statement};
use vl_tree::steps::{after_mark, copy_of, first_place};
use vl_tree::token::{Token, TokenKind};
use vl_tree::tree::{Expression, Identifier, SystemArgument, SystemCall};
use vl_tree::{Place, Text};

impl Reader {
    /// `lvalue ("=" | "<=") expr ";"`
    #[tactic(auto, using(crate::proofs::Passing::hands_on), unfolding(vl_tree::specs::Parsing::assign))]
    pub(crate) fn assign<'a>(
        &self,
        tokens: &'a [Token],
    ) -> Result<(Statement, &'a [Token]), Fault<'a>>
        requires { length tokens.now + 1 < self.now.depth }
        ensures reads { let n = self.now.depth in Gives result (spec.assign (spec.whole n) (spec.target n) n tokens.now) }
        ensures shorter { IfOk result (λ x. length x.1.now < length tokens.now) }
    {
        let place = first_place(tokens);
        let (target, rest) = self.target(tokens)?;
        let ((mark, value), rest) = self.assigned(rest)?;
        Ok((Statement::Assign(place, target, mark, value), rest))
    }

    /// `("=" | "<=") expr ";"`
    #[tactic(auto, using(crate::proofs::Passing::hands_on))]
    fn assigned<'a>(
        &self,
        tokens: &'a [Token],
    ) -> Result<((AssignMark, Expression), &'a [Token]), Fault<'a>>
        requires { length tokens.now + 1 < self.now.depth }
        ensures reads { Gives result (part.assigned self.now.depth tokens.now) }
        ensures shorter { IfOk result (λ x. length x.1.now < length tokens.now) }
    {
        let Some((mark, rest)) = self.after_assign(tokens) else {
            return Err(Fault::At(Cause::Syntax, tokens));
        };
        let (value, rest) = self.expression(rest)?;
        let (_, behind) = self.mark(rest, b";")?;
        Ok(((mark, value), behind))
    }

    /// `"=" | "<="`, if one comes first, and the tokens after it
    #[tactic(auto, unfolding(vl_tree::specs::Reading::next_by))]
    fn after_assign<'a>(&self, tokens: &'a [Token]) -> Option<(AssignMark, &'a [Token])>
        ensures value { let n = self.now.depth in option_map (λ x. (x.0, x.1.now)) result ≡ next_by (spec.assign_mark (spec.whole n) (spec.target n) n) tokens.now }
        ensures shorter { IfSome result (λ x. length x.1.now < length tokens.now) }
    {
        let (first, rest) = tokens.split_first()?;
        let mark = self.assign_mark(first)?;
        Some((mark, rest))
    }

    /// The mark of an assignment that a token is
    #[tactic(auto, unfolding(vl_tree::specs::Parsing::assign_mark, vl_tree::specs::Reading::mark))]
    fn assign_mark(&self, token: &Token) -> Option<AssignMark>
        ensures { let n = self.now.depth in result ≡ spec.assign_mark (spec.whole n) (spec.target n) n token.now }
    {
        let TokenKind::Mark(text) = &token.kind else {
            return None;
        };
        if text.as_slice() == b"=".as_slice() {
            Some(AssignMark::Blocking)
        } else if text.as_slice() == b"<=".as_slice() {
            Some(AssignMark::Nonblocking)
        } else {
            None
        }
    }

    /// A system task, from behind its name
    #[tactic(auto, using(crate::proofs::Passing::hands_on), unfolding(vl_tree::specs::Parsing::task))]
    pub(crate) fn task<'a>(
        &self,
        place: Place,
        name: &Text,
        tokens: &'a [Token],
    ) -> Result<(Statement, &'a [Token]), Fault<'a>>
        requires { length tokens.now + 1 < self.now.depth }
        ensures reads { let n = self.now.depth in Gives result (spec.task (spec.whole n) (spec.target n) n place name.now tokens.now) }
        ensures shorter { IfOk result (λ x. length x.1.now < length tokens.now) }
    {
        let name = copy_of(self.alloc, name)?;
        let (arguments, rest) = self.arguments(tokens)?;
        let (_, rest) = self.mark(rest, b";")?;
        let call = SystemCall {
            place,
            name,
            arguments,
        };
        Ok((Statement::System(place, call), rest))
    }

    /// `[ "(" sarg { "," sarg } ")" ]`
    #[tactic(auto, using(crate::proofs::Passing::hands_on))]
    fn arguments<'a>(
        &self,
        tokens: &'a [Token],
    ) -> Result<(Option<Parts<SystemArgument>>, &'a [Token]), Fault<'a>>
        requires { length tokens.now + 1 < self.now.depth }
        ensures reads { Gives result (part.arguments self.now.depth tokens.now) }
        ensures no_longer { IfOk result (λ x. length x.1.now ≤ length tokens.now) }
    {
        let Some((_, rest)) = after_mark(tokens, b"(") else {
            return Ok((None, tokens));
        };
        let (arguments, rest) = self.system_arguments(rest)?;
        let (_, rest) = self.mark(rest, b")")?;
        Ok((Some(arguments), rest))
    }

    /// `sarg { "," sarg }`
    #[tactic(auto, using(crate::proofs::Passing::hands_on), unfolding(vl_tree::specs::Parsers::list))]
    fn system_arguments<'a>(
        &self,
        tokens: &'a [Token],
    ) -> Result<(Parts<SystemArgument>, &'a [Token]), Fault<'a>>
        requires { length tokens.now + 1 < self.now.depth }
        ensures reads { Gives result (list (part.sarg self.now.depth) self.now.depth tokens.now) }
        ensures no_longer { IfOk result (λ x. length x.1.now ≤ length tokens.now) }
    {
        let (first, rest) = self.system_argument(tokens)?;
        self.more_arguments(first, rest)
    }

    /// The argument, and those behind the commas that follow
    fn more_arguments<'a>(
        &self,
        first: SystemArgument,
        tokens: &'a [Token],
    ) -> Result<(Parts<SystemArgument>, &'a [Token]), Fault<'a>>
        requires { length tokens.now + 1 < self.now.depth }
        ensures reads { Gives result (with_front (first ∷ []) (many (mark (codes ",")) (λ _. part.sarg self.now.depth) self.now.depth tokens.now)) }
        ensures no_longer { IfOk result (λ x. length x.1.now ≤ length tokens.now) }
    {
        let mut arguments = Parts::new(self.alloc);
        arguments.push(first)?;
        let mut rest = tokens;
        'each: while let Some((_, more)) = after_mark(rest, b",") {
            let (argument, more) = self.system_argument(more)?;
            arguments.push(argument)?;
            rest = more;
        }
        Ok((arguments, rest))
    }

    /// `sarg = [ expr ]`
    #[tactic(auto, using(crate::proofs::Passing::hands_on), unfolding(vl_tree::specs::Parsing::system_argument))]
    fn system_argument<'a>(
        &self,
        tokens: &'a [Token],
    ) -> Result<(SystemArgument, &'a [Token]), Fault<'a>>
        requires { length tokens.now + 1 < self.now.depth }
        ensures reads { Gives result (part.sarg self.now.depth tokens.now) }
        ensures no_longer { IfOk result (λ x. length x.1.now ≤ length tokens.now) }
    {
        let (argument, rest) = self.argument(tokens)?;
        Ok((SystemArgument { argument }, rest))
    }

    /// `[ ":" id ]`
    #[tactic(auto, using(crate::proofs::Passing::hands_on), unfolding(vl_tree::specs::Parsing::label))]
    pub(crate) fn label<'a>(
        &self,
        tokens: &'a [Token],
    ) -> Result<(Option<Identifier>, &'a [Token]), Fault<'a>>
        ensures reads { let n = self.now.depth in Gives result (spec.label (spec.whole n) (spec.target n) n tokens.now) }
        ensures no_longer { IfOk result (λ x. length x.1.now ≤ length tokens.now) }
    {
        let Some((_, rest)) = after_mark(tokens, b":") else {
            return Ok((None, tokens));
        };
        let (name, rest) = self.identifier(rest)?;
        Ok((Some(name), rest))
    }

    /// `expr { "," expr }`
    #[tactic(auto, using(crate::proofs::Passing::hands_on), unfolding(vl_tree::specs::Parsers::list))]
    pub(crate) fn expressions<'a>(
        &self,
        tokens: &'a [Token],
    ) -> Result<(Parts<Expression>, &'a [Token]), Fault<'a>>
        requires { length tokens.now + 1 < self.now.depth }
        ensures reads { Gives result (list (spec.whole self.now.depth) self.now.depth tokens.now) }
        ensures shorter { IfOk result (λ x. length x.1.now < length tokens.now) }
    {
        let (first, rest) = self.expression(tokens)?;
        self.more_expressions(first, rest)
    }

    /// The expression, and those behind the commas that follow
    fn more_expressions<'a>(
        &self,
        first: Expression,
        tokens: &'a [Token],
    ) -> Result<(Parts<Expression>, &'a [Token]), Fault<'a>>
        requires { length tokens.now < self.now.depth }
        ensures reads { Gives result (with_front (first ∷ []) (many (mark (codes ",")) (λ _. spec.whole self.now.depth) self.now.depth tokens.now)) }
        ensures no_longer { IfOk result (λ x. length x.1.now ≤ length tokens.now) }
    {
        let mut expressions = Parts::new(self.alloc);
        expressions.push(first)?;
        let mut rest = tokens;
        'each: while let Some((_, more)) = after_mark(rest, b",") {
            let (expression, more) = self.expression(more)?;
            expressions.push(expression)?;
            rest = more;
        }
        Ok((expressions, rest))
    }
}
