//! Statements (IEEE 1364-2005, clause 9 and annex A.6).

ghost use Rattle.std.specs.Prelude.{◌≡◌, ℕ, ◌+◌, ◌<◌, ◌≤◌, [], ◌∷◌, Bool, true, length, IfOk, codes, if◌then◌else◌};
ghost use Rattle.vl_tree.specs.Reading.{is_next, mark, keyword};
ghost use Rattle.vl_tree.specs.Parsers.{Gives, if_next, must, with_front, before, is_word};
ghost use Rattle.vl_tree.specs.Parsing as spec;
ghost use Rattle.vl_pstmt.specs.Nests.{Nests, nested};
ghost use Rattle.vl_pstmt.specs.Parts as part;

use crate::reader::Reader;
use crate::steps::{after_keyword, comes};
use vl_tree::parts::{Boxed, Parts};
use vl_tree::source_fault::{Cause, Fault};
use vl_tree::source_tree::{CaseItem, CaseKeyword, Statement};
use vl_tree::steps::{after_mark, first_place};
use vl_tree::token::{Token, TokenKind};
use vl_tree::{Place, Text};

/// The most statements around a token: limit 3.
const MOST_STATEMENTS: u8 = 128;

impl Reader {
    /// `stmt`, in no other
    pub fn statement<'a>(&self, tokens: &'a [Token]) -> Result<(Statement, &'a [Token]), Fault<'a>>
        requires { length tokens.now + 1 < self.now.depth }
        ensures reads { Gives result (spec.outer self.now.depth tokens.now) }
        ensures shorter { IfOk result (λ x. length x.1.now < length tokens.now) }
    {
        statement_at(*self, tokens, MOST_STATEMENTS)
    }
}

/// A statement at the front of the tokens. So many may nest here, itself included.
#[tactic(auto, using(crate::proofs::Opening::statement_opens, crate::proofs::Opening::statement_ends))]
fn statement_at<'a>(
    reader: Reader,
    tokens: &'a [Token],
    room: u8,
) -> Result<(Statement, &'a [Token]), Fault<'a>>
    requires { length tokens.now + 1 < reader.depth }
    ensures reads { Gives result (nested reader.depth room tokens.now) }
    ensures shorter { IfOk result (λ x. length x.1.now < length tokens.now) }
{
    if room == 0 {
        return Err(Fault::At(deep_cause(tokens), tokens));
    }
    Statements {
        reader,
        room: room - 1,
        inner: statement_at,
    }
    .level(tokens)
}

/// Why nothing is read where no further statement may nest.
fn deep_cause(tokens: &[Token]) -> Cause
    ensures { result ≡ (if is_next spec.begins_statement tokens.now then Cause.Statements else Cause.Syntax) }
{
    match tokens.split_first() {
        Some((first, _)) => {
            if begins_statement(first) {
                Cause::Statements
            } else {
                Cause::Syntax
            }
        }
        None => Cause::Syntax,
    }
}

/// Whether a statement begins with such a token.
#[tactic(auto, unfolding(vl_tree::specs::Parsing::begins_statement))]
fn begins_statement(token: &Token) -> bool
    ensures { result ≡ spec.begins_statement token.now }
{
    match &token.kind {
        TokenKind::Name(_) | TokenKind::System(_) => true,
        TokenKind::Keyword(word) => begins_word(word.as_slice()),
        TokenKind::Mark(mark) => mark.as_slice() == b";".as_slice()
            || mark.as_slice() == b"{".as_slice(),
        _ => false,
    }
}

/// Whether a statement begins with such a reserved word.
fn begins_word(word: &[u8]) -> bool
    ensures { result ≡ spec.begins_word word.now }
{
    word == b"begin".as_slice()
        || word == b"if".as_slice()
        || word == b"case".as_slice()
        || word == b"casez".as_slice()
        || word == b"for".as_slice()
        || word == b"repeat".as_slice()
}

/// The statements inside a statement.
#[derive(Clone, Copy)]
struct Statements<F> {
    reader: Reader,
    /// How many statements may nest inside this one.
    room: u8,
    /// The parser of statements.
    inner: F,
}

impl<'a, F: Fn(Reader, &'a [Token], u8) -> Result<(Statement, &'a [Token]), Fault<'a>>> Statements<
    F,
> {
    /// A statement inside this one
    fn statement(&self, tokens: &'a [Token]) -> Result<(Statement, &'a [Token]), Fault<'a>>
        requires nests { Nests self.now.room (F.pre self.now.inner) (F.post self.now.inner) }
        requires size { length tokens.now + 1 < self.now.reader.depth }
        ensures reads { Gives result (nested self.now.reader.depth self.now.room tokens.now) }
        ensures shorter { IfOk result (λ x. length x.1.now < length tokens.now) }
    {
        (self.inner)(self.reader, tokens, self.room)
    }

    /// A statement inside this one, in a place of its own
    #[tactic(auto, using(crate::proofs::Passing::passed))]
    fn boxed(&self, tokens: &'a [Token]) -> Result<(Boxed<Statement>, &'a [Token]), Fault<'a>>
        requires nests { Nests self.now.room (F.pre self.now.inner) (F.post self.now.inner) }
        requires size { length tokens.now + 1 < self.now.reader.depth }
        ensures reads { Gives result (nested self.now.reader.depth self.now.room tokens.now) }
        ensures shorter { IfOk result (λ x. length x.1.now < length tokens.now) }
    {
        let (statement, rest) = self.statement(tokens)?;
        Ok((Boxed::new(self.reader.alloc, statement)?, rest))
    }

    /// `stmt`, by its first token
    #[tactic(auto, unfolding(vl_tree::specs::Parsing::statement_level, vl_tree::specs::Parsing::statement_by, vl_tree::specs::Reading::next_by))]
    fn level(&self, tokens: &'a [Token]) -> Result<(Statement, &'a [Token]), Fault<'a>>
        requires nests { Nests self.now.room (F.pre self.now.inner) (F.post self.now.inner) }
        requires size { length tokens.now + 1 < self.now.reader.depth }
        ensures reads { let n = self.now.reader.depth in Gives result (spec.statement_level (spec.whole n) (spec.target n) n (nested n self.now.room) tokens.now) }
        ensures shorter { IfOk result (λ x. length x.1.now < length tokens.now) }
    {
        let Some((first, rest)) = tokens.split_first() else {
            return self.reader.assign(tokens);
        };
        match &first.kind {
            TokenKind::System(name) => self.reader.task(first.place, name, rest),
            TokenKind::Keyword(word) => self.by_keyword(first.place, word, tokens, rest),
            TokenKind::Mark(mark) => {
                if mark.as_slice() == b";".as_slice() {
                    Ok((Statement::Null(first.place), rest))
                } else {
                    self.reader.assign(tokens)
                }
            }
            _ => self.reader.assign(tokens),
        }
    }

    /// A statement whose first token is a reserved word
    fn by_keyword(
        &self,
        place: Place,
        word: &Text,
        tokens: &'a [Token],
        rest: &'a [Token],
    ) -> Result<(Statement, &'a [Token]), Fault<'a>>
        requires nests { Nests self.now.room (F.pre self.now.inner) (F.post self.now.inner) }
        requires size { length tokens.now + 1 < self.now.reader.depth }
        requires behind { length rest.now < length tokens.now }
        ensures reads { Gives result (part.by_word self.now.reader.depth (nested self.now.reader.depth self.now.room) place word.now tokens.now rest.now) }
        ensures shorter { IfOk result (λ x. length x.1.now < length tokens.now) }
    {
        let word = word.as_slice();
        if word == b"begin".as_slice() {
            self.block(place, rest)
        } else if word == b"if".as_slice() {
            self.when(place, rest)
        } else if word == b"case".as_slice() {
            self.cases(CaseKeyword::Case, place, rest)
        } else if word == b"casez".as_slice() {
            self.cases(CaseKeyword::Casez, place, rest)
        } else if word == b"for".as_slice() {
            self.for_loop(place, rest)
        } else if word == b"repeat".as_slice() {
            self.repeat(place, rest)
        } else {
            self.reader.assign(tokens)
        }
    }

    /// `[ ":" id ] { stmt } "end"`
    #[tactic(auto, using(crate::proofs::Passing::hands_on), unfolding(vl_tree::specs::Parsing::block))]
    fn block(
        &self,
        place: Place,
        tokens: &'a [Token],
    ) -> Result<(Statement, &'a [Token]), Fault<'a>>
        requires nests { Nests self.now.room (F.pre self.now.inner) (F.post self.now.inner) }
        requires size { length tokens.now + 1 < self.now.reader.depth }
        ensures reads { let n = self.now.reader.depth in Gives result (spec.block (spec.whole n) (spec.target n) n (nested n self.now.room) place tokens.now) }
        ensures shorter { IfOk result (λ x. length x.1.now < length tokens.now) }
    {
        let (_, rest) = self.reader.label(tokens)?;
        let (statements, rest) = self.statements(rest)?;
        let (_, rest) = self.reader.keyword(rest, b"end")?;
        Ok((Statement::Block(place, statements), rest))
    }

    /// `{ stmt }` before `end`
    fn statements(&self, tokens: &'a [Token]) -> Result<(Parts<Statement>, &'a [Token]), Fault<'a>>
        requires nests { Nests self.now.room (F.pre self.now.inner) (F.post self.now.inner) }
        requires size { length tokens.now + 1 < self.now.reader.depth }
        ensures reads { let n = self.now.reader.depth in Gives result (before (is_word (codes "end")) (nested n self.now.room) n tokens.now) }
        ensures no_longer { IfOk result (λ x. length x.1.now ≤ length tokens.now) }
    {
        let mut statements = Parts::new(self.reader.alloc);
        let mut rest = tokens;
        'each: while !comes(rest, b"end") {
            let (statement, more) = self.statement(rest)?;
            statements.push(statement)?;
            rest = more;
        }
        Ok((statements, rest))
    }

    /// `"(" expr ")" stmt [ "else" stmt ]`
    #[tactic(auto, using(crate::proofs::Passing::hands_on), unfolding(vl_tree::specs::Parsing::when))]
    fn when(&self, place: Place, tokens: &'a [Token]) -> Result<(Statement, &'a [Token]), Fault<'a>>
        requires nests { Nests self.now.room (F.pre self.now.inner) (F.post self.now.inner) }
        requires size { length tokens.now + 1 < self.now.reader.depth }
        ensures reads { let n = self.now.reader.depth in Gives result (spec.when (spec.whole n) (spec.target n) n (nested n self.now.room) place tokens.now) }
        ensures shorter { IfOk result (λ x. length x.1.now < length tokens.now) }
    {
        let (condition, rest) = self.reader.parenthesized(tokens)?;
        let (then, rest) = self.boxed(rest)?;
        let Some((_, more)) = after_keyword(rest, b"else") else {
            return Ok((Statement::If(place, condition, then, None), rest));
        };
        let (otherwise, rest) = self.boxed(more)?;
        Ok((Statement::If(place, condition, then, Some(otherwise)), rest))
    }

    /// `"(" expr ")" citem { citem } "endcase"`
    #[tactic(auto, using(crate::proofs::Passing::hands_on), unfolding(vl_tree::specs::Parsing::cases))]
    fn cases(
        &self,
        keyword: CaseKeyword,
        place: Place,
        tokens: &'a [Token],
    ) -> Result<(Statement, &'a [Token]), Fault<'a>>
        requires nests { Nests self.now.room (F.pre self.now.inner) (F.post self.now.inner) }
        requires size { length tokens.now + 1 < self.now.reader.depth }
        ensures reads { let n = self.now.reader.depth in Gives result (spec.cases (spec.whole n) (spec.target n) n (nested n self.now.room) keyword place tokens.now) }
        ensures shorter { IfOk result (λ x. length x.1.now < length tokens.now) }
    {
        let (selector, rest) = self.reader.parenthesized(tokens)?;
        let ((first, may), rest) = self.case_item(true, rest)?;
        let (items, rest) = self.case_items(first, may, rest)?;
        let (_, rest) = self.reader.keyword(rest, b"endcase")?;
        Ok((Statement::Case(place, keyword, selector, items), rest))
    }

    /// The item, and those that follow before `endcase`, of which one may be a default or none
    fn case_items(
        &self,
        first: CaseItem,
        may: bool,
        tokens: &'a [Token],
    ) -> Result<(Parts<CaseItem>, &'a [Token]), Fault<'a>>
        requires nests { Nests self.now.room (F.pre self.now.inner) (F.post self.now.inner) }
        requires size { length tokens.now + 1 < self.now.reader.depth }
        ensures reads { let n = self.now.reader.depth in Gives result (with_front (first ∷ []) (spec.case_items (spec.whole n) (spec.target n) n (nested n self.now.room) n may tokens.now)) }
        ensures no_longer { IfOk result (λ x. length x.1.now ≤ length tokens.now) }
    {
        let mut items = Parts::new(self.reader.alloc);
        items.push(first)?;
        let mut rest = tokens;
        let mut default_may_come = may;
        'each: while !comes(rest, b"endcase") {
            let ((item, still), more) = self.case_item(default_may_come, rest)?;
            items.push(item)?;
            rest = more;
            default_may_come = still;
        }
        Ok((items, rest))
    }

    /// `citem`, and whether a later one may be a default, if this one may
    #[tactic(auto, using(crate::proofs::Passing::hands_on), unfolding(vl_tree::specs::Parsing::case_item))]
    fn case_item(
        &self,
        may: bool,
        tokens: &'a [Token],
    ) -> Result<((CaseItem, bool), &'a [Token]), Fault<'a>>
        requires nests { Nests self.now.room (F.pre self.now.inner) (F.post self.now.inner) }
        requires size { length tokens.now + 1 < self.now.reader.depth }
        ensures reads { let n = self.now.reader.depth in Gives result (spec.case_item (spec.whole n) (spec.target n) n (nested n self.now.room) may tokens.now) }
        ensures shorter { IfOk result (λ x. length x.1.now < length tokens.now) }
    {
        if !may {
            return self.labelled(false, tokens);
        }
        let Some((place, rest)) = after_keyword(tokens, b"default") else {
            return self.labelled(true, tokens);
        };
        let (item, rest) = self.default_item(place, rest)?;
        Ok(((item, false), rest))
    }

    /// An item with labels, behind which a default may come or not
    #[tactic(auto, using(crate::proofs::Passing::hands_on))]
    fn labelled(
        &self,
        may: bool,
        tokens: &'a [Token],
    ) -> Result<((CaseItem, bool), &'a [Token]), Fault<'a>>
        requires nests { Nests self.now.room (F.pre self.now.inner) (F.post self.now.inner) }
        requires size { length tokens.now + 1 < self.now.reader.depth }
        ensures reads { let n = self.now.reader.depth in Gives result (part.labelled n (nested n self.now.room) may tokens.now) }
        ensures shorter { IfOk result (λ x. length x.1.now < length tokens.now) }
    {
        let (item, rest) = self.labels(tokens)?;
        Ok(((item, may), rest))
    }

    /// `[ ":" ] stmt` behind `default`
    #[tactic(auto, using(crate::proofs::Passing::hands_on), unfolding(vl_tree::specs::Parsing::default_item))]
    fn default_item(
        &self,
        place: Place,
        tokens: &'a [Token],
    ) -> Result<(CaseItem, &'a [Token]), Fault<'a>>
        requires nests { Nests self.now.room (F.pre self.now.inner) (F.post self.now.inner) }
        requires size { length tokens.now + 1 < self.now.reader.depth }
        ensures reads { let n = self.now.reader.depth in Gives result (spec.default_item (spec.whole n) (spec.target n) n (nested n self.now.room) place tokens.now) }
        ensures shorter { IfOk result (λ x. length x.1.now < length tokens.now) }
    {
        let (statement, rest) = self.past_colon(tokens)?;
        Ok((CaseItem::Default(place, statement), rest))
    }

    /// `[ ":" ] stmt`
    fn past_colon(&self, tokens: &'a [Token]) -> Result<(Boxed<Statement>, &'a [Token]), Fault<'a>>
        requires nests { Nests self.now.room (F.pre self.now.inner) (F.post self.now.inner) }
        requires size { length tokens.now + 1 < self.now.reader.depth }
        ensures reads { let inner = nested self.now.reader.depth self.now.room in Gives result (if_next (mark (codes ":")) (λ _. inner) inner tokens.now) }
        ensures shorter { IfOk result (λ x. length x.1.now < length tokens.now) }
    {
        match after_mark(tokens, b":") {
            Some((_, rest)) => self.boxed(rest),
            None => self.boxed(tokens),
        }
    }

    /// `expr { "," expr } ":" stmt`
    #[tactic(auto, using(crate::proofs::Passing::hands_on), unfolding(vl_tree::specs::Parsing::labels))]
    fn labels(&self, tokens: &'a [Token]) -> Result<(CaseItem, &'a [Token]), Fault<'a>>
        requires nests { Nests self.now.room (F.pre self.now.inner) (F.post self.now.inner) }
        requires size { length tokens.now + 1 < self.now.reader.depth }
        ensures reads { let n = self.now.reader.depth in Gives result (spec.labels (spec.whole n) (spec.target n) n (nested n self.now.room) tokens.now) }
        ensures shorter { IfOk result (λ x. length x.1.now < length tokens.now) }
    {
        let place = first_place(tokens);
        let (labels, rest) = self.reader.expressions(tokens)?;
        let (_, rest) = self.reader.mark(rest, b":")?;
        let (statement, rest) = self.boxed(rest)?;
        Ok((CaseItem::Labels(place, labels, statement), rest))
    }

    /// `"(" lset ";" expr ";" lset ")" stmt`
    #[tactic(auto, using(crate::proofs::Passing::hands_on, crate::proofs::Opening::loop_opens))]
    fn for_loop(
        &self,
        place: Place,
        tokens: &'a [Token],
    ) -> Result<(Statement, &'a [Token]), Fault<'a>>
        requires nests { Nests self.now.room (F.pre self.now.inner) (F.post self.now.inner) }
        requires size { length tokens.now + 1 < self.now.reader.depth }
        ensures reads { let n = self.now.reader.depth in Gives result (spec.loop (spec.whole n) (spec.target n) n (nested n self.now.room) place tokens.now) }
        ensures shorter { IfOk result (λ x. length x.1.now < length tokens.now) }
    {
        let (_, rest) = self.reader.mark(tokens, b"(")?;
        let (start, rest) = self.reader.assignment(rest)?;
        let start = Boxed::new(self.reader.alloc, start)?;
        let (_, rest) = self.reader.mark(rest, b";")?;
        let (condition, rest) = self.reader.expression(rest)?;
        let (_, rest) = self.reader.mark(rest, b";")?;
        let (step, rest) = self.reader.assignment(rest)?;
        let step = Boxed::new(self.reader.alloc, step)?;
        let (_, rest) = self.reader.mark(rest, b")")?;
        let (statement, rest) = self.boxed(rest)?;
        let (start, step) = (start.into_inner(), step.into_inner());
        Ok((
            Statement::For(place, start, condition, step, statement),
            rest,
        ))
    }

    /// `"(" expr ")" stmt`
    #[tactic(auto, using(crate::proofs::Passing::hands_on), unfolding(vl_tree::specs::Parsing::repeat))]
    fn repeat(
        &self,
        place: Place,
        tokens: &'a [Token],
    ) -> Result<(Statement, &'a [Token]), Fault<'a>>
        requires nests { Nests self.now.room (F.pre self.now.inner) (F.post self.now.inner) }
        requires size { length tokens.now + 1 < self.now.reader.depth }
        ensures reads { let n = self.now.reader.depth in Gives result (spec.repeat (spec.whole n) (spec.target n) n (nested n self.now.room) place tokens.now) }
        ensures shorter { IfOk result (λ x. length x.1.now < length tokens.now) }
    {
        let (count, rest) = self.reader.parenthesized(tokens)?;
        let (statement, rest) = self.boxed(rest)?;
        Ok((Statement::Repeat(place, count, statement), rest))
    }
}
