//! Laws of the grammar: what its readers may count on. Each function does nothing; its contract is the law.

ghost use Rattle.std.specs.Prelude.{◌≡◌, ◌⊎◌, ℕ, List, [], Option, None, Some, codes};
ghost use Rattle.vl_base.specs.declared.place.Place.{Place};
ghost use Rattle.vl_tree.specs.MarksOfGrammar.{IsKeyword};
ghost use Rattle.vl_tree.specs.declared.tree.Expression.{Expression};
ghost use Rattle.vl_tree.specs.Bounds.{Bounds};
ghost use Rattle.vl_tree.specs.FaultsOfSource.{IsSource, IsPassing, IsSyntaxFault, limits, statement_limit, expression_limit};
ghost use Rattle.vl_tree.specs.GrammarOfSource.{ReadsSource};
ghost use Rattle.vl_tree.specs.Lists.{Next};
ghost use Rattle.vl_tree.specs.Statements.{ReadsStatement};
ghost use Rattle.vl_tree.specs.declared.source_tree.Source.{Source};
ghost use Rattle.vl_tree.specs.declared.source_tree.Statement.TheVariants as statement;
ghost use Rattle.vl_tree.specs.declared.source_tree.Statement.{Statement};
ghost use Rattle.vl_tree.specs.declared.token.Token.{Token};

/// Tokens that are a source within the limits are no other source.
pub fn a_source_has_one_tree()
    ensures { (ts : List Token) (s other : Source) → ReadsSource (limits 0) s ts [] → IsSource other ts → other ≡ s }
{}

/// An `else` belongs to the nearest `if` that has none (IEEE 1364-2005, clause 9.4).
pub fn an_else_belongs_to_the_nearest_if()
    ensures { (b : Bounds) (d : ℕ) (p : Place) (e : Expression) (s : Statement) (ts rest : List Token)
        → ReadsStatement b d (statement.If p e s None) ts rest → Next (IsKeyword (codes "else")) rest → ⊥ }
{}

/// Tokens are a source within the limits, or have a first fault, or a first token that passes a limit.
pub fn tokens_are_a_source_or_have_a_fault()
    ensures { (ts : List Token)
        → ((s : Source) × ReadsSource (limits 0) s ts [])
        ⊎ (((i : ℕ) × IsSyntaxFault ts i)
        ⊎ (((i : ℕ) × IsPassing statement_limit ts i)
        ⊎ ((i : ℕ) × IsPassing expression_limit ts i))) }
{}

/// At most one of these comes, and once.
pub fn a_fault_is_the_only_one()
    ensures syntax { (ts : List Token) (i j : ℕ) → IsSyntaxFault ts i → IsSyntaxFault ts j → i ≡ j }
    ensures statements { (ts : List Token) (i j : ℕ) → IsPassing statement_limit ts i → IsPassing statement_limit ts j → i ≡ j }
    ensures tokens { (ts : List Token) (i j : ℕ) → IsPassing expression_limit ts i → IsPassing expression_limit ts j → i ≡ j }
    ensures one_limit { (ts : List Token) (i j : ℕ) → IsPassing statement_limit ts i → IsPassing expression_limit ts j → ⊥ }
    ensures syntax_or_statements { (ts : List Token) (i j : ℕ) → IsSyntaxFault ts i → IsPassing statement_limit ts j → ⊥ }
    ensures syntax_or_tokens { (ts : List Token) (i j : ℕ) → IsSyntaxFault ts i → IsPassing expression_limit ts j → ⊥ }
    ensures no_syntax_in_a_source { (ts : List Token) (s : Source) (i : ℕ) → ReadsSource (limits 0) s ts [] → IsSyntaxFault ts i → ⊥ }
    ensures no_limit_in_a_source { (ts : List Token) (s : Source) (i : ℕ) → ReadsSource (limits 0) s ts []
        → IsPassing statement_limit ts i ⊎ IsPassing expression_limit ts i → ⊥ }
{}
