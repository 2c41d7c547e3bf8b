//! Laws of tokens: what follows from their definition alone.

ghost use Rattle.std.specs.Prelude.{◌≡◌, ◌++◌, List, codes, ℕ};
ghost use Rattle.vl_tree.specs.vl_base.specs.declared.place.Place.{Place};
ghost use Rattle.vl_tree.specs.declared.token.Token.{Token};
ghost use Rattle.vl_tree.specs.Tokens.{Tokens, Passes, start};
ghost use Rattle.vl_tree.specs.Faults.{IsRead, IsFirstFault};
ghost use Rattle.vl_lex.specs.Laws.{AreSlices, Rise, IsCutBehind, CutText, CutBehindToken, EachCut, star_in_parentheses};

/// A text has one list of tokens.
pub fn one_list()
    ensures { (text : List ℕ) (tokens others : List Token)
        → Tokens text tokens → Tokens text others → tokens ≡ others }
{}

/// Each token is spelled by the bytes of the text at its place, and by no longer run of them.
pub fn slices()
    ensures { (text : List ℕ) (tokens : List Token) → Tokens text tokens → AreSlices text tokens }
{}

/// The places of tokens rise.
pub fn rising_places()
    ensures { (text : List ℕ) (tokens : List Token) → Tokens text tokens → Rise tokens }
{}

/// A text that is cut behind a token or a gap is read as the tokens so far, or `(*` is open in it.
pub fn cut_text()
    ensures read_or_open { CutText }
    // also of texts past a limit
    ensures no_others { (cut rest : List ℕ) (end : Place) (tokens others : List Token)
        → Passes start (cut ++ rest) tokens end rest → Tokens cut others → others ≡ tokens }
{}

/// A text that is read, cut right behind its token number n, is read as the n + 1 tokens so far, or
/// `(*` is open in it.
pub fn cut_behind_token()
    ensures each { EachCut }
    ensures read_or_open { CutBehindToken }
{}

/// `(*)` is three tokens; cut behind the second, its `(*` is open.
pub fn cut_star()
    ensures whole { IsRead (codes "(*)") star_in_parentheses }
    ensures cut { IsCutBehind (codes "(*)") star_in_parentheses 1 (codes "(*") }
    ensures fault { IsFirstFault (codes "(*") start 2 }
{}
