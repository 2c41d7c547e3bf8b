//! Expressions in a list of tokens.

ghost use Rattle.std.specs.Prelude.{◌≡◌, ℕ, ◌+◌, ◌≤◌, ◌⊎◌, length, IfOk};
ghost use Rattle.std.specs.List.{slice_range};
ghost use Rattle.vl_tree.specs.Begins.{IsExpression, IsReach, place_at as place_at_lem};
ghost use Rattle.vl_pexpr.specs.Faults.{IsFirstFault, PassesLimit};

use crate::grammar::expression_at;
use std::alloc::Global;
use vl_tree::Place;
use vl_tree::fault::Fault;
use vl_tree::token::Token;
use vl_tree::tree::Expression;

/// The most tokens of an expression that stands in no other: limit 4.
pub const MOST_TOKENS: usize = 1000;

/// Why tokens aren't read.
#[derive(Clone, Copy, Debug, PartialEq, Eq)]
pub enum ParseFault {
    /// The place of the first token with which those so far begin nothing that the grammar reads, or of the end.
    At(Place),
    /// The place of the token that passes a limit, and the limit's number.
    Limit(Place, u8),
    /// Memory ran out.
    Memory,
}

/// The place of the token at `at`, or of the end.
fn place_at(tokens: &[Token], at: usize, end: Place) -> Place
    ensures { result ≡ place_at_lem tokens.now at end }
{
    match tokens.get(at) {
        Some(token) => token.place,
        None => end,
    }
}

/// The expression that begins at the token `at`, and the index behind it.
///
/// It goes as far as the tokens begin an expression. The place of the end is `end`.
pub fn expression(
    alloc: Global,
    tokens: &[Token],
    at: usize,
    end: Place,
) -> Result<(Expression, usize), ParseFault>
    requires { at ≤ length tokens.now }

    // What is read is an expression with this tree, which is the only one, and it reaches no further.
    ensures read { IfOk result (λ x. IsExpression x.0 (slice_range tokens.now at x.1)) }
    ensures only { IfOk result (λ x. (e : Expression) → IsExpression e (slice_range tokens.now at x.1) → e ≡ x.0) }
    ensures reach { IfOk result (λ x. IsReach tokens.now at x.1 × (x.1 ≤ at + MOST_TOKENS)) }

    // A fault stands where the tokens reach no further, and are no expression.
    ensures fault { (p : Place) → result ≡ Err (ParseFault.At p) → IsFirstFault tokens.now at end p }
    ensures limit { (p : Place) (n : ℕ) → result ≡ Err (ParseFault.Limit p n)
        → PassesLimit tokens.now at × (p ≡ place_at_lem tokens.now (at + MOST_TOKENS) end) × (n ≡ 4) }

    // Each of these comes where it holds, unless memory runs out.
    ensures accepts { (e : Expression) (i : ℕ) → IsReach tokens.now at i → i ≤ at + MOST_TOKENS
        → IsExpression e (slice_range tokens.now at i)
        → (result ≡ Ok (e, i)) ⊎ (result ≡ Err ParseFault.Memory) }
    ensures refuses { (p : Place) → IsFirstFault tokens.now at end p
        → (result ≡ Err (ParseFault.At p)) ⊎ (result ≡ Err ParseFault.Memory) }
    ensures limits { let one_more = place_at_lem tokens.now (at + MOST_TOKENS) end in
        PassesLimit tokens.now at
        → (result ≡ Err (ParseFault.Limit one_more 4)) ⊎ (result ≡ Err ParseFault.Memory) }
{
    let (_, from) = tokens.split_at(at);
    let size = from.len().min(MOST_TOKENS + 1);
    let (window, _) = from.split_at(size);
    match expression_at(alloc, window, size + 2) {
        Ok((tree, rest)) => {
            let count = size - rest.len();
            if count > MOST_TOKENS {
                return Err(ParseFault::Limit(place_at(tokens, at + MOST_TOKENS, end), 4));
            }
            Ok((tree, at + count))
        }
        Err(Fault::At(rest)) => {
            let count = size - rest.len();
            if count > MOST_TOKENS {
                return Err(ParseFault::Limit(place_at(tokens, at + MOST_TOKENS, end), 4));
            }
            Err(ParseFault::At(place_at(tokens, at + count, end)))
        }
        Err(Fault::Memory) => Err(ParseFault::Memory),
    }
}
