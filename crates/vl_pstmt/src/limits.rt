//! How many tokens an expression may have, and a left side but for its indices.

ghost use Rattle.std.specs.Prelude.{◌≡◌, ℕ, ◌+◌, ◌<◌, ◌≤◌, length, drop, IfOk};
ghost use Rattle.vl_tree.specs.Reading as plain;
ghost use Rattle.vl_tree.specs.Bounds.{most_tokens};
ghost use Rattle.vl_tree.specs.Parsers.{Gives};
ghost use Rattle.vl_pstmt.specs.Limits.{window as window_lem, narrowed, LeavesOf};

use vl_tree::fault::Fault as PlainFault;
use vl_tree::source_fault::{Cause, Fault};
use vl_tree::token::Token;

/// The most tokens of an expression that stands in no other, and of a left side but for those in its indices: limit 4.
pub const MOST_TOKENS: usize = 1000;

/// As many tokens as the limit allows, and one more.
#[tactic(auto, using(crate::proofs::Windows::take_least))]
pub fn window(tokens: &[Token]) -> &[Token]
    ensures { result.now ≡ window_lem most_tokens tokens.now }
{
    let (front, _) = tokens.split_at(tokens.len().min(MOST_TOKENS + 1));
    front
}

#[tactic(auto, using(crate::proofs::Windows::took_within, crate::proofs::Windows::took_past, crate::proofs::Windows::stuck_within, crate::proofs::Windows::stuck_past))]
/// What is read within the limit, by what is read of the window, which has so many tokens.
pub fn within_limit<'a, T: Drop>(
    tokens: &'a [Token],
    size: usize,
    read: Result<(T, &'a [Token]), PlainFault<'a>>,
) -> Result<(T, &'a [Token]), Fault<'a>>
    requires sized { size ≡ length (window_lem most_tokens tokens.now) }
    requires leaves { LeavesOf size read }
    ensures reads { (o : plain.Outcome T) → plain.Gives read.entry o → Gives result (narrowed most_tokens tokens.now o) }
    ensures shorter { IfOk result (λ x. length x.1.now < length tokens.now) }
{
    match read {
        Ok((tree, left)) => {
            let count = size - left.len();
            if count > MOST_TOKENS {
                return Err(Fault::At(Cause::Tokens, past_limit(tokens)));
            }
            let (_, rest) = tokens.split_at(count);
            Ok((tree, rest))
        }
        Err(PlainFault::At(left)) => {
            let count = size - left.len();
            if count > MOST_TOKENS {
                return Err(Fault::At(Cause::Tokens, past_limit(tokens)));
            }
            let (_, rest) = tokens.split_at(count);
            Err(Fault::At(Cause::Syntax, rest))
        }
        Err(PlainFault::Memory) => Err(Fault::Memory),
    }
}

/// The tokens from the first on that passes the limit.
fn past_limit(tokens: &[Token]) -> &[Token]
    requires { most_tokens ≤ length tokens.now }
    ensures { result.now ≡ drop most_tokens tokens.now }
{
    let (_, rest) = tokens.split_at(MOST_TOKENS);
    rest
}
