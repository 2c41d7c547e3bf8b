//! Tokens and the faults of the lexer as texts.

use crate::parsing::printer::Printer;
use vl_design::number::Number;
use vl_lex::lex::LexFault;
use vl_tree::token::{Token, TokenKind};

fn show_truth(out: &mut Printer, truth: bool) {
    out.word(if truth { " true" } else { " false" });
}

/// The value, the bits that count, the width, and whether it is sized and signed.
fn show_number(out: &mut Printer, number: &Number) {
    out.word(" # ");
    out.number(number.value);
    out.word(" ");
    out.number(number.care);
    out.word(" ");
    out.number(u128::from(number.width));
    show_truth(out, number.sized);
    show_truth(out, number.signed);
}

/// The place of a token, its kind and its text.
fn show_token(out: &mut Printer, token: &Token) {
    out.place(token.place);
    match &token.kind {
        TokenKind::Keyword(text) => out.kind(" K ", text),
        TokenKind::Name(text) => out.kind(" N ", text),
        TokenKind::System(text) => out.kind(" S ", text),
        TokenKind::Number(number) => show_number(out, number),
        TokenKind::Str(text) => out.kind(" T ", text),
        TokenKind::Mark(text) => out.kind(" M ", text),
    }
    out.word("|");
}

/// Each token behind the other.
pub fn show_tokens(out: &mut Printer, tokens: &[Token]) {
    for token in tokens {
        show_token(out, token);
    }
}

/// Why a source has no tokens.
pub fn show_lex_fault(out: &mut Printer, fault: LexFault) {
    match fault {
        LexFault::At(place, cause) => {
            out.word("lex ");
            out.number(u128::from(cause));
            out.place(place);
        }
        LexFault::Limit(place, number) => {
            out.word("limit ");
            out.number(u128::from(number));
            out.place(place);
        }
        LexFault::Memory => out.word("memory"),
    }
}
