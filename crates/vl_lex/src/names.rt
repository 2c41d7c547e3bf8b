//! Names and reserved words.

ghost use Rattle.std.specs.Prelude.{◌≡◌, map, IfOk};
ghost use Rattle.std.specs.List.{list_any};
ghost use Rattle.std.specs.Str.{bytes_eq};
ghost use Rattle.vl_tree.specs.Names.{is_reserved as is_reserved_lem};
ghost use Rattle.vl_lex.specs.Reading.{word_at as word_at_lem, system_at as system_at_lem, escaped_at as escaped_at_lem, ends_at_white as ends_at_white_lem};
ghost use Rattle.vl_lex.specs.View.{seen};

use crate::bytes::is_white;
use crate::runs::{Run, split_run, text_of};
use crate::step::Step;
use std::alloc::{AllocError, Global};
use vl_tree::token::TokenKind;

const RESERVED: [&[u8]; 124] = [
    b"always",
    b"and",
    b"assign",
    b"automatic",
    b"begin",
    b"buf",
    b"bufif0",
    b"bufif1",
    b"case",
    b"casex",
    b"casez",
    b"cell",
    b"cmos",
    b"config",
    b"deassign",
    b"default",
    b"defparam",
    b"design",
    b"disable",
    b"edge",
    b"else",
    b"end",
    b"endcase",
    b"endconfig",
    b"endfunction",
    b"endgenerate",
    b"endmodule",
    b"endprimitive",
    b"endspecify",
    b"endtable",
    b"endtask",
    b"event",
    b"for",
    b"force",
    b"forever",
    b"fork",
    b"function",
    b"generate",
    b"genvar",
    b"highz0",
    b"highz1",
    b"if",
    b"ifnone",
    b"incdir",
    b"include",
    b"initial",
    b"inout",
    b"input",
    b"instance",
    b"integer",
    b"join",
    b"large",
    b"liblist",
    b"library",
    b"localparam",
    b"macromodule",
    b"medium",
    b"module",
    b"nand",
    b"negedge",
    b"nmos",
    b"nor",
    b"noshowcancelled",
    b"not",
    b"notif0",
    b"notif1",
    b"or",
    b"output",
    b"parameter",
    b"pmos",
    b"posedge",
    b"primitive",
    b"pull0",
    b"pull1",
    b"pulldown",
    b"pullup",
    b"pulsestyle_onevent",
    b"pulsestyle_ondetect",
    b"rcmos",
    b"real",
    b"realtime",
    b"reg",
    b"release",
    b"repeat",
    b"rnmos",
    b"rpmos",
    b"rtran",
    b"rtranif0",
    b"rtranif1",
    b"scalared",
    b"showcancelled",
    b"signed",
    b"small",
    b"specify",
    b"specparam",
    b"strong0",
    b"strong1",
    b"supply0",
    b"supply1",
    b"table",
    b"task",
    b"time",
    b"tran",
    b"tranif0",
    b"tranif1",
    b"tri",
    b"tri0",
    b"tri1",
    b"triand",
    b"trior",
    b"trireg",
    b"unsigned",
    b"use",
    b"uwire",
    b"vectored",
    b"wait",
    b"wand",
    b"weak0",
    b"weak1",
    b"while",
    b"wire",
    b"wor",
    b"xnor",
    b"xor",
];

/// The bytes are one of these words.
#[tactic(auto, using(crate::proofs::RunLaws::any_goes, crate::proofs::RunLaws::any_found, crate::proofs::RunLaws::any_none))]
pub fn is_among(words: &[&[u8]], bytes: &[u8]) -> bool
    ensures { result ≡ list_any (bytes_eq bytes.now) (map (λ w. w.now) words.now) }
{
    for word in words {
        if bytes == *word {
            return true;
        }
    }
    false
}

#[tactic(auto, unfolding(vl_tree::specs::Names::is_reserved))]
fn is_reserved(word: &[u8]) -> bool
    ensures { result ≡ is_reserved_lem word.now }
{
    is_among(&RESERVED, word)
}

/// A name or a keyword.
#[tactic(auto, unfolding(crate::specs::Reading::word_at))]
pub fn word_at<'a>(alloc: Global, text: &'a [u8]) -> Result<Step<'a>, AllocError>
    ensures { IfOk result (λ s. seen s ≡ word_at_lem text.now) }
{
    let (word, rest) = split_run(Run::Name, text);
    let spelled = text_of(alloc, word)?;
    let kind = if is_reserved(word) {
        TokenKind::Keyword(spelled)
    } else {
        TokenKind::Name(spelled)
    };
    Ok(Step::Token(kind, rest))
}

/// A system name.
#[tactic(auto, unfolding(crate::specs::Reading::system_at))]
pub fn system_at<'a>(alloc: Global, text: &'a [u8]) -> Result<Step<'a>, AllocError>
    ensures { IfOk result (λ s. seen s ≡ system_at_lem text.now) }
{
    let (word, rest) = split_run(Run::Name, text);
    match word {
        [] => Ok(Step::Fault(1)),
        [_] => Ok(Step::Fault(1)),
        [_, _, ..] => Ok(Step::Token(TokenKind::System(text_of(alloc, word)?), rest)),
    }
}

fn ends_at_white(text: &[u8]) -> bool
    ensures { result ≡ ends_at_white_lem text.now }
{
    match text.split_first() {
        None => true,
        Some((byte, _)) => is_white(*byte),
    }
}

/// An escaped name, behind its backslash.
#[tactic(auto, unfolding(crate::specs::Reading::escaped_at))]
pub fn escaped_at<'a>(alloc: Global, inside: &'a [u8]) -> Result<Step<'a>, AllocError>
    ensures { IfOk result (λ s. seen s ≡ escaped_at_lem inside.now) }
{
    let (word, rest) = split_run(Run::Printed, inside);
    match word {
        [] => Ok(Step::Fault(1)),
        [_, ..] => {
            if ends_at_white(rest) {
                Ok(Step::Token(TokenKind::Name(text_of(alloc, word)?), rest))
            } else {
                Ok(Step::Fault(1))
            }
        }
    }
}
