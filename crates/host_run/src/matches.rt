//! The command that the words say, as `clap` matches it.

ghost use Rattle.std.specs.Prelude.{◌≡◌, ℕ, List, false, true, is_some, map, option_map, IfErr, IfOk, Some};
ghost use Rattle.std.specs.String.{string_bytes};
ghost use Rattle.clap.specs.Words.{app_of, kind_of, subcommand_rows_of, with_subcommand};
ghost use Rattle.clap.specs.declared.builder.command.Command.TheViews.{out-Command};
ghost use Rattle.host_run.specs.Parser as p;
ghost use Rattle.host_run.specs.Said.{command_in};
ghost use Rattle.host_run.specs.Words as w;

use crate::words::{Command, command_by};
use clap::error::ErrorKind;
use clap::{Arg, ArgMatches, Command as Parser, Error};
use std::alloc::{AllocError, Global};

/// The subcommand of a verb, with one value, which must be there.
fn parser_of<'a>(alloc: Global, verb: &'a str) -> Result<Parser<'a>, AllocError>
    ensures app { IfOk result (λ c. app_of c ≡ p.verb_app verb.entry.now) }
    ensures local { IfOk result (λ c. (out-Command c).has_globals ≡ false) }
{
    let operand = Arg::new(alloc, "operand").required(true);
    Parser::new(alloc, verb).arg(operand)
}

/// A parser with the subcommand of a verb more.
fn with_verb<'a>(alloc: Global, parser: Parser<'a>, verb: &'a str) -> Result<Parser<'a>, AllocError>
    ensures { IfOk result (λ c. app_of c ≡ with_subcommand (app_of parser.entry) (p.verb_app verb.entry.now).top) }
{
    let more = parser_of(alloc, verb)?;
    parser.subcommand(more)
}

/// The program's parser.
fn parser<'a>(alloc: Global) -> Result<Parser<'a>, AllocError>
    ensures { IfOk result (λ c. app_of c ≡ p.program) }
{
    let bare = Parser::new(alloc, "fabhost")
        .no_binary_name(true)
        .subcommand_required(true);
    let runs = with_verb(alloc, bare, "run")?;
    let checks = with_verb(alloc, runs, "check")?;
    with_verb(alloc, checks, "demo")
}

/// The command of the parser's matches.
fn command_in_matches<'a>(matches: &ArgMatches<'a>) -> Option<Command<'a>>
    ensures { (verb word : List ℕ) → p.value_in (subcommand_rows_of matches.now) ≡ Some (verb, Some word) → option_map command_in result ≡ w.command_by verb word }
{
    let (verb, matched) = matches.subcommand()?;
    let word = matched.get_str("operand")?;
    command_by(verb.as_bytes(), word)
}

/// The command that the parser matches in words. It matches each command, and refuses one only for want of memory.
fn command_in_words<'a>(alloc: Global, words: &'a [String]) -> Result<Option<Command<'a>>, Error>
    ensures command { IfOk result (λ found. (c : w.Command) → w.command_of (map string_bytes words.entry.now) ≡ Some c → option_map command_in found ≡ Some c) }
    ensures memory { IfErr result (λ e. is_some (w.command_of (map string_bytes words.entry.now)) ≡ true → kind_of e ≡ ErrorKind.OutOfMemory) }
{
    match parser(alloc)?.try_get_matches_from(words) {
        Ok(matches) => Ok(command_in_matches(&matches)),
        Err(error) => Err(error),
    }
}

/// The command that the words say. An `Err` is want of memory alone.
pub(crate) fn command<'a>(alloc: Global, words: &'a [String]) -> Result<Command<'a>, AllocError>
    requires { is_some (w.command_of (map string_bytes words.now)) ≡ true }
    ensures { IfOk result (λ c. w.command_of (map string_bytes words.entry.now) ≡ Some (command_in c)) }
{
    match command_in_words(alloc, words) {
        Ok(Some(command)) => Ok(command),
        Ok(None) => unreachable!(),
        Err(_) => Err(AllocError),
    }
}
