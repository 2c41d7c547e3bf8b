//! Which system tasks and functions there are, with which arguments, and where they may be called (IEEE 1364-2005, clause 17).

ghost use Rattle.std.specs.Prelude.{◌≡◌, ◌≤◌, ◌-◌, ◌^◌, ◌∷◌, List, Some, option_map};
ghost use Rattle.std.specs.List.{list_all};
ghost use Rattle.vl_tree.specs.declared.tree.SystemCall.{out-SystemCall};
ghost use Rattle.vl_tree.specs.declared.tree.SystemArgument.{SystemArgument as Argument};
ghost use Rattle.vl_uses.specs.Calls as spec;
ghost use Rattle.vl_uses.specs.Walks.{means, pointed};

use crate::alone::{bare, sole};
use crate::formats::shown_by;
use crate::names::{Names, read_kind};
use crate::setting::Usage;
use vl_scope::kind::{Class, Kind};
use vl_tree::number::Number;
use vl_tree::parts::Parts;
use vl_tree::tree::{Primary, SystemArgument, SystemCall};

/// The number whose bits are the lowest `width`.
fn lowest_bits(width: u8) -> u128
    requires { width ≤ 128 }
    ensures { result ≡ 2 ^ width - 1 }
{
    if width == 128 {
        u128::MAX
    } else {
        (1 << width) - 1
    }
}

/// Whether a digit of a number is z.
pub fn has_z(number: &Number) -> bool
    ensures { result ≡ spec.has_z number.now }
{
    let care = number.care;
    let width = number.width;
    if width > 128 {
        return true;
    }
    care != lowest_bits(width)
}

/// Whether an argument isn't empty.
fn is_given(argument: &SystemArgument) -> bool
    ensures { result ≡ spec.is_given argument.now }
{
    argument.argument.is_some()
}

/// The primary that an argument is, where it is nothing else.
fn argument_primary(argument: &SystemArgument) -> Option<&Primary>
    ensures { pointed result ≡ spec.argument_primary argument.now }
{
    sole(argument.argument.as_ref()?)
}

/// The string that an argument is.
fn argument_text(argument: &SystemArgument) -> Option<&[u8]>
    ensures { pointed result ≡ spec.argument_text argument.now }
{
    match argument_primary(argument)? {
        Primary::Str(_, text) => Some(text.as_slice()),
        _ => None,
    }
}

/// What an argument means that is a bare name.
fn argument_kind(names: &Names<'_>, argument: &SystemArgument) -> Option<Kind>
    ensures { result ≡ spec.argument_kind (means names.now).read argument.now }
{
    let name = bare(argument.argument.as_ref()?)?;
    read_kind(names, name.name.as_slice())
}

/// How many arguments behind it an argument shows, where it is a format or none.
fn shown_of(argument: &SystemArgument) -> Option<usize>
    ensures { result ≡ spec.shown_of (spec.argument_text argument.now) }
{
    match argument_text(argument) {
        None => Some(0),
        Some(text) => shown_by(text),
    }
}

/// How many arguments are to be shown behind an argument before which so many are; nothing where it may not stand there.
#[tactic(auto, using(crate::proofs::Fitting::fitting))]
fn shown_behind(shown: usize, argument: &SystemArgument) -> Option<usize>
    ensures { (others : List Argument) → spec.fit (Some shown) (argument.now ∷ others) ≡ spec.fit result others }
{
    if shown == 0 {
        return shown_of(argument);
    }
    if is_given(argument) {
        Some(shown - 1)
    } else {
        None
    }
}

/// Whether arguments fit their formats.
#[tactic(auto, using(crate::proofs::Fitting::fitting))]
fn fit(arguments: &[SystemArgument]) -> bool
    ensures { result ≡ spec.fit (Some 0) arguments.now }
{
    let mut shown = 0;
    for argument in arguments {
        let Some(behind) = shown_behind(shown, argument) else {
            return false;
        };
        shown = behind;
    }
    shown == 0
}

/// Whether the arguments of `$display` and `$write` fit their formats.
fn is_display(arguments: &Option<Parts<SystemArgument>>) -> bool
    ensures { result ≡ spec.is_display arguments.now }
{
    match arguments {
        None => true,
        Some(arguments) => fit(arguments.as_slice()),
    }
}

/// The one argument of a call.
fn one(arguments: &Option<Parts<SystemArgument>>) -> Option<&SystemArgument>
    ensures { pointed result ≡ spec.one arguments.now }
{
    match arguments.as_ref()?.as_slice() {
        [argument] => Some(argument),
        _ => None,
    }
}

/// The two arguments of a call.
fn two(arguments: &Option<Parts<SystemArgument>>) -> Option<(&SystemArgument, &SystemArgument)>
    ensures { option_map (λ both. (both.0.now, both.1.now)) result ≡ spec.two arguments.now }
{
    match arguments.as_ref()?.as_slice() {
        [first, second] => Some((first, second)),
        _ => None,
    }
}

/// Whether a call has one argument.
fn is_one(arguments: &Option<Parts<SystemArgument>>) -> bool
    ensures { result ≡ spec.is_one arguments.now }
{
    match one(arguments) {
        None => false,
        Some(argument) => is_given(argument),
    }
}

/// Whether an argument is a number 0, 1 or 2.
fn is_level(argument: &SystemArgument) -> bool
    ensures { result ≡ spec.is_level (spec.argument_primary argument.now) }
{
    match argument_primary(argument) {
        Some(Primary::Number(_, number)) => number.value <= 2 && !has_z(number),
        _ => false,
    }
}

/// Whether these are arguments of `$finish`.
fn is_finish(arguments: &Option<Parts<SystemArgument>>) -> bool
    ensures { result ≡ spec.is_finish arguments.now }
{
    if arguments.is_none() {
        return true;
    }
    match one(arguments) {
        None => false,
        Some(argument) => is_level(argument),
    }
}

/// Whether a byte may stand in a snapshot's name.
fn is_name_byte(byte: u8) -> bool
    ensures { result ≡ spec.is_name_byte byte }
{
    matches!(byte, b'a'..=b'z' | b'A'..=b'Z' | b'0'..=b'9' | b'_' | b'-' | b'.')
}

/// Whether all bytes may stand in a snapshot's name.
fn are_name_bytes(text: &[u8]) -> bool
    ensures { result ≡ list_all spec.is_name_byte text.now }
{
    text.iter().all(|byte| is_name_byte(*byte))
}

/// Whether a string is a snapshot's name.
fn is_save_name(text: Option<&[u8]>) -> bool
    ensures { result ≡ spec.is_save_name (pointed text.entry) }
{
    match text {
        None => false,
        Some(text) => !text.is_empty() && text.len() <= 32 && are_name_bytes(text),
    }
}

/// Whether these are arguments of `$save`.
fn is_save(arguments: &Option<Parts<SystemArgument>>) -> bool
    ensures { result ≡ spec.is_save arguments.now }
{
    match one(arguments) {
        None => false,
        Some(argument) => is_save_name(argument_text(argument)),
    }
}

/// Whether a string is a mode in which files are opened.
fn is_mode(text: Option<&[u8]>) -> bool
    ensures { result ≡ spec.is_mode (pointed text.entry) }
{
    match text {
        None => false,
        Some(text) => text == b"r".as_slice() || text == b"rb".as_slice(),
    }
}

/// Whether these are arguments of `$fopen`.
fn is_open(arguments: &Option<Parts<SystemArgument>>) -> bool
    ensures { result ≡ spec.is_open arguments.now }
{
    match two(arguments) {
        None => false,
        Some((file, mode)) => argument_text(file).is_some() && is_mode(argument_text(mode)),
    }
}

/// Whether what is named is a variable.
fn is_variable(kind: Option<Kind>) -> bool
    ensures { result ≡ spec.is_variable kind }
{
    match kind {
        None => false,
        Some(kind) => kind.class == Class::Variable,
    }
}

/// Whether what is named is a memory.
fn is_memory(kind: Option<Kind>) -> bool
    ensures { result ≡ spec.is_memory kind }
{
    match kind {
        None => false,
        Some(kind) => kind.class == Class::Memory,
    }
}

/// Whether these are arguments of `$fread`.
fn is_read(names: &Names<'_>, arguments: &Option<Parts<SystemArgument>>) -> bool
    ensures { result ≡ spec.is_read (means names.now).read arguments.now }
{
    match two(arguments) {
        None => false,
        Some((variable, file)) => is_variable(argument_kind(names, variable)) && is_given(file),
    }
}

/// Whether these are arguments of `$readmemh`.
fn is_memory_load(names: &Names<'_>, arguments: &Option<Parts<SystemArgument>>) -> bool
    ensures { result ≡ spec.is_memory_load (means names.now).read arguments.now }
{
    match two(arguments) {
        None => false,
        Some((file, memory)) => {
            argument_text(file).is_some() && is_memory(argument_kind(names, memory))
        }
    }
}

/// Whether a call is one that there is as a statement.
fn is_task(names: &Names<'_>, name: &[u8], arguments: &Option<Parts<SystemArgument>>) -> bool
    ensures { result ≡ spec.is_task (means names.now).read name.now arguments.now }
{
    if name == b"$display".as_slice() || name == b"$write".as_slice() {
        is_display(arguments)
    } else if name == b"$finish".as_slice() {
        is_finish(arguments)
    } else if name == b"$save".as_slice() {
        is_save(arguments)
    } else if name == b"$fread".as_slice() {
        is_read(names, arguments)
    } else if name == b"$fclose".as_slice() {
        is_one(arguments)
    } else if name == b"$readmemh".as_slice() {
        is_memory_load(names, arguments)
    } else {
        false
    }
}

/// Whether a call is one that there is in an expression, in an initial or a clocked process or elsewhere.
fn is_operand(timed: bool, name: &[u8], arguments: &Option<Parts<SystemArgument>>) -> bool
    ensures { result ≡ spec.is_operand timed name.now arguments.now }
{
    if name == b"$signed".as_slice() || name == b"$unsigned".as_slice() {
        is_one(arguments)
    } else if name == b"$time".as_slice() {
        timed && arguments.is_none()
    } else {
        false
    }
}

/// Whether a call is one of a function on files.
fn is_file_function(
    names: &Names<'_>,
    name: &[u8],
    arguments: &Option<Parts<SystemArgument>>,
) -> bool
    ensures { result ≡ spec.is_file_function (means names.now).read name.now arguments.now }
{
    if name == b"$fopen".as_slice() {
        is_open(arguments)
    } else if name == b"$fread".as_slice() {
        is_read(names, arguments)
    } else if name == b"$fgetc".as_slice() || name == b"$feof".as_slice() {
        is_one(arguments)
    } else {
        false
    }
}

/// Whether a call that is used so, in an initial or a clocked process or elsewhere, is one that there is.
pub fn is_allowed(names: &Names<'_>, timed: bool, usage: Usage, call: &SystemCall) -> bool
    ensures { result ≡ spec.is_allowed (means names.now).read timed usage (out-SystemCall call.now).name (out-SystemCall call.now).arguments }
{
    let name = call.name.as_slice();
    let arguments = &call.arguments;
    match usage {
        Usage::Task => is_task(names, name, arguments),
        Usage::Whole => {
            is_operand(timed, name, arguments)
                || (timed && is_file_function(names, name, arguments))
        }
        Usage::Operand => is_operand(timed, name, arguments),
    }
}
