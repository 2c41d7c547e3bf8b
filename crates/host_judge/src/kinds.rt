//! The kinds of refusals in words.

ghost use Rattle.std.specs.Prelude.{◌≡◌, ◌++◌, IfOk, OnOk, codes};
ghost use Rattle.std.specs.Fmt.{decimal};
ghost use Rattle.host_files.specs.host_text.specs.Report as report;
ghost use Rattle.host_files.specs.host_form.specs.Origins as tenants;
ghost use Rattle.host_judge.specs.Judged.{kind_words};
ghost use Rattle.host_judge.specs.Deciding.{sums_of};

use host_files::statement::Capacity;
use std::alloc::{AllocError, Global};
use ten_core::{Cost, Items, Text};
use vl_front::fault::Kind;

/// Adds a word and a number in decimal behind it.
fn push_counted(
    alloc: Global,
    word: &[u8],
    value: u64,
    text: &mut Vec<u8>,
) -> Result<(), AllocError>
    ensures { OnOk result (text.new.items ≡ text.old.items ++ word.now ++ decimal value) }
{
    let digits = value.to_string(alloc)?;
    text.extend_from_slice(word)?;
    text.extend_from_slice(digits.as_bytes())?;
    Ok(())
}

/// Adds a number behind a space.
fn push_number(alloc: Global, value: u64, text: &mut Vec<u8>) -> Result<(), AllocError>
    ensures { OnOk result (text.new.items ≡ text.old.items ++ report.number value) }
{
    push_counted(alloc, b" ".as_slice(), value, text)
}

/// Adds the kind of a source's refusal.
fn push_kind(alloc: Global, kind: Kind, text: &mut Vec<u8>) -> Result<(), AllocError>
    ensures { OnOk result (text.new.items ≡ text.old.items ++ kind_words kind) }
{
    match kind {
        Kind::Lex(cause) => push_counted(alloc, b"lex ".as_slice(), u64::from(cause), text),
        Kind::Parse => text.extend_from_slice(b"parse"),
        Kind::Construct(number) => push_counted(
            alloc,
            b"construct ".as_slice(),
            u64::from(number),
            text,
        ),
        Kind::Limit(number) => push_counted(alloc, b"limit ".as_slice(), u64::from(number), text),
        Kind::Loop(_) => text.extend_from_slice(b"loop"),
    }
}

/// The kind of a source's refusal.
pub fn source_text(alloc: Global, kind: Kind) -> Result<Text, AllocError>
    ensures { IfOk result (λ text. text ≡ kind_words kind) }
{
    let mut text = Vec::new(alloc);
    push_kind(alloc, kind, &mut text)?;
    Ok(Items::from_vec(text))
}

/// Adds three numbers, each behind a space.
fn push_three(
    alloc: Global,
    first: u64,
    second: u64,
    third: u64,
    text: &mut Vec<u8>,
) -> Result<(), AllocError>
    ensures { OnOk result (text.new.items ≡ text.old.items ++ report.number first ++ report.number second ++ report.number third) }
{
    push_number(alloc, first, text)?;
    push_number(alloc, second, text)?;
    push_number(alloc, third, text)
}

/// The kind of a refusal for a cost that doesn't fit a capacity.
pub(crate) fn cost_text(alloc: Global, cost: Cost, capacity: Capacity) -> Result<Text, AllocError>
    ensures { IfOk result (λ text. text ≡ tenants.cost_kind (sums_of cost) capacity) }
{
    let mut text = Vec::new(alloc);
    text.extend_from_slice(b"cost")?;
    push_three(alloc, cost.regs, cost.cells, cost.mem, &mut text)?;
    push_three(
        alloc,
        capacity.registers,
        capacity.cells,
        capacity.memory,
        &mut text,
    )?;
    Ok(Items::from_vec(text))
}

/// The kind of a refusal for a fault of a snapshot.
pub(crate) fn snapshot_text(alloc: Global, fault: u8) -> Result<Text, AllocError>
    ensures { IfOk result (λ text. text ≡ tenants.snapshot_kind fault) }
{
    let mut text = Vec::new(alloc);
    text.extend_from_slice(b"snapshot")?;
    push_number(alloc, u64::from(fault), &mut text)?;
    Ok(Items::from_vec(text))
}
