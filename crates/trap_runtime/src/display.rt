//! What `$display` and `$write` print (IEEE 1364-2005, clause 17.1).

ghost use Rattle.std.specs.Prelude.{◌≡◌, ◌++◌, OnOk, OnErr, slice_index};
ghost use Rattle.cell_form.specs.Views.{bank_of};
ghost use Rattle.trap_runtime.specs.Served.{held, parts_text, display_text};
ghost use Rattle.trap_runtime.specs.Traps.{HaveValues, Holds};

use cell_form::Bits;
use cell_form::bank::Bank;
use cell_form::table::FormatPart;
use fmt_text::item::push_item;
use std::alloc::{AllocError, Global};

/// The value of a slot, in so many bits.
fn value_at(bank: &Bank, slot: u32, width: u8) -> Bits
    requires { Holds (bank_of bank.now) width slot }
    ensures value { result.value ≡ slice_index bank.now.slots.items slot }
    ensures width { result.width ≡ width }
{
    Bits {
        value: bank.slots[slot as usize],
        width,
    }
}

/// Adds the texts of parts, whose items show the values of slots.
fn push_parts(
    alloc: Global,
    parts: &[FormatPart],
    slots: &[u32],
    bank: &Bank,
    printed: &mut Vec<u8>,
) -> Result<(), AllocError>
    requires { HaveValues (bank_of bank.now) parts.now slots.now }
    ensures { OnOk result (printed.new.items ≡ printed.old.items ++ parts_text parts.now (held (bank_of bank.now) slots.now)) }
{
    let mut next = 0;
    for part in parts {
        match part {
            FormatPart::Lit(text) => {
                printed.extend_from_slice(text.as_slice())?;
            }
            FormatPart::Item(letter, least, width, signed) => {
                let value = value_at(bank, slots[next], *width);
                push_item(alloc, *letter, *least, value, *signed, printed)?;
                next += 1;
            }
        }
    }
    Ok(())
}

/// Adds the text of a display. Want of memory leaves the bytes as they were.
pub(crate) fn display(
    alloc: Global,
    parts: &[FormatPart],
    newline: bool,
    slots: &[u32],
    bank: &Bank,
    out: &mut Vec<u8>,
) -> Result<(), AllocError>
    requires { HaveValues (bank_of bank.now) parts.now slots.now }
    ensures ok { OnOk result (out.new.items ≡ out.old.items ++ display_text parts.now newline (held (bank_of bank.now) slots.now)) }
    ensures err { OnErr result (out.new.items ≡ out.old.items) }
{
    let mut printed = Vec::new(alloc);
    push_parts(alloc, parts, slots, bank, &mut printed)?;
    if newline {
        printed.push(b'\n')?;
    }
    out.extend_from_slice(&printed)
}
