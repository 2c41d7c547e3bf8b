//! Updates of signals, and how they are made (IEEE 1364-2005, clauses 5.2.1, 5.2.2 and 11.3).

ghost use Rattle.std.specs.Prelude.{◌≡◌, ℤ, All, map, slice_index};
ghost use Rattle.vl_base.specs.Selects as selects;
ghost use Rattle.vl_design.specs.Laws.{IsFine};
ghost use Rattle.vl_design.specs.Sound.{IsNamed};
ghost use Rattle.vl_design.specs.State.{with_update, all_updated};
ghost use Rattle.vl_design.specs.Value.{words_of};
ghost use Rattle.vl_design.specs.Width as w;
ghost use Rattle.vl_eval.specs.Rooms.{names_of};
ghost use Rattle.vl_eval.specs.Wholes.{near};
ghost use Rattle.vl_eval.specs.Updates.{low_of, update_of};

use crate::form::signal_form;
use crate::room::{Room, Sample};
use crate::selects::{Whole, held, lowest_bit};
use vl_base::bits::Bits;
use vl_base::select::place_in;
use vl_design::design::LowestBit;
use vl_design::words::Kept;

/// The lowest bit that an update writes, by the index that names it.
#[derive(Clone, Copy)]
pub struct Low {
    /// How the index becomes the number of the bit.
    pub from: LowestBit,
    /// The index.
    pub index: Whole,
}

/// An update: bits of a word of a signal, from a bit on.
#[derive(Clone, Copy)]
pub struct Update {
    /// The signal's number.
    pub signal: u32,
    /// The word, from 0.
    pub word: u64,
    /// The lowest bit that is written.
    pub low: Low,
    /// The bits that are written.
    pub bits: Bits,
}

/// A value with a part written to it from a place near it on.
fn placed(old: Bits, low: i64, part: Bits) -> Bits
    ensures value { (z : ℤ) → near low ≡ near z → result.value ≡ selects.placed old.width old.value z part.width part.value }
    ensures width { result.width ≡ old.width }
{
    place_in(old, low, part)
}

/// A value with a part written to it from a bit on; bits of the part that fall outside the value have no effect.
fn placed_at(old: Bits, low: Low, part: Bits) -> Bits
    ensures value { result.value ≡ selects.placed old.width old.value (low_of low) part.width part.value }
    ensures width { result.width ≡ old.width }
{
    placed(old, lowest_bit(low.from, low.index), part)
}

/// The word that an update leaves.
fn updated_word(room: &Room<'_>, values: &[Kept], u: Update) -> u128
    requires named { IsNamed (names_of room.now) u.signal }
    requires fine { IsFine (names_of room.now).rows values.now }
    ensures { result ≡ selects.placed (w.signal_form (names_of room.now).rows u.signal).width (slice_index (words_of values.now u.signal) u.word) (low_of u.low) u.bits.width u.bits.value }
{
    let s = Sample {
        values,
        time: 0,
        answer: 0,
    };
    let old = held(&s, u.signal, u.word, signal_form(room, u.signal).width);
    placed_at(old, u.low, u.bits).value
}

/// Makes an update: bits that the signal doesn't have, and words that it doesn't have, are left out.
fn write(room: &Room<'_>, values: &mut Vec<Kept>, u: Update)
    requires named { IsNamed (names_of room.now) u.signal }
    requires fine { IsFine (names_of room.now).rows values.old.items }
    ensures { values.new.items ≡ with_update (names_of room.now).rows values.old.items (update_of u) }
{
    let word = updated_word(room, values, u);
    values[u.signal as usize].set(u.word as usize, word);
}

/// Makes updates in order.
pub fn write_all(room: &Room<'_>, values: &mut Vec<Kept>, updates: &[Update])
    requires named { All (λ u. IsNamed (names_of room.now) u.signal) updates.now }
    requires fine { IsFine (names_of room.now).rows values.old.items }
    ensures { values.new.items ≡ all_updated (names_of room.now).rows values.old.items (map update_of updates.now) }
{
    for u in updates {
        write(room, values, *u);
    }
}
