//! Memories are read from a text (IEEE 1364-2005, clause 17.2.9).

ghost use Rattle.std.specs.Prelude.{◌≡◌, ◌≤◌, ◌∷◌, ◌++◌, ◌%◌, ◌^◌, ℕ, List, pos, neg_ℤ, ◌≤ℤ◌};
ghost use Rattle.vl_design.specs.ReadHex as h;
ghost use Rattle.vl_design.specs.Sound.{IsWidth};
ghost use Rattle.vl_hex.specs.Alike.{steps_of, AreAlike};
ghost use Rattle.vl_hex.specs.Loading.{place_at, loaded_from};

use crate::position::{Position, Step, last, read_byte};
use vl_base::bits::{Bits, resize};
use vl_design::words::Kept;

/// A memory.
#[derive(Clone, Copy)]
pub struct Memory {
    /// The width of its words.
    pub width: u32,
    /// The lowest address.
    pub lowest: i32,
    /// How many words it has.
    pub count: u64,
}

/// The lowest address.
fn lowest_of(memory: Memory) -> i64
    ensures value { result ≡ memory.lowest }
    ensures high { result ≤ℤ pos (2 ^ 31) }
    ensures low { neg_ℤ (pos (2 ^ 31)) ≤ℤ result }
{
    i64::from(memory.lowest)
}

/// The word of an address; none where it is not there.
#[tactic(auto, using(crate::proofs::Places::places))]
fn place_at(memory: Memory, address: u64) -> Option<u64>
    requires { memory.count ≤ 2 ^ 32 }
    ensures place { result ≡ place_at memory.lowest memory.count address }
    ensures high { memory.lowest ≤ℤ pos (2 ^ 31) }
{
    let lowest = lowest_of(memory);
    if address >= 1 << 40 {
        return None;
    }
    let number = address as i64 - lowest;
    if number < 0 {
        return None;
    }
    if number >= memory.count as i64 {
        return None;
    }
    Some(number as u64)
}

/// Loads a word of a value, of which the lowest bits count, and gives the next place; none behind the last word.
fn load_word(memory: Memory, value: u128, number: u64, words: &mut Kept) -> Option<u64>
    requires width { IsWidth memory.width }
    requires count { memory.count ≤ 2 ^ 32 }
    ensures { (v : ℕ) (more : List h.Step) → v % 2 ^ memory.width ≡ value % 2 ^ memory.width
        → h.loaded memory.width memory.lowest memory.count number (h.Loads v ∷ more) words.old ≡ loaded_from memory.width memory.lowest memory.count result more words.new }
{
    if number >= memory.count {
        return None;
    }
    let all = Bits { value, width: 128 };
    words.set(
        number as usize,
        resize(all, false, memory.width as u8).value,
    );
    Some(number + 1)
}

/// Does a step from a place on, and gives the next place; none where the text ends there.
fn load_step(memory: Memory, step: Step, number: u64, words: &mut Kept) -> Option<u64>
    requires width { IsWidth memory.width }
    requires count { memory.count ≤ 2 ^ 32 }
    ensures { (xs more : List h.Step) → AreAlike memory.width xs (steps_of step)
        → h.loaded memory.width memory.lowest memory.count number (xs ++ more) words.old ≡ loaded_from memory.width memory.lowest memory.count result more words.new }
{
    match step {
        Step::Nothing => Some(number),
        Step::Loads(value) => load_word(memory, value, number, words),
        Step::Goes(address) => place_at(memory, address),
    }
}

/// Reads the words of a memory from a text, up to what is malformed or to an address that is not there.
pub fn load(memory: Memory, text: &[u8], words: &mut Kept)
    requires width { IsWidth memory.width }
    requires count { memory.count ≤ 2 ^ 32 }
    ensures { words.new ≡ h.words_read memory.width memory.lowest memory.count text.now words.old }
{
    let mut position = Position::Between;
    let mut number = 0;
    for byte in text {
        let Some(read) = read_byte(position, *byte) else {
            return;
        };
        let Some(place) = load_step(memory, read.step, number, words) else {
            return;
        };
        number = place;
        position = read.position;
    }
    load_step(memory, last(position), number, words);
}
