//! All ports set to the words of a capture.

ghost use Rattle.std.specs.Prelude.{◌≡◌, ℕ, ◌<◌, ◌≤◌, ◌^◌, ◌++◌, length, sum, drop, slice_index, IfNone, IfSome, IfErr, OnOk, OnErr, All};
ghost use Rattle.cell_form.specs.Views.{bank_of};
ghost use Rattle.reg_ports.specs.Ports as s;
ghost use Rattle.reg_ports.specs.Refusals as r;

use crate::port::{set_variable, word_count};
use cell_form::Bits;
use cell_form::bank::{Bank, Port, PortMap};

/// Why words were refused.
#[derive(Clone, Copy, Debug, PartialEq, Eq)]
pub enum PortError {
    /// So many words were given, and so many were wanted.
    Length(u128, u128),
    /// The first word that has more bits than its port's width, by its number from 0, and the word.
    Wide(u64, u128),
    /// Want of memory. `restore` wants none.
    Memory,
}

/// How many words ports have.
fn words_of(ports: &[Port]) -> u128
    ensures { result ≡ sum (s.word_counts ports.now) }
{
    let mut count = 0;
    for port in ports {
        count += u128::from(word_count(*port));
    }
    count
}

/// The number of the first word that has more bits than a width.
fn wide_one(words: &[u128], width: u8) -> Option<usize>
    requires wide { 1 ≤ width }
    requires narrow { width ≤ 128 }
    ensures none { IfNone result (All (λ w. w < 2 ^ width) words.now) }
    ensures there { IfSome result (λ i. i < length words.now) }
    ensures wide { IfSome result (λ i. 2 ^ width ≤ slice_index words.now i) }
    ensures first { IfSome result (λ i. (k : ℕ) → k < i → slice_index words.now k < 2 ^ width) }
{
    words
        .iter()
        .position(|word| Bits::new(*word, width).is_none())
}

/// The number of the first word that has more bits than its port's width, where there are as many words as the ports have.
fn first_wide(ports: &[Port], words: &[u128]) -> Option<usize>
    requires widths { All s.HasWidth ports.now }
    requires many { length words.now ≡ sum (s.word_counts ports.now) }
    ensures none { IfNone result (r.AreFit ports.now words.now) }
    ensures some { IfSome result (λ i. r.IsFirstWide ports.now words.now i (slice_index words.now i)) }
{
    let mut left = words;
    let mut before = 0;
    for port in ports {
        let (own, others) = left.split_at(word_count(*port) as usize);
        if let Some(number) = wide_one(own, port.width) {
            return Some(before + number);
        }
        before += own.len();
        left = others;
    }
    None
}

/// Words are refused that are more or fewer than those of the ports, or of which one is too wide.
fn check(ports: &[Port], words: &[u128]) -> Result<(), PortError>
    requires { All s.HasWidth ports.now }
    ensures fit { OnOk result (r.AreFit ports.now words.now) }
    ensures refused { IfErr result (r.Refuses ports.now words.now) }
{
    let given = words.len() as u128;
    let wanted = words_of(ports);
    if given != wanted {
        return Err(PortError::Length(given, wanted));
    }
    match first_wide(ports, words) {
        Some(index) => Err(PortError::Wide(index as u64, words[index])),
        None => Ok(()),
    }
}

/// Writes words over the first ones of a memory.
fn put_front(words: &mut [u128], own: &[u128])
    requires { length own.now ≤ length words.old }
    ensures { words.new ≡ own.now ++ drop (length own.now) words.old }
{
    words[..own.len()].copy_from_slice(own);
}

/// Sets a port to these words.
fn put(bank: &mut Bank, port: Port, own: &[u128])
    requires port { s.IsThere (bank_of bank.old) port }
    requires own { length own.now ≡ s.word_count port }
    ensures { bank_of bank.new ≡ s.with_held port own.now (bank_of bank.old) }
{
    if port.mem {
        let words = &mut bank.mems[port.value as usize];
        put_front(words.as_mut_slice(), own);
    } else {
        set_variable(bank, port, own[0]);
    }
}

/// Sets all ports to these words.
fn put_all(bank: &mut Bank, ports: &[Port], words: &[u128])
    requires ports { All (s.IsThere (bank_of bank.old)) ports.now }
    requires words { length words.now ≡ sum (s.word_counts ports.now) }
    ensures { bank_of bank.new ≡ s.restored ports.now words.now (bank_of bank.old) }
{
    let mut left = words;
    for port in ports {
        let (own, others) = left.split_at(word_count(*port) as usize);
        put(bank, *port, own);
        left = others;
    }
}

/// Sets all ports to words in the order of a capture: of a variable both the value and the work copy, of a memory its words from the
/// lowest address on. Nothing else in the bank changes, and it wants no memory. Words are refused that are more or fewer than those of
/// the ports, or else of which one has more bits than its port's width, at the first such word; then the bank is as it was.
pub fn restore(bank: &mut Bank, map: &PortMap, words: &[u128]) -> Result<(), PortError>
    requires { s.IsMap map.now.ports (bank_of bank.old) }
    ensures restored { OnOk result (bank_of bank.new ≡ s.restored map.now.ports words.now (bank_of bank.old)) }
    ensures fit { OnOk result (r.AreFit map.now.ports words.now) }
    ensures refused { IfErr result (r.Refuses map.now.ports words.now) }
    ensures unchanged { OnErr result (bank_of bank.new ≡ bank_of bank.old) }
    ensures map { s.IsMap map.now.ports (bank_of bank.new) }
{
    let ports = map.ports.as_slice();
    check(ports, words)?;
    put_all(bank, ports, words);
    Ok(())
}
