//! One word of one port.

ghost use Rattle.std.specs.Prelude.{◌≡◌, ◌<◌, ◌^◌, true, false, [], ◌∷◌, slice_index, slice_index_or, slice_set};
ghost use Rattle.cell_form.specs.Views.{bank_of};
ghost use Rattle.reg_ports.specs.Ports as s;

use cell_form::Bits;
use cell_form::bank::{Bank, Port, PortMap};

/// How many words a port has: a variable has one.
pub(crate) fn word_count(port: Port) -> u32
    ensures { result ≡ s.word_count port }
{
    if port.mem { port.words } else { 1 }
}

/// A word that a port holds.
fn held_word(bank: &Bank, port: Port, word: u32) -> u128
    requires port { s.IsPort (bank_of bank.now) port }
    requires word { word < s.word_count port }
    ensures value { result ≡ slice_index (s.held (bank_of bank.now) port) word }
    ensures fits { result < 2 ^ port.width }
{
    if port.mem {
        let words = &bank.mems[port.value as usize];
        words[word as usize]
    } else {
        bank.regs[port.work as usize]
    }
}

/// A word of a port, by their numbers, in the port's width: of a variable, whose one word has the number 0, the work copy; of a
/// memory the word that stands so far behind the lowest address.
pub fn read(bank: &Bank, map: &PortMap, port: u32, word: u32) -> Bits
    requires map { s.IsMap map.now.ports (bank_of bank.now) }
    requires word { word < slice_index (s.word_counts map.now.ports) port }
    ensures value { result.value ≡ slice_index (slice_index_or (s.all_held map.now.ports (bank_of bank.now)) port []) word }
    ensures width { result.width ≡ slice_index (s.port_widths map.now.ports) port }
{
    let place = map.ports.as_slice()[port as usize];
    Bits {
        value: held_word(bank, place, word),
        width: place.width,
    }
}

/// Sets both registers of a variable.
pub(crate) fn set_variable(bank: &mut Bank, port: Port, value: u128)
    requires variable { port.mem ≡ false }
    requires port { s.IsThere (bank_of bank.old) port }
    ensures { bank_of bank.new ≡ s.with_held port (value ∷ []) (bank_of bank.old) }
{
    bank.regs[port.value as usize] = value;
    bank.regs[port.work as usize] = value;
}

/// Sets a word of a memory.
fn set_word(bank: &mut Bank, port: Port, word: u32, value: u128)
    requires memory { port.mem ≡ true }
    requires port { s.IsThere (bank_of bank.old) port }
    requires word { word < port.words }
    ensures { bank_of bank.new ≡ s.with_held port (slice_set (s.held (bank_of bank.old) port) word value) (bank_of bank.old) }
{
    let words = &mut bank.mems[port.value as usize];
    words[word as usize] = value;
}

/// Sets a word of a port.
fn set_held(bank: &mut Bank, port: Port, word: u32, value: u128)
    requires port { s.IsThere (bank_of bank.old) port }
    requires word { word < s.word_count port }
    ensures { bank_of bank.new ≡ s.with_held port (slice_set (s.held (bank_of bank.old) port) word value) (bank_of bank.old) }
{
    if port.mem {
        set_word(bank, port, word, value);
    } else {
        set_variable(bank, port, value);
    }
}

/// Sets a word of a port, by their numbers, to a value of the port's width: of a variable both the value and the work copy. Nothing
/// else in the bank changes.
pub fn write(bank: &mut Bank, map: &PortMap, port: u32, word: u32, value: Bits)
    requires map { s.IsMap map.now.ports (bank_of bank.old) }
    requires word { word < slice_index (s.word_counts map.now.ports) port }
    requires width { value.width ≡ slice_index (s.port_widths map.now.ports) port }
    ensures written { bank_of bank.new ≡ s.with_word map.now.ports port word value.value (bank_of bank.old) }
    ensures map { s.IsMap map.now.ports (bank_of bank.new) }
{
    let place = map.ports.as_slice()[port as usize];
    set_held(bank, place, word, value.value);
}
