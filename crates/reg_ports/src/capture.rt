//! The words of all ports.

ghost use Rattle.std.specs.Prelude.{◌≡◌, ◌++◌, IfOk, OnOk};
ghost use Rattle.cell_form.specs.Views.{bank_of};
ghost use Rattle.reg_ports.specs.Ports as s;

use cell_form::Words;
use cell_form::bank::{Bank, Port, PortMap};
use std::alloc::{AllocError, Global};

/// Adds the words that a port holds.
fn add_held(bank: &Bank, port: Port, words: &mut Vec<u128>) -> Result<(), AllocError>
    requires { s.IsPort (bank_of bank.now) port }
    ensures { OnOk result (words.new.items ≡ words.old.items ++ s.held (bank_of bank.now) port) }
{
    if port.mem {
        let all = &bank.mems[port.value as usize];
        words.extend_from_slice(&all[..port.words as usize])
    } else {
        words.push(bank.regs[port.work as usize])?;
        Ok(())
    }
}

/// The words of all ports, one port behind the other: of a variable the work copy, of a memory its words from the lowest address on.
pub fn capture(alloc: Global, bank: &Bank, map: &PortMap) -> Result<Words, AllocError>
    requires { s.IsMap map.now.ports (bank_of bank.now) }
    ensures { IfOk result (λ words. words ≡ s.captured map.now.ports (bank_of bank.now)) }
{
    let mut words = Vec::new(alloc);
    for port in map.ports.as_slice() {
        add_held(bank, *port, &mut words)?;
    }
    Ok(Words::from_vec(words))
}
