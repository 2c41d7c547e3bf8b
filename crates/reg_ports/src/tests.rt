//! Two banks: a variable alone, and one beside a memory.

ghost use Rattle.std.specs.Prelude.{◌≡◌, true, false, [], ◌∷◌, IfOk};
ghost use Rattle.cell_form.specs.Views.{bank_of};
ghost use Rattle.reg_ports.specs.Ports as s;

use crate::capture::capture;
use crate::port::{read, write};
use crate::restore::{PortError, restore};
use cell_form::bank::{Bank, Port, PortMap};
use cell_form::{Bits, Items};
use std::alloc::{AllocError, Global};
use std::test::Fail;

/// A variable of 8 bits, whose work copy is the register 0 and whose value is the register 1.
fn variable() -> Port
    ensures { result ≡ record { mem = false; value = 1; work = 0; width = 8; words = 0 } }
{
    Port {
        mem: false,
        value: 1,
        work: 0,
        width: 8,
        words: 0,
    }
}

/// The first two words of a memory, of 4 bits each.
fn memory() -> Port
    ensures { result ≡ record { mem = true; value = 0; work = 0; width = 4; words = 2 } }
{
    Port {
        mem: true,
        value: 0,
        work: 0,
        width: 4,
        words: 2,
    }
}

/// A bank with the variable alone.
fn counter(alloc: Global) -> Result<(Bank, PortMap), AllocError>
    ensures { IfOk result (λ x. s.IsMap x.1.ports (bank_of x.0)) }
{
    let regs = Vec::from_array(alloc, [0, 0])?;
    let ports = Items::from_vec(Vec::from_array(alloc, [variable()])?);
    let bank = Bank {
        regs,
        mems: Vec::new(alloc),
        slots: Vec::new(alloc),
    };
    Ok((bank, PortMap { ports }))
}

#[test]
fn a_variable(rt: HostRuntime) -> Result<(), Fail> {
    let (mut bank, map) = counter(rt.alloc())?;
    assert_eq!(rt; restore(&mut bank, &map, &[]), Err(PortError::Length(0, 1)));
    assert_eq!(rt;
        restore(&mut bank, &map, &[256]),
        Err(PortError::Wide(0, 256))
    );
    assert_eq!(rt; restore(&mut bank, &map, &[7]), Ok(()));
    assert_eq!(rt; bank.regs.as_slice(), [7, 7].as_slice());
    let words = capture(rt.alloc(), &bank, &map)?;
    assert_eq!(rt; words.as_slice(), [7].as_slice());
    Ok(())
}

/// A bank with the variable and the memory, which has three words.
fn beside_memory(alloc: Global) -> Result<(Bank, PortMap), AllocError>
    ensures map { IfOk result (λ x. s.IsMap x.1.ports (bank_of x.0)) }
    ensures counts { IfOk result (λ x. s.word_counts x.1.ports ≡ 1 ∷ 2 ∷ []) }
    ensures widths { IfOk result (λ x. s.port_widths x.1.ports ≡ 8 ∷ 4 ∷ []) }
{
    let regs = Vec::from_array(alloc, [5, 6])?;
    let words = Vec::from_array(alloc, [1, 2, 3])?;
    let mems = Vec::from_array(alloc, [words])?;
    let ports = Items::from_vec(Vec::from_array(alloc, [variable(), memory()])?);
    let bank = Bank {
        regs,
        mems,
        slots: Vec::new(alloc),
    };
    Ok((bank, PortMap { ports }))
}

#[test]
fn a_memory(rt: HostRuntime) -> Result<(), Fail> {
    let (mut bank, map) = beside_memory(rt.alloc())?;
    let words = capture(rt.alloc(), &bank, &map)?;
    assert_eq!(rt; words.as_slice(), [5, 1, 2].as_slice());
    assert_eq!(rt;
        restore(&mut bank, &map, &[255, 15, 16]),
        Err(PortError::Wide(2, 16))
    );
    assert_eq!(rt; restore(&mut bank, &map, &[7, 8, 9]), Ok(()));
    write(
        &mut bank,
        &map,
        1,
        1,
        Bits {
            value: 15,
            width: 4,
        },
    );
    assert_eq!(rt; read(&bank, &map, 1, 1).value, 15);
    assert_eq!(rt; read(&bank, &map, 0, 0).value, 7);
    let words = capture(rt.alloc(), &bank, &map)?;
    assert_eq!(rt; words.as_slice(), [7, 8, 15].as_slice());
    Ok(())
}
