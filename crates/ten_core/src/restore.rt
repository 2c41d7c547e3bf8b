//! What a run has, in a bank.

ghost use Rattle.std.specs.Prelude.{◌≡◌};
ghost use Rattle.trap_runtime.specs.cell_form.specs.Views.{bank_of};
ghost use Rattle.reg_ports.specs.Ports.{restored, IsMap};
ghost use Rattle.reg_ports.specs.Refusals.{AreFit};

use reg_ports::laws::one_outcome;
use reg_ports::restore::restore;
use trap_runtime::{Bank, PortMap};

/// Sets the ports of a bank to words that fit them.
pub fn put_back(bank: &mut Bank, ports: &PortMap, words: &[u128])
    requires ports { IsMap ports.now.ports (bank_of bank.old) }
    requires words { AreFit ports.now.ports words.now }
    ensures { bank_of bank.new ≡ restored ports.now.ports words.now (bank_of bank.old) }
{
    one_outcome();
    match restore(bank, ports, words) {
        Ok(()) => {}
        Err(_) => unreachable!(),
    }
}
