//! How far a run has come in time zero.

ghost use Rattle.std.specs.Prelude.{◌≡◌, OnOk};
ghost use Rattle.vl_design.specs.State.{counted};
ghost use Rattle.ten_zero.specs.Early.{state_in};

use std::alloc::AllocError;
use vl_run::machine::Machine;

/// A run that has come so far in time zero.
#[derive(Drop)]
pub struct Early {
    /// What it holds.
    pub machine: Machine,
    /// The acts that it has done.
    pub acts: u64,
}

impl Early {
    /// One more act is done. More than can be counted are too many for memory.
    pub(crate) fn count(&mut self) -> Result<(), AllocError>
        ensures state { OnOk result (state_in self.new ≡ counted (state_in self.old)) }
        ensures machine { self.new.machine ≡ self.old.machine }
    {
        match self.acts.checked_add(1) {
            None => Err(AllocError),
            Some(acts) => {
                self.acts = acts;
                Ok(())
            }
        }
    }
}
