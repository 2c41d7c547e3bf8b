//! Where text goes.

ghost use Rattle.std.specs.Prelude.{◌≡◌, ◌≤◌, ◌<◌, ◌++◌, length, take, IfOk, OnErr, IsErrOf, option_map};
ghost use Rattle.fab_io.specs.Outside.{HasRisen};

use crate::store::WriteError;

/// Takes text, in pieces. A sink may tell what it has taken; one that stands for a terminal does not.
pub trait Sink {
    ghost use Rattle.std.specs.Prelude.{ℕ, Option, List};

    /// The bytes taken, where the sink tells them.
    ghost taken: { Self → Option (List ℕ) };

    /// How often a call failed.
    ghost faults: { Self → ℕ };

    /// Takes some bytes from the front of a piece that isn't empty, and answers how many.
    fn write(&mut self, bytes: &[u8]) -> Result<usize, WriteError>
        requires { 0 < length bytes.now }
        ensures faults { faults self.old ≤ faults self.new }
        ensures some { IfOk result (λ n. 1 ≤ n) }
        ensures within { IfOk result (λ n. n ≤ length bytes.now) }
        ensures taken { IfOk result (λ n. taken self.new ≡ option_map (λ t. t ++ take n bytes.now) (taken self.old)) }
        ensures failed { IsErrOf result WriteError.Failed → HasRisen (faults self.old) (faults self.new) }
        ensures quiet { ¬ IsErrOf result WriteError.Failed → faults self.new ≡ faults self.old }
        ensures err { OnErr result (taken self.new ≡ taken self.old) };
}
