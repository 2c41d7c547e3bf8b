//! Numbered calls of which some are to fail.

ghost use Rattle.std.specs.Prelude.{◌≡◌, ◌==◌, ◌∷◌, ◌++◌, [], OnOk, OnErr};
ghost use Rattle.std.specs.List.{list_any};
ghost use Rattle.fab_io.specs.Calls.{next_count, no_calls, fails_next, after_call};

use std::alloc::{AllocError, Global};
use std::marker::Model;

/// A count's next value: it stands still at its end.
pub(crate) fn raised(count: u64) -> u64
    ensures { result ≡ next_count count }
{
    if count < u64::MAX { count + 1 } else { count }
}

fn is_listed(failing: &[u64], call: u64) -> bool
    ensures { result ≡ list_any (λ number. number == call) failing.now }
{
    failing.iter().any(|number| *number == call)
}

/// How many calls were made, which are to fail, and how many failed.
#[derive(Drop)]
pub(crate) struct CallLog {
    made: u64,
    failing: Vec<u64>,
    faults: u64,
}

impl Model for CallLog {
    ghost use Rattle.fab_io.specs.Calls.{Calls};

    ghost Value = { Calls };

    ghost view = { λ log. record { made = log.made; failing = log.failing.items; faults = log.faults } };
}

impl CallLog {
    /// No calls.
    pub(crate) fn new(alloc: Global) -> CallLog
        ensures { result ≡ no_calls }
    {
        CallLog {
            made: 0,
            failing: Vec::new(alloc),
            faults: 0,
        }
    }

    /// Lists a call that is to fail.
    pub(crate) fn fail_call(&mut self, call: u64) -> Result<(), AllocError>
        ensures ok { OnOk result (self.new ≡ record self.old { failing = self.old.failing ++ call ∷ [] }) }
        ensures err { OnErr result (self.new ≡ self.old) }
    {
        self.failing.push(call)?;
        Ok(())
    }

    /// Counts a call, and answers whether it fails.
    pub(crate) fn count(&mut self) -> bool
        ensures listed { result ≡ fails_next self.old }
        ensures counted { self.new ≡ after_call self.old }
    {
        self.made = raised(self.made);
        let fails = is_listed(self.failing.as_slice(), self.made);
        if fails {
            self.faults = raised(self.faults);
        }
        fails
    }
}
