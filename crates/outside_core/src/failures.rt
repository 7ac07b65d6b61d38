//! Which calls of something in memory fail, and the count of those that did.

ghost use Rattle.std.specs.Prelude.{◌≡◌, ◌≤◌, OnOk, is_err};
ghost use Rattle.outside_core.specs.Failed.{HasCause, Rose};
ghost use Rattle.outside_core.specs.Failures.{planned, is_due, after_call, after_fault};

use crate::Failed;
use std::marker::Model;

/// Which calls of something in memory fail, how many calls there were, and how often one failed.
///
/// Whatever tries faults in memory holds one: a source, a sink, a disk, a host.
#[derive(Drop)]
pub struct Failures {
    failing: Vec<u64>,
    calls: u64,
    faults: u64,
}

impl Model for Failures {
    ghost use Rattle.outside_core.specs.Failures.{Plan};

    ghost Value = { Plan };

    ghost view = { λ f. record { failing = f.failing.items; calls = f.calls; faults = f.faults } };
}

impl Failures {
    /// The calls with these numbers are to fail. The first call is number 1.
    pub fn planned(failing: Vec<u64>) -> Self
        ensures { result ≡ planned failing.items }
    {
        Failures {
            failing,
            calls: 0,
            faults: 0,
        }
    }

    /// Counts one call, and its fault where it is to fail.
    pub fn call(&mut self) -> Result<(), Failed>
        ensures due { is_err result ≡ is_due self.old }
        ensures counted { self.new ≡ after_call self.old }
        ensures cause { HasCause self.old.faults self.new.faults result }
        ensures unfailed { OnOk result (self.new.faults ≡ self.old.faults) }
    {
        self.calls = self.calls.saturating_add(1);
        if self.failing.contains(&self.calls) {
            self.faults = self.faults.saturating_add(1);
            return Err(Failed);
        }
        Ok(())
    }

    /// Counts a fault of a call that was not to fail.
    pub fn fault(&mut self)
        ensures counted { self.new ≡ after_fault self.old }
        ensures later { self.old.faults ≤ self.new.faults }
        ensures rose { Rose self.old.faults self.new.faults }
    {
        self.faults = self.faults.saturating_add(1);
    }
}
