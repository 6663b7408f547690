//! Which calls of an object in memory are to fail.
ghost use Rattle.std.specs.Prelude.{◌≡◌, ⊤, IsTrue};
ghost use Rattle.cv_base.specs.Counts.{HasCause, raised};
ghost use Rattle.cv_ports.specs.Calls.{fails, called, breaks, called_while_whole, Calls};

use std::marker::Model;

/// Numbers the calls of an object in memory from 1 on, in their order, says which of them are to fail, and counts those
/// that did. A count stays at the last number of 64 bits.
#[derive(Debug, Drop)]
pub struct FailingCalls {
    failing: Vec<u64>,
    count: u64,
    faults: u64,
}

impl Model for FailingCalls {
    ghost use Rattle.cv_ports.specs.Calls.{Calls};

    ghost Value = { Calls };

    ghost view = { λ c. record { failing = c.failing.items; count = c.count; faults = c.faults } };
}

impl FailingCalls {
    /// No call was made. The calls of the stated numbers are to fail.
    pub fn new(failing: Vec<u64>) -> FailingCalls
        ensures { result ≡ record { failing = failing.items; count = 0; faults = 0 } }
    {
        FailingCalls {
            failing,
            count: 0,
            faults: 0,
        }
    }

    /// Counts one more call, and whether its number is among those that are to fail.
    fn next_is_listed(&mut self) -> bool
        ensures listed { result ≡ fails self.old }
        ensures counted { self.new ≡ record self.old { count = raised self.old.count } }
    {
        self.count = self.count.saturating_add(1);
        self.failing.contains(&self.count)
    }

    /// Counts one more call, and whether it is to fail.
    pub fn next_fails(&mut self) -> bool
        ensures fails { result ≡ fails self.old }
        ensures called { self.new ≡ called self.old }
        ensures cause { HasCause self.old.faults self.new.faults (IsTrue result) }
    {
        let fails = self.next_is_listed();
        if fails {
            self.add_fault();
        }
        fails
    }

    /// Counts one more call of an object whose failure lasts, and whether it is to fail: also behind each that failed.
    pub fn next_breaks(&mut self) -> bool
        ensures breaks { result ≡ breaks self.old }
        ensures called { self.new ≡ called_while_whole self.old }
        ensures cause { HasCause self.old.faults self.new.faults (IsTrue result) }
    {
        let broken = self.faults > 0;
        let breaks = self.next_is_listed() || broken;
        if breaks {
            self.add_fault();
        }
        breaks
    }

    /// Counts one more fault, of a call that fails by itself.
    pub fn add_fault(&mut self)
        ensures raised { self.new ≡ record self.old { faults = raised self.old.faults } }
        ensures cause { HasCause self.old.faults self.new.faults ⊤ }
    {
        self.faults = self.faults.saturating_add(1);
    }

    /// How many calls failed.
    pub fn faults(&self) -> u64
        ensures { result ≡ self.now.faults }
    {
        self.faults
    }
}
