//! The calls of a vault in memory that are to fail.
ghost use Rattle.std.specs.Prelude.{◌≡◌, ◌+◌, ◌≤◌, min, if◌then◌else◌};
ghost use Rattle.cv_base.specs.Counts.{last_count, raised};
ghost use Rattle.cv_vault.specs.Failures.{times_next, later_failures};
ghost use Rattle.cv_vault.specs.FailuresInner.{fate_of, fate_fails};

use crate::fate::Fate;

/// The numbers of the calls that are to fail, how many calls there were, and how many of them failed.
#[derive(Drop)]
pub struct Schedule {
    pub failing: Vec<u64>,
    pub calls: u64,
    pub faults: u64,
}

impl Schedule {
    /// Numbers the next call, and tells how it is to end.
    pub fn next(&mut self) -> Fate
        ensures fate { result ≡ fate_of (times_next self.old.failing.items self.old.calls) }
        ensures failing { self.new.failing ≡ self.old.failing }
        ensures calls { self.new.calls ≡ raised self.old.calls }
        ensures faults { self.new.faults ≡ (if fate_fails result then min (self.old.faults + 1) last_count else self.old.faults) }
        ensures later { later_failures self.new.failing.items self.new.calls + (if fate_fails result then 1 else 0) ≤ later_failures self.old.failing.items self.old.calls }
    {
        let Some(number) = self.calls.checked_add(1) else {
            return Fate::Works;
        };
        let times = self.failing.iter().filter(|k| **k == number).count();
        self.calls = number;
        let fate = Fate::of(times);
        if fate.fails() {
            self.faults = self.faults.saturating_add(1);
        }
        fate
    }
}
