//! A clock in memory.
ghost use Rattle.std.specs.Prelude.{◌≡◌, ◌<◌, ℕ, List, Option, Some, All, length, slice_index};
ghost use Rattle.cv_base.specs.Told.{WhereTold};
ghost use Rattle.cv_base.specs.Moment.{IsMoment};
ghost use Rattle.cv_ports.specs.Moments.{advanced, moment_of, later_moments};

use crate::clock::Clock;
use std::marker::Model;

/// Gives stated moments, one a call. The last of them repeats.
#[derive(Debug, Drop)]
pub struct MemoryClock {
    moments: Vec<u64>,
    given: usize,
}

impl Model for MemoryClock {
    ghost use Rattle.std.specs.Prelude.{◌<◌, ℕ, List, All, vec_len, drop};
    ghost use Rattle.cv_base.specs.Moment.{IsMoment};

    ghost Value = { List ℕ };

    ghost view = { λ c. drop c.given c.moments.items };

    ghost invariant = { λ c. (c.given < vec_len c.moments) × All IsMoment c.moments.items };
}

impl MemoryClock {
    /// Gives these moments, of which there is one at least.
    pub fn new(moments: Vec<u64>) -> MemoryClock
        requires some { 0 < length moments.items }
        requires limit { All IsMoment moments.items }
        ensures { result ≡ moments.items }
    {
        MemoryClock { moments, given: 0 }
    }
}

impl Clock for MemoryClock {
    ghost moments = { λ c. Some (moment_of c) };

    fn now(&mut self) -> u64
        ensures limit { IsMoment result }
        ensures first { WhereTold (Some (moment_of self.old)) (λ moment. result ≡ moment 0) }
        ensures later { Some (moment_of self.new) ≡ advanced (Some (moment_of self.old)) }
        ensures given { result ≡ slice_index self.old 0 }
        ensures left { self.new ≡ later_moments self.old }
    {
        let moment = self.moments[self.given];
        if self.given + 1 < self.moments.len() {
            self.given += 1;
        }
        moment
    }
}
