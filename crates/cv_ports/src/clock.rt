//! What time it is.
ghost use Rattle.std.specs.Prelude.{◌≡◌, ℕ, Option};
ghost use Rattle.cv_base.specs.Told.{WhereTold};
ghost use Rattle.cv_base.specs.Moment.{IsMoment};
ghost use Rattle.cv_ports.specs.Moments.{advanced};

/// Where moments come from. A clock can't fail.
pub trait Clock {
    /// The n-th moment, from 0 on, that it will give from here on, where it tells.
    ghost moments: { Self → Option (ℕ → ℕ) };

    /// The moment, in whole seconds since the beginning of 1970 (UTC), and below 2 to the 62nd. Two calls may give one
    /// moment, and a later call an earlier one.
    fn now(&mut self) -> u64
        ensures limit { IsMoment result }
        ensures first { WhereTold (moments self.old) (λ moment. result ≡ moment 0) }
        ensures later { moments self.new ≡ advanced (moments self.old) };
}
