//! A count of faults.
ghost use Rattle.std.specs.Prelude.{◌≡◌, ⊤};
ghost use Rattle.cv_base.specs.Counts.{HasCause, raised};

/// How many calls failed. The count stays at its last value.
#[derive(Debug, Drop)]
pub struct FaultCount {
    pub number: u64,
}

impl FaultCount {
    /// No call failed yet.
    pub fn new() -> FaultCount
        ensures { result.number ≡ 0 }
    {
        FaultCount { number: 0 }
    }

    /// One more call failed.
    pub fn raise(&mut self)
        ensures cause { HasCause self.old.number self.new.number ⊤ }
        ensures raised { self.new.number ≡ raised self.old.number }
    {
        self.number = self.number.saturating_add(1);
    }
}
