//! How a call of a vault in memory is to end.
ghost use Rattle.std.specs.Prelude.{◌≡◌, ◌≢◌, IsErrOf, if◌then◌else◌, nat_lt};
ghost use Rattle.std.specs.Bool.{OnTrue};
ghost use Rattle.cv_vault.specs.FailuresInner.{fate_of, fate_fails, fate_makes};
ghost use Rattle.cv_vault.specs.declared.vault.VaultFault.TheVariants as fault;

use crate::vault::VaultFault;

/// How a call is to end: as it does, or with a failure, where a write, rename or removal is made all the same or isn't.
#[derive(Clone, Copy, Debug, PartialEq, Eq)]
pub enum Fate {
    Works,
    FailsUnmade,
    FailsMade,
}

impl Fate {
    /// The fate of a call whose number stands so often among those that are to fail.
    pub fn of(times: usize) -> Fate
        ensures { result ≡ fate_of times }
    {
        match times {
            0 => Fate::Works,
            1 => Fate::FailsUnmade,
            _ => Fate::FailsMade,
        }
    }

    /// Whether the call answers `Failed`.
    pub fn fails(self) -> bool
        ensures { result ≡ fate_fails self }
    {
        match self {
            Fate::Works => false,
            Fate::FailsUnmade | Fate::FailsMade => true,
        }
    }

    /// Whether the call makes its change.
    pub fn makes(self) -> bool
        ensures { result ≡ fate_makes self }
    {
        match self {
            Fate::Works | Fate::FailsMade => true,
            Fate::FailsUnmade => false,
        }
    }

    /// The answer of the call, where this is the answer of one that works.
    pub fn answer<T: Drop>(self, value: T) -> Result<T, VaultFault>
        ensures { result ≡ (if fate_fails self then Err fault.Failed else Ok value) }
    {
        if self.fails() {
            Err(VaultFault::Failed)
        } else {
            Ok(value)
        }
    }
}
