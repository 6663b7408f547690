//! The trait of a vault that a crash can be tried on.
ghost use Rattle.std.specs.Prelude.{◌≡◌};
ghost use Rattle.cv_vault.specs.Crash.{CrashesTo};

use crate::vault::Vault;

/// A vault that can be crashed at any moment between two calls.
pub trait Mortal: Vault + Sized {
    /// The vault after a crash. The bits of the pick say what is left of each name that isn't settled: the pick goes over these
    /// names in ascending order, and its lowest bit leaves the name as before where it is 0 (a torn name: absent), and as it
    /// is now where it is 1. Then the pick is halved. All names are settled afterwards. The count of faults goes on,
    /// and the count of changes begins anew. It needs no memory.
    fn crash(self, pick: u64) -> Self
        ensures left { CrashesTo pick (Self.disk self) (Self.disk result) }
        ensures faults { Self.faults result ≡ Self.faults self }
        ensures count { Self.count result ≡ 0 };
}
