//! Why an object isn't added to a pack.
ghost use Rattle.std.specs.Prelude.{◌≡◌};
ghost use Rattle.cv_pack.specs.declared.add_fault.AddFault.TheVariants as faults;

use cv_base::NoMemory;
use std::alloc::AllocFailed;

/// Why an object isn't added to a pack.
#[derive(Clone, Copy, Debug, PartialEq, Eq)]
pub enum AddFault {
    /// A limit of a pack would be passed.
    Full,
    /// There was no memory.
    NoMemory,
}

impl<T: Drop> From<AllocFailed<T>> for AddFault {
    ghost from_gives = { λ _ fault. fault ≡ faults.NoMemory };

    fn from(_error: AllocFailed<T>) -> AddFault {
        AddFault::NoMemory
    }
}

impl From<NoMemory> for AddFault {
    ghost from_gives = { λ _ fault. fault ≡ faults.NoMemory };

    fn from(_error: NoMemory) -> AddFault {
        AddFault::NoMemory
    }
}
