//! Why bytes are no pack.
ghost use Rattle.std.specs.Prelude.{◌≡◌};
ghost use Rattle.cv_pack.specs.declared.pack_fault.PackFault.TheVariants as faults;

use cv_base::NoMemory;
use std::alloc::{AllocError, AllocFailed};

/// Why bytes are no pack: the fault that the earliest byte shows.
#[derive(Clone, Copy, Debug, PartialEq, Eq)]
pub enum PackFault {
    /// The line of the header that begins at this offset isn't as it has to be, or (at the offset of
    /// the `S` line) its total isn't the sum of the sizes, or (at offset 0) the header passes 1 MiB.
    BadHeader(u64),
    /// The total passes 32 MiB, or the size of an object 16 MiB.
    TooLarge,
    /// The count of objects passes 10,000.
    TooMany,
    /// The content at this index has another SHA-1 than its line says.
    HashDiffers(u32),
    /// The bytes end before the contents do.
    Short,
    /// A byte follows the contents.
    Trailing,
    /// The object at this index has the id of an earlier one.
    Duplicate(u32),
    /// There was no memory.
    NoMemory,
}

impl From<AllocError> for PackFault {
    ghost from_gives = { λ _ fault. fault ≡ faults.NoMemory };

    fn from(_error: AllocError) -> PackFault {
        PackFault::NoMemory
    }
}

impl<T: Drop> From<AllocFailed<T>> for PackFault {
    ghost from_gives = { λ _ fault. fault ≡ faults.NoMemory };

    fn from(_error: AllocFailed<T>) -> PackFault {
        PackFault::NoMemory
    }
}

impl From<NoMemory> for PackFault {
    ghost from_gives = { λ _ fault. fault ≡ faults.NoMemory };

    fn from(_error: NoMemory) -> PackFault {
        PackFault::NoMemory
    }
}
