//! Why bytes are no row file of a catalogue.
ghost use Rattle.std.specs.Prelude.{◌≡◌, ◌≢◌, MatchResult};
ghost use Rattle.cv_rows.specs.declared.row_fault.RowFault.TheVariants as faults;

use cv_base::NoMemory;
use std::alloc::{AllocError, AllocFailed};

/// Why bytes are no row file of the catalogue at a place. Offsets count bytes from 0, and indices
/// count rows or nested entries from 0.
#[derive(Clone, Copy, Debug, PartialEq, Eq)]
pub enum RowFault {
    /// The bytes end inside a field.
    Short,
    /// The first four bytes aren't `CVR1`.
    BadMagic,
    /// The field at this offset isn't as it has to be.
    BadField(usize),
    /// The key of the row at this index isn't above its predecessor's; or, counted on from the count of
    /// rows, the path of a nested entry isn't.
    Order(usize),
    /// The row at this index has another key than that of its path, its path passes a limit, or it is
    /// the root row and has another name than the catalogue's place.
    BadKey(usize),
    /// The row at this index stands in no directory of the catalogue.
    Orphan(usize),
    /// The directory at this index has a file `.cvmfscatalog` and isn't the root row; or it is the root
    /// row of a nested catalogue and has none.
    Marker(usize),
    /// The nested entry at this index has no Transition row; or, with the count of nested entries, a
    /// Transition row has no entry.
    NestedList(usize),
    /// Bytes follow the last field.
    TrailingBytes,
    /// There are more than 16 MiB of bytes, or more than 50,000 rows.
    TooLarge,
    /// There was no memory.
    NoMemory,
}

impl RowFault {
    /// Tells want of memory, by which nothing is known of bytes or of rows, from a fault that they have.
    pub fn unless_memory(self) -> Result<(), NoMemory>
        ensures { MatchResult result (λ _. self ≢ faults.NoMemory) (λ _. self ≡ faults.NoMemory) }
    {
        match self {
            RowFault::NoMemory => Err(NoMemory),
            _ => Ok(()),
        }
    }
}

impl From<AllocError> for RowFault {
    ghost from_gives = { λ _ fault. fault ≡ faults.NoMemory };

    fn from(_error: AllocError) -> RowFault {
        RowFault::NoMemory
    }
}

impl<T: Drop> From<AllocFailed<T>> for RowFault {
    ghost from_gives = { λ _ fault. fault ≡ faults.NoMemory };

    fn from(_error: AllocFailed<T>) -> RowFault {
        RowFault::NoMemory
    }
}

impl From<NoMemory> for RowFault {
    ghost from_gives = { λ _ fault. fault ≡ faults.NoMemory };

    fn from(_error: NoMemory) -> RowFault {
        RowFault::NoMemory
    }
}
