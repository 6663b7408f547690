//! Why there is no chain of records.
ghost use Rattle.std.specs.Prelude.{◌≡◌};
ghost use Rattle.cv_history.specs.declared.chain_fault.ChainFault.TheVariants as fault;

use cv_base::{NoMemory, ObjectId};
use std::alloc::AllocFailed;

/// Why a chain of records wasn't given. What it says of an id is the first that isn't so, from the last record back.
#[derive(Clone, Copy, Debug, PartialEq, Eq)]
pub enum ChainFault {
    /// No object stands under this id.
    Missing(ObjectId),
    /// The object is no record.
    BadRecord(ObjectId),
    /// The record has another revision than the one wanted there.
    BadLink {
        /// The record's id.
        id: ObjectId,
        /// The revision that it has.
        revision: u64,
        /// The revision that was wanted.
        wanted: u64,
    },
    /// The shelf failed. Its count of faults rose in this call.
    Failed,
    /// The bytes under this id have another digest than its hash.
    Damaged {
        /// The id that was asked for.
        id: ObjectId,
        /// The SHA-1 of the bytes that stand there.
        found: [u8; 20],
    },
    /// There was no memory.
    NoMemory,
}

impl<T: Drop> From<AllocFailed<T>> for ChainFault {
    ghost from_gives = { λ _ e. e ≡ fault.NoMemory };

    fn from(_error: AllocFailed<T>) -> ChainFault {
        ChainFault::NoMemory
    }
}

impl From<NoMemory> for ChainFault {
    ghost from_gives = { λ _ e. e ≡ fault.NoMemory };

    fn from(_fault: NoMemory) -> ChainFault {
        ChainFault::NoMemory
    }
}
