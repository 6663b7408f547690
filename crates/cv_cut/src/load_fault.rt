//! Why a catalogue is not opened, or no tree loaded.
ghost use Rattle.std.specs.Prelude.{◌≡◌};
ghost use Rattle.cv_cut.specs.declared.load_fault.LoadFault.TheVariants as faults;

use cv_base::{NoMemory, ObjectId};
use std::alloc::{AllocError, AllocFailed};

/// Why a hash gave no tree. Where an object is missing and another is bad, either is answered.
#[derive(Clone, Copy, Debug, PartialEq, Eq)]
pub enum LoadFault {
    /// This object is reached from the root, and isn't there.
    Missing(ObjectId),
    /// This catalogue is reached from the root and is there. It isn't one that fits its place, or it states a size that
    /// isn't the length of the object that it names.
    Bad(ObjectId),
    /// The shelf failed. Its count of faults rose in this call.
    Failed,
    /// This catalogue is reached from the root, and its bytes have another digest than its hash.
    Damaged {
        /// The id that was asked for.
        id: ObjectId,
        /// The SHA-1 of the bytes that stand there.
        found: [u8; 20],
    },
    /// There was no memory.
    NoMemory,
}

impl From<NoMemory> for LoadFault {
    ghost from_gives = { λ _ e. e ≡ faults.NoMemory };

    fn from(_fault: NoMemory) -> LoadFault {
        LoadFault::NoMemory
    }
}
