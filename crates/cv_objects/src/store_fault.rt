//! Why a batch wasn't stored.
ghost use Rattle.std.specs.Prelude.{◌≡◌};
ghost use Rattle.cv_objects.specs.Faults.{fault_of};
ghost use Rattle.cv_objects.specs.declared.store_fault.StoreFault.TheVariants as fault;

use cv_base::{NoMemory, ObjectId};
use cv_vault::VaultFault;
use std::alloc::{AllocError, AllocFailed};

/// Why a batch wasn't stored.
#[derive(Clone, Copy, Debug, PartialEq, Eq)]
pub enum StoreFault {
    /// The shelf, or another object of the batch, has other bytes under this id. Those of the shelf have its hash too.
    Collision(ObjectId),
    /// The vault failed. Its count of faults rose in this call.
    Failed,
    /// The bytes that stand under the id have another digest than its hash.
    Damaged {
        /// The id of an object of the batch.
        id: ObjectId,
        /// The SHA-1 of the bytes that stand there.
        found: [u8; 20],
    },
    /// There was no memory.
    NoMemory,
}

impl From<VaultFault> for StoreFault {
    ghost from_gives = { λ v e. e ≡ fault_of v };

    fn from(fault: VaultFault) -> StoreFault {
        match fault {
            VaultFault::Failed => StoreFault::Failed,
            VaultFault::NoMemory => StoreFault::NoMemory,
        }
    }
}

impl From<NoMemory> for StoreFault {
    ghost from_gives = { λ _ e. e ≡ fault.NoMemory };

    fn from(_fault: NoMemory) -> StoreFault {
        StoreFault::NoMemory
    }
}

impl<T: Drop> From<AllocFailed<T>> for StoreFault {
    ghost from_gives = { λ _ e. e ≡ fault.NoMemory };

    fn from(_error: AllocFailed<T>) -> StoreFault {
        StoreFault::NoMemory
    }
}

impl From<AllocError> for StoreFault {
    ghost from_gives = { λ _ e. e ≡ fault.NoMemory };

    fn from(_fault: AllocError) -> StoreFault {
        StoreFault::NoMemory
    }
}
