//! Why a repository isn't made.
ghost use Rattle.std.specs.Prelude.{◌≡◌};
ghost use Rattle.cv_swap.specs.Faults.{init_fault_of, init_fault_in};
ghost use Rattle.cv_swap.specs.declared.init_fault.InitFault.TheVariants as init_fault;

use cv_base::{NoMemory, ObjectId};
use cv_objects::StoreFault;
use cv_vault::VaultFault;

/// Why a repository isn't made.
#[derive(Clone, Copy, Debug, PartialEq, Eq)]
pub enum InitFault {
    /// There is a manifest.
    Exists,
    /// Other bytes stand under this id of the first revision, which have its hash too.
    Collision(ObjectId),
    /// The vault failed. Its count of faults rose in this call.
    Failed,
    /// The bytes that stand under an id of the first revision have another digest than its hash.
    Damaged {
        /// The id.
        id: ObjectId,
        /// The SHA-1 of the bytes that stand there.
        found: [u8; 20],
    },
    /// There was no memory.
    NoMemory,
}

impl From<StoreFault> for InitFault {
    ghost from_gives = { λ v e. e ≡ init_fault_of v };

    fn from(fault: StoreFault) -> InitFault {
        match fault {
            StoreFault::Collision(id) => InitFault::Collision(id),
            StoreFault::Failed => InitFault::Failed,
            StoreFault::Damaged { id, found } => InitFault::Damaged { id, found },
            StoreFault::NoMemory => InitFault::NoMemory,
        }
    }
}

impl From<VaultFault> for InitFault {
    ghost from_gives = { λ v e. e ≡ init_fault_in v };

    fn from(fault: VaultFault) -> InitFault {
        match fault {
            VaultFault::Failed => InitFault::Failed,
            VaultFault::NoMemory => InitFault::NoMemory,
        }
    }
}

impl From<NoMemory> for InitFault {
    ghost from_gives = { λ _ e. e ≡ init_fault.NoMemory };

    fn from(_fault: NoMemory) -> InitFault {
        InitFault::NoMemory
    }
}
