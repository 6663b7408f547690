//! Why a repository isn't opened.

ghost use Rattle.std.specs.Prelude.{◌≡◌};
ghost use Rattle.cv_swap.specs.Faults.{open_fault_of};
ghost use Rattle.cv_swap.specs.declared.open_fault.OpenFault.TheVariants as fault;

use cv_base::NoMemory;
use cv_history::ChainFault;
use cv_manifest::ManifestFault;
use cv_vault::VaultFault;

/// Why a repository isn't opened: the first that is so, in this order.
#[derive(Clone, Copy, Debug, PartialEq, Eq)]
pub enum OpenFault {
    /// There is no manifest.
    NoRepository,
    /// The manifest's file is none. The fault is never `NoMemory`.
    BadManifest(ManifestFault),
    /// The manifest is that of another repository.
    OtherName,
    /// There is no chain of records. The fault is never `Failed` or `NoMemory`.
    BadHistory(ChainFault),
    /// The epoch's file is missing, or no decimal number and a newline.
    BadEpoch,
    /// The epoch is the last one.
    EpochsSpent,
    /// The vault failed. Its count of faults rose in this call.
    Failed,
    /// There was no memory.
    NoMemory,
}

impl From<VaultFault> for OpenFault {
    ghost from_gives = { λ v e. e ≡ open_fault_of v };

    fn from(fault: VaultFault) -> OpenFault {
        match fault {
            VaultFault::Failed => OpenFault::Failed,
            VaultFault::NoMemory => OpenFault::NoMemory,
        }
    }
}

impl From<NoMemory> for OpenFault {
    ghost from_gives = { λ _ e. e ≡ fault.NoMemory };

    fn from(_fault: NoMemory) -> OpenFault {
        OpenFault::NoMemory
    }
}
