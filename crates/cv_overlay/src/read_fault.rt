//! Faults of a folder of changes.

ghost use Rattle.std.specs.Prelude.{◌≡◌};
ghost use Rattle.cv_overlay.specs.Fault.{of_folder};
ghost use Rattle.cv_overlay.specs.declared.read_fault.ReadFault.TheVariants as faults;

use cv_base::{NoMemory, RepoPath};
use cv_ports::FolderFault;

/// Why a folder's changes weren't read: the first fault of its walk. Paths count from the folder.
#[derive(Debug, Drop)]
pub enum ReadFault {
    /// No directory, file or link stands at this path.
    Special(RepoPath),
    /// In the directory at this path stands a name that no path has, a link to a text that is no target, or what passes a
    /// limit of a path behind the published path.
    BadName(RepoPath),
    /// The file at this path has more than 16 MiB, or the files up to it more than 1 GiB.
    TooLarge(RepoPath),
    /// The folder failed. Its count of faults rose.
    Failed,
    /// There was no memory.
    NoMemory,
}

impl From<NoMemory> for ReadFault {
    ghost from_gives = { λ _ e. e ≡ faults.NoMemory };

    fn from(_fault: NoMemory) -> ReadFault {
        ReadFault::NoMemory
    }
}

impl From<FolderFault> for ReadFault {
    ghost from_gives = { λ fault e. e ≡ of_folder fault };

    fn from(fault: FolderFault) -> ReadFault {
        match fault {
            FolderFault::Failed => ReadFault::Failed,
            FolderFault::NoMemory => ReadFault::NoMemory,
        }
    }
}
