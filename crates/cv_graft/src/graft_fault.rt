//! Why a subtree is not replaced.
ghost use Rattle.std.specs.Prelude.{◌≡◌};
ghost use Rattle.cv_graft.specs.Faults.{of_load};
ghost use Rattle.cv_graft.specs.Placed.{of_cut};
ghost use Rattle.cv_graft.specs.declared.graft_fault.GraftFault.TheVariants as faults;

use cv_base::{NoMemory, ObjectId, RepoPath};
use cv_cut::{CutFault, LoadFault};
use std::alloc::{AllocError, AllocFailed};

/// Why a subtree is not replaced.
#[derive(Debug, Drop)]
pub enum GraftFault {
    /// Two paths of one region of the new tree would have one key: where a part is set, of a region whose catalogue is made.
    PathCollision {
        /// One of the paths.
        first: RepoPath,
        /// The other.
        second: RepoPath,
    },
    /// No two paths would, but the catalogue of the cut at this path would have more than 50,000 rows, or more than 16 MiB.
    CatalogueFull(RepoPath),
    /// The shelf failed. Its count of faults rose in this call.
    Failed,
    /// The bytes of this catalogue have another digest than its hash.
    Damaged {
        /// The id that was asked for.
        id: ObjectId,
        /// The SHA-1 of the bytes that stand there.
        found: [u8; 20],
    },
    /// There was no memory; or a catalogue on the way isn't there or doesn't decode, or something is to come to a path whose
    /// parent is no directory.
    NoMemory,
}

impl From<NoMemory> for GraftFault {
    ghost from_gives = { λ _ e. e ≡ faults.NoMemory };

    fn from(_fault: NoMemory) -> GraftFault {
        GraftFault::NoMemory
    }
}

impl From<LoadFault> for GraftFault {
    ghost from_gives = { λ f e. e ≡ of_load f };

    fn from(fault: LoadFault) -> GraftFault {
        match fault {
            LoadFault::Missing(_) => GraftFault::NoMemory,
            LoadFault::Bad(_) => GraftFault::NoMemory,
            LoadFault::Failed => GraftFault::Failed,
            LoadFault::Damaged { id, found } => GraftFault::Damaged { id, found },
            LoadFault::NoMemory => GraftFault::NoMemory,
        }
    }
}

impl From<CutFault> for GraftFault {
    ghost from_gives = { λ f e. e ≡ of_cut f };

    fn from(fault: CutFault) -> GraftFault {
        match fault {
            CutFault::PathCollision { first, second } => GraftFault::PathCollision {
                first,
                second,
            },
            CutFault::CatalogueFull(cut) => GraftFault::CatalogueFull(cut),
            CutFault::NoMemory => GraftFault::NoMemory,
        }
    }
}
