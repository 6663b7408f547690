//! Why a tree is not cut.
ghost use Rattle.std.specs.Prelude.{◌≡◌};
ghost use Rattle.cv_cut.specs.declared.cut_fault.CutFault.TheVariants as faults;

use cv_base::{NoMemory, RepoPath};
use std::alloc::{AllocError, AllocFailed};

/// Why a tree is not cut into catalogues.
#[derive(Debug, Drop)]
pub enum CutFault {
    /// Two paths of one region have one key, so that no catalogue has a row for both.
    PathCollision {
        /// One of the paths.
        first: RepoPath,
        /// The other.
        second: RepoPath,
    },
    /// No two paths of one region have one key, but the catalogue of the cut at this path would have more than
    /// 50,000 rows, or more than 16 MiB.
    CatalogueFull(RepoPath),
    /// There was no memory.
    NoMemory,
}

impl From<NoMemory> for CutFault {
    ghost from_gives = { λ _ fault. fault ≡ faults.NoMemory };

    fn from(_error: NoMemory) -> CutFault {
        CutFault::NoMemory
    }
}
