//! Refusals of changes.
ghost use Rattle.std.specs.Prelude.{◌≡◌};
ghost use Rattle.cv_overlay.specs.declared.overlay_fault.OverlayFault.TheVariants as faults;

use cv_base::{NoMemory, RepoPath};

/// Why changes make no part.
#[derive(Debug, Drop)]
pub enum OverlayFault {
    /// The whiteout at this path is no regular file, removes no name, or one that stands beside it. It is the least such path.
    BadWhiteout(RepoPath),
    /// There was no memory.
    NoMemory,
}

impl From<NoMemory> for OverlayFault {
    ghost from_gives = { λ _ fault. fault ≡ faults.NoMemory };

    fn from(_fault: NoMemory) -> OverlayFault {
        OverlayFault::NoMemory
    }
}
