//! Why a text is no path.
ghost use Rattle.std.specs.Prelude.{◌≡◌, ◌≢◌, MatchResult};
ghost use Rattle.cv_base.specs.declared.path_fault.PathFault.TheVariants as faults;

use crate::memory::NoMemory;
use thiserror::Error;

/// Why a text is no path of a repository. Of several faults that a text has, it is the first in the order `TooLong`,
/// `TooDeep`, `BadName`.
#[derive(Clone, Copy, Debug, PartialEq, Eq, Error)]
pub enum PathFault {
    /// The name at this place, counted from 0, is no name in a path; or the text doesn't begin with a slash.
    #[error("bad name at place {0}")]
    BadName(usize),
    /// The path has more than 4,095 bytes.
    #[error("path too long")]
    TooLong,
    /// The path has more than 64 names.
    #[error("path too deep")]
    TooDeep,
    /// There was no memory.
    #[error("no memory")]
    NoMemory,
}

impl PathFault {
    /// Tells want of memory, by which nothing is known of a text, from a text that is no path.
    pub fn unless_memory(self) -> Result<(), NoMemory>
        ensures { MatchResult result (λ _. self ≢ faults.NoMemory) (λ _. self ≡ faults.NoMemory) }
    {
        match self {
            PathFault::NoMemory => Err(NoMemory),
            PathFault::BadName(_) | PathFault::TooLong | PathFault::TooDeep => Ok(()),
        }
    }
}

impl From<NoMemory> for PathFault {
    ghost from_gives = { λ _ e. e ≡ faults.NoMemory };

    fn from(_fault: NoMemory) -> PathFault {
        PathFault::NoMemory
    }
}
