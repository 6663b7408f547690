//! Why a catalogue isn't made of rows.
ghost use Rattle.std.specs.Prelude.{◌≡◌};
ghost use Rattle.cv_rows.specs.declared.with_fault.WithFault.TheVariants as fault;

use cv_base::{NoMemory, PathKey};
use std::alloc::AllocError;

/// Why no catalogue is made of rows and nested entries.
#[derive(Clone, Copy, Debug, PartialEq, Eq)]
pub enum WithFault {
    /// Two rows would have this key.
    Collision {
        /// The key.
        first: PathKey,
    },
    /// No two would, but there would be more than 50,000 rows, or more than 16 MiB of bytes.
    Full,
    /// There was no memory.
    NoMemory,
}

impl From<AllocError> for WithFault {
    ghost from_gives = { λ _ said. said ≡ fault.NoMemory };

    fn from(_error: AllocError) -> WithFault {
        WithFault::NoMemory
    }
}

impl From<NoMemory> for WithFault {
    ghost from_gives = { λ _ said. said ≡ fault.NoMemory };

    fn from(_error: NoMemory) -> WithFault {
        WithFault::NoMemory
    }
}
