//! What a client finds.
ghost use Rattle.std.specs.Prelude.{◌≡◌};
ghost use Rattle.cv_resolver.specs.declared.found.ClientFault.TheVariants as faults;

use crate::stat_line::StatLine;
use cv_base::{Bytes, Items, NoMemory, ObjectId, Text};

/// What a question finds.
#[derive(Debug, Drop)]
pub enum Found {
    /// The names in a directory, in ascending order of their bytes.
    Names(Items<Text>),
    /// What is told of an entry.
    Stat(StatLine),
    /// The content of a file.
    Bytes(Bytes),
}

/// Why nothing was found.
#[derive(Clone, Copy, Debug, PartialEq, Eq)]
pub enum ClientFault {
    /// Nothing stands at the path.
    NotFound,
    /// A name below a file, or a list of what is no directory.
    NotDirectory,
    /// A read of what is no file.
    NotFile,
    /// The walk came to its 33rd link.
    TooManyLinks,
    /// The bytes that were given for this id have another digest.
    BadObject {
        /// The id that was wanted.
        id: ObjectId,
        /// The SHA-1 of the bytes that were given.
        found: [u8; 20],
    },
    /// The bytes under this id have its digest, and don't decode at their place.
    BadCatalogue(ObjectId),
    /// Nothing was given for this id.
    NotServed(ObjectId),
    /// There was no memory.
    NoMemory,
}

impl From<NoMemory> for ClientFault {
    ghost from_gives = { λ _ e. e ≡ faults.NoMemory };

    fn from(_fault: NoMemory) -> ClientFault {
        ClientFault::NoMemory
    }
}

/// Why a manifest isn't taken. After it the resolver is as before.
#[derive(Clone, Copy, Debug, PartialEq, Eq)]
pub enum RenewFault {
    /// Its revision is below the pinned one.
    Older {
        /// The pinned revision.
        pinned: u64,
        /// That of the manifest.
        offered: u64,
    },
    /// It is of another repository.
    OtherRepository,
    /// It has the pinned revision and another root.
    Forked {
        /// The pinned root.
        pinned: [u8; 20],
        /// That of the manifest.
        offered: [u8; 20],
    },
}
