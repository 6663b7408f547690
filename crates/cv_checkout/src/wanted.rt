//! Catalogues that are wanted.
ghost use Rattle.std.specs.Prelude.{◌≡◌};
ghost use Rattle.cv_checkout.specs.Wanting.{id_of, root_wanted};

use cv_base::{Kind, ObjectId, RepoPath};
use cv_rows::Row;
use std::alloc::Global;

/// A catalogue that is wanted, with what it must be.
#[derive(Debug, Drop)]
pub struct Wanted {
    /// The path of its cut.
    pub path: RepoPath,
    /// The SHA-1 of its bytes (FIPS 180-4).
    pub hash: [u8; 20],
    /// How many bytes it has, as the nested entry that names it states. None for the root's.
    pub size: Option<u64>,
    /// The Transition row that names it. None for the root's.
    pub row: Option<Row>,
}

/// The root's catalogue. It takes no memory.
pub fn root_wanted(alloc: Global, hash: [u8; 20]) -> Wanted
    ensures { result ≡ root_wanted hash }
{
    Wanted {
        path: RepoPath::root(alloc),
        hash,
        size: None,
        row: None,
    }
}

/// The id of a catalogue that is wanted.
pub fn id_of(wanted: &Wanted) -> ObjectId
    ensures { result ≡ id_of wanted.now }
{
    ObjectId {
        hash: wanted.hash,
        kind: Kind::Catalogue,
    }
}
