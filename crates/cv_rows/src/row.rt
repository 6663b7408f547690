//! Rows of a catalogue.
ghost use Rattle.std.specs.Prelude.{◌≡◌, IfOk};

use crate::row_kind::RowKind;
use cv_base::{Attr, NoMemory, PathKey, Target};
use std::alloc::Global;

/// A row of a catalogue: an entry of the repository, without its content.
#[derive(Debug, Drop)]
pub struct Row {
    /// The key of the entry's path.
    pub key: PathKey,
    /// The key of the path of the directory that it stands in. Zero bytes for the root of the repository.
    pub parent: PathKey,
    /// What the entry is.
    pub kind: RowKind,
    /// Its attributes.
    pub attr: Attr,
    /// The bytes of a file, of at most 16 MiB, or of the target of a link. 0 for a directory.
    pub size: u64,
    /// The SHA-1 of the content of a file (FIPS 180-4). None for anything else.
    pub hash: Option<[u8; 20]>,
    /// Its name in that directory. Empty for the root of the repository.
    pub name: Target,
    /// Where a link leads to. Empty for anything else.
    pub target: Target,
}

impl Row {
    /// An equal row.
    pub fn copy(&self, alloc: Global) -> Result<Row, NoMemory>
        ensures { IfOk result (λ row. row ≡ self.now) }
    {
        Ok(Row {
            key: self.key,
            parent: self.parent,
            kind: self.kind,
            attr: self.attr,
            size: self.size,
            hash: self.hash,
            name: self.name.copy(alloc)?,
            target: self.target.copy(alloc)?,
        })
    }
}
