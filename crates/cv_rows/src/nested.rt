//! Nested entries of a catalogue.
ghost use Rattle.std.specs.Prelude.{◌≡◌, IfOk};

use cv_base::{NoMemory, RepoPath};
use std::alloc::Global;

/// The entry of a nested catalogue in the catalogue above it.
#[derive(Debug, Drop)]
pub struct Nested {
    /// The directory at which the nested catalogue begins.
    pub path: RepoPath,
    /// The SHA-1 of the nested catalogue's row file (FIPS 180-4).
    pub hash: [u8; 20],
    /// The bytes of that row file.
    pub size: u64,
}

impl Nested {
    /// An equal entry.
    pub fn copy(&self, alloc: Global) -> Result<Nested, NoMemory>
        ensures { IfOk result (λ nested. nested ≡ self.now) }
    {
        Ok(Nested {
            path: self.path.copy(alloc)?,
            hash: self.hash,
            size: self.size,
        })
    }
}
