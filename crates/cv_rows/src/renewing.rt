//! Nested entries that come to name other catalogues.
ghost use Rattle.std.specs.Prelude.{◌≡◌, map};
ghost use Rattle.cv_rows.specs.Renewed.{renewed};

use crate::nested::Nested;
use cv_base::RepoPath;

/// Gives an entry another hash and size, if it is that of the path.
fn renew_one(entry: &mut Nested, path: &RepoPath, hash: [u8; 20], size: u64)
    ensures { entry.new ≡ renewed path.now hash size entry.old }
{
    if entry.path == *path {
        entry.hash = hash;
        entry.size = size;
    }
}

/// Gives the entry of a path another hash and size.
pub fn renew_entry(nested: &mut Vec<Nested>, path: &RepoPath, hash: [u8; 20], size: u64)
    ensures { nested.new.items ≡ map (renewed path.now hash size) nested.old.items }
{
    for entry in nested.iter_mut() {
        renew_one(entry, path, hash, size);
    }
}
