//! Paths made of the names of other paths.
ghost use Rattle.std.specs.Prelude.{◌≡◌, ◌++◌, IfOk};
ghost use Rattle.cv_base.specs.Path.{parent, behind, IsPath};

use cv_base::{NoMemory, PathName, RepoPath};
use std::alloc::Global;

/// A path with these names behind its own.
fn extended(alloc: Global, start: RepoPath, names: &[PathName]) -> Result<RepoPath, NoMemory>
    requires { IsPath (start ++ names.now) }
    ensures { IfOk result (λ longer. longer ≡ start ++ names.now) }
{
    let mut path = start;
    for name in names {
        // The path keeps its limits, so that only memory may be wanting.
        let Ok(longer) = path.with_name(alloc, name.as_str()) else {
            return Err(NoMemory);
        };
        path = longer;
    }
    Ok(path)
}

/// The path without its last name. The root stays as it is.
pub fn parent(alloc: Global, path: &RepoPath) -> Result<RepoPath, NoMemory>
    ensures { IfOk result (λ above. above ≡ parent path.now) }
{
    Ok(path.copy(alloc)?.into_parent())
}

/// A path with those of another behind it.
pub(crate) fn below(alloc: Global, path: &RepoPath, rest: &RepoPath) -> Result<RepoPath, NoMemory>
    requires { IsPath (path.now ++ rest.now) }
    ensures { IfOk result (λ longer. longer ≡ path.now ++ rest.now) }
{
    extended(alloc, path.copy(alloc)?, rest.names())
}

/// What is left of a path behind another. None where the other does not cover it.
pub(crate) fn behind(
    alloc: Global,
    path: &RepoPath,
    longer: &RepoPath,
) -> Result<Option<RepoPath>, NoMemory>
    ensures { IfOk result (λ rest. rest ≡ behind path.now longer.now) }
{
    match longer.names().strip_prefix(path.names()) {
        Some(rest) => Ok(Some(extended(alloc, RepoPath::root(alloc), rest)?)),
        None => Ok(None),
    }
}
