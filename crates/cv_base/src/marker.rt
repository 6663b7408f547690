//! The file that marks nested catalogues.
ghost use Rattle.std.specs.Prelude.{◌≡◌};
ghost use Rattle.cv_base.specs.Marker.{marker, ends_in};

use crate::repo_path::RepoPath;

/// The name of the file by which a directory is the root of a nested catalogue.
pub const MARKER: &str = ".cvmfscatalog";

/// Whether the path's last name is that of the file which marks nested catalogues. Such a path is never leased.
pub fn ends_in_marker(path: &RepoPath) -> bool
    ensures { result ≡ ends_in marker path.now }
{
    match path.names().last() {
        Some(last) => last.as_str() == MARKER,
        None => false,
    }
}
